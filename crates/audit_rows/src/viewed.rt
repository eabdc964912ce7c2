//! The verdict at a point, and the datagram that it refuses.

ghost use Rattle.std.specs.Prelude.{◌≡◌, ℕ, List, IfSome, None, is_some, option_map};
ghost use Rattle.audit_flows.specs.{Transfer};
ghost use Rattle.audit_recording.specs.Between.{IsBetweenFoundBy, between_capture, sides_of};
ghost use Rattle.audit_recording.specs.Blame.Frames.{Carried, whole_of};
ghost use Rattle.audit_recording.specs.Blame.Kept.{IsTrailBetween, IsTrailOf};
ghost use Rattle.audit_recording.specs.Judges.Points.{points_of, rollover_of};
ghost use Rattle.audit_recording.specs.Rows.Told.{refused_frame, status_of};
ghost use Rattle.audit_recording.specs.declared.rows.row.Point.{Point as PointKind};
ghost use Rattle.audit_rows.specs.Viewing.{IsViewBy, found_in, said_in};
ghost use Rattle.audit_rows.specs.declared.found.Found.TheVariants as Found;
ghost use Rattle.audit_views.specs.Parties.{host_name};
ghost use Rattle.audit_views.specs.Views.{IsFoundBy, client_capture, client_header, server_capture, server_header};
ghost use Rattle.law_tap.specs.{AreApart};

use crate::found::Found;
use audit_recording::blame::{Blamed, Trail};
use audit_recording::judges::Judging;
use audit_recording::rows::Said;
use judge_tap::TapRefusal;
use tftp_judge::{Meaning, Refusal};
use tftp_packet::rounds::Rollover;

/// The verdict at a point.
pub struct Viewed {
    /// What was found there.
    pub found: Found,
    /// The datagram that is refused, where one is.
    pub blamed: Option<Blamed>,
    /// What comes after block 65535, where anything does: the numbers were read so.
    pub rollover: Option<Rollover>,
}

impl Drop for Viewed {
    // written out, since the prover takes a derived one apart again wherever a value is let go
    fn drop(self) {
        let Viewed {
            found: _,
            blamed: _,
            rollover: _,
        } = self;
    }
}

impl Viewed {
    /// At its client.
    pub(crate) fn at_client(
        trail: &Trail,
        judging: Judging,
        found: Option<Result<Meaning, Refusal>>,
    ) -> Option<Self>
        ensures found { found_in result ≡ option_map (λ it. Found.AtEnd it) found }
        ensures is { (x : Transfer) (named : List ℕ) (carried : List Carried) → IsTrailOf trail.now judging x named carried
            → is_some found ≡ (points_of judging x).client
            → IfSome found (IsFoundBy (rollover_of judging) (client_header x) (client_capture host_name x (whole_of named carried)))
            → IfSome result (IsViewBy (rollover_of judging) PointKind.Client x named carried) }
    {
        match found {
            Some(found) => {
                let blamed = trail.at_client(&found);
                let (found, rollover) = (Found::AtEnd(found), judging.rollover());
                Some(Viewed {
                    found,
                    blamed,
                    rollover,
                })
            }
            None => None,
        }
    }

    /// At its server.
    pub(crate) fn at_server(
        trail: &Trail,
        judging: Judging,
        found: Option<Result<Meaning, Refusal>>,
    ) -> Option<Self>
        ensures found { found_in result ≡ option_map (λ it. Found.AtEnd it) found }
        ensures is { (x : Transfer) (named : List ℕ) (carried : List Carried) → IsTrailOf trail.now judging x named carried
            → is_some found ≡ (points_of judging x).server
            → IfSome found (IsFoundBy (rollover_of judging) (server_header x) (server_capture host_name x (whole_of named carried) (whole_of named carried)))
            → IfSome result (IsViewBy (rollover_of judging) PointKind.Server x named carried) }
    {
        match found {
            Some(found) => {
                let blamed = trail.at_server(&found);
                let (found, rollover) = (Found::AtEnd(found), judging.rollover());
                Some(Viewed {
                    found,
                    blamed,
                    rollover,
                })
            }
            None => None,
        }
    }

    /// Between its ends.
    pub(crate) fn between(
        trail: &Trail,
        judging: Judging,
        found: Option<Result<Meaning, TapRefusal>>,
    ) -> Option<Self>
        ensures found { found_in result ≡ option_map (λ it. Found.Between it) found }
        ensures is { (x : Transfer) (named : List ℕ) (carried : List Carried) → IsTrailOf trail.now judging x named carried
            → IsTrailBetween trail.now judging x named carried → is_some found ≡ (points_of judging x).between
            → AreApart (sides_of x (whole_of named carried))
            → IfSome found (IsBetweenFoundBy (rollover_of judging) (sides_of x (whole_of named carried)) (between_capture x (whole_of named carried)))
            → IfSome result (IsViewBy (rollover_of judging) PointKind.Between x named carried) }
    {
        match found {
            Some(found) => {
                let blamed = trail.between(&found);
                let (found, rollover) = (Found::Between(found), judging.rollover());
                Some(Viewed {
                    found,
                    blamed,
                    rollover,
                })
            }
            None => None,
        }
    }

    /// What is said there.
    pub fn said(&self) -> Said
        ensures { result ≡ said_in self.now }
    {
        self.found.said(self.blamed_frame())
    }

    fn blamed_frame(&self) -> Option<u64>
        ensures { result ≡ option_map (λ b. b.frame) self.now.blamed }
    {
        match &self.blamed {
            Some(blamed) => Some(blamed.frame),
            None => None,
        }
    }

    /// The frame of the datagram that is refused.
    pub fn frame(&self) -> Option<u64>
        ensures { result ≡ refused_frame (said_in self.now) }
    {
        self.said().refused_frame()
    }

    /// 0 where it is accepted, 2 where memory ran out, else 1.
    pub fn status(&self) -> u8
        ensures { result ≡ status_of (said_in self.now) }
    {
        self.said().status()
    }
}
