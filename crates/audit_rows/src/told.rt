//! What is said of a transfer in one row.

ghost use Rattle.std.specs.Prelude.{◌≡◌, ◌↔◌, IsTrue};
ghost use Rattle.audit_rows.specs.Doubting.{goes_over, is_clients_own, is_spoken_first, is_unseen, may_be_between};
ghost use Rattle.audit_rows.specs.Viewing.{IsStanding, IsStandingAlone, IsStandingAs, IsSureAt, IsSureUnnamed, where_asked_once};

use crate::found::Found;
use crate::viewed::Viewed;
use audit_flows::lines::Transfer;
use audit_recording::blame::{Blamed, Named, Trail};
use audit_recording::rows::{Place, Point, Telling};
use judge_tap::TapRefusal;
use law_end::Rule;
use law_model::rules::EndRule;
use law_tap::{stands_at_end, stands_of_its_own};
use tftp_judge::Refusal;

/// What is said of a transfer in one row.
#[derive(Clone, Copy)]
pub struct Told<'a> {
    /// Where it was recorded.
    pub place: Place,
    /// The verdict there.
    pub view: &'a Viewed,
    /// What is said there and between the ends.
    pub telling: Telling,
}

impl Told<'_> {
    /// Whether a request may have passed elsewhere that explains what is refused: between the ends alone, or where it is not
    /// known whether the recording was made there.
    pub(crate) fn is_unseen(&self, blamed: &Blamed) -> bool
        ensures { result ≡ is_unseen self.now.telling blamed.now }
    {
        let is_between = matches!(self.telling.point, Point::Between);
        let may_be_asked = is_between && self.telling.said.may_be_asked();
        let may_be_between = self.telling.between.is_some() || is_between;
        may_be_asked || (may_be_between && blamed.follows_unknown_id)
    }

    /// Whether, at the server, its client sent the datagram to where it had heard nothing from.
    pub(crate) fn is_spoken_first(&self, blamed: &Blamed) -> bool
        ensures { result ≡ is_spoken_first self.now.telling blamed.now }
    {
        matches!(self.telling.point, Point::Server) && blamed.speaks_first
    }

    /// Whether it may come of an earlier transfer between the same two: what a client sends itself is not late there, if it was
    /// recorded there.
    pub(crate) fn goes_over(&self, transfer: &Transfer, blamed: &Blamed) -> bool
        ensures { result ≡ goes_over transfer.now self.now.telling blamed.now }
    {
        !self.is_clients_own(transfer, blamed) && blamed.comes_of_earlier
    }

    /// Whether the client sent it, and the recording was made there for sure.
    fn is_clients_own(&self, transfer: &Transfer, blamed: &Blamed) -> bool
        ensures { result ≡ is_clients_own transfer.now self.now.telling blamed.now }
    {
        let is_at_client = matches!(self.telling.point, Point::Client)
            && self.telling.between.is_none();
        is_at_client && blamed.source == transfer.client
    }

    /// Of what is refused, whether that stands whatever datagrams of the transfer were missed; nothing where that is not known, and
    /// where block numbers begin again.
    pub(crate) fn stands(&self, trail: &Trail, has_asked_more: bool) -> Option<bool>
        ensures { IsStanding self.now.telling.point trail.now.transfer has_asked_more trail.now.options self.now.view.now result }
    {
        match self.view.rollover {
            Some(_) => None,
            None => self.stands_in_one_round(trail, has_asked_more),
        }
    }

    /// The same where block numbers do not begin again. Where its client has asked more than once, datagrams of another transfer may
    /// count as this one's: then it is not said to stand.
    fn stands_in_one_round(&self, trail: &Trail, has_asked_more: bool) -> Option<bool>
        ensures { IsStandingAs self.now.telling.point trail.now.transfer has_asked_more trail.now.options self.now.view.now.blamed self.now.view.now.found result }
    {
        where_asked_once(has_asked_more, self.stands_alone(trail))
    }

    /// Whether it stands by the transfer's own datagrams alone, whatever others were missed; nothing where that is not known.
    fn stands_alone(&self, trail: &Trail) -> Option<bool>
        ensures { IsStandingAlone self.now.telling.point trail.now.transfer trail.now.options self.now.view.now.blamed self.now.view.now.found result }
    {
        match &self.view.found {
            Found::Between(Err(TapRefusal::Unlawful(_, _, stands))) => *stands,
            Found::AtEnd(Err(Refusal::Unlawful(_, rule))) => {
                if self.is_sure(trail, *rule) {
                    Some(true)
                } else {
                    None
                }
            }
            _ => None,
        }
    }

    /// Whether a refusal by this rule at an end is certain, whatever datagrams were missed.
    fn is_sure(&self, trail: &Trail, rule: Rule) -> bool
        ensures { IsTrue result ↔ IsSureAt self.now.telling.point trail.now.transfer trail.now.options self.now.view.now.blamed rule }
    {
        let is_unnamed = is_sure_unnamed(trail.options, rule);
        match (self.telling.point, &self.view.blamed) {
            (Point::Server, _) => stands_at_end(rule) || is_unnamed,
            (Point::Client, Some(blamed)) => {
                let is_own = blamed.source == trail.transfer.client;
                (blamed.has_gone_on && (stands_at_end(rule) || is_unnamed))
                    || (is_own && (stands_of_its_own(rule) || is_unnamed))
            }
            _ => false,
        }
    }
}

/// What is said of what stands alone or does not, by whether the client has asked more than once.
fn where_asked_once(has_asked_more: bool, alone: Option<bool>) -> Option<bool>
    ensures { result ≡ where_asked_once has_asked_more alone }
{
    match alone {
        Some(stands) => {
            if stands && has_asked_more {
                None
            } else {
                Some(stands)
            }
        }
        None => None,
    }
}

/// Whether what breaks this rule depends on an option alone that no datagram of the transfer names (RFC 2348; RFC 7440, section 4).
fn is_sure_unnamed(options: Named, rule: Rule) -> bool
    ensures { IsTrue result ↔ IsSureUnnamed options rule }
{
    match rule {
        Rule::Block(EndRule::GoneBack) => !options.windows,
        Rule::Block(EndRule::BlockLength | EndRule::BeyondBlock65535) => !options.sizes,
        _ => false,
    }
}
