//! At which frames a transfer was refused, at each point where it is judged.

ghost use Rattle.std.specs.Prelude.{◌≡◌, ◌∷◌, [], List, Option, OnOk, Some, filter, is_some, map, option_copied, true};
ghost use Rattle.tftp_packet.specs.{Rollover};
ghost use Rattle.audit_flows.specs.Lines.{Placed};
ghost use Rattle.audit_flows.specs.{Transfer};
ghost use Rattle.audit_flows.specs.Transfers.{AreEndsAfter};
ghost use Rattle.audit_recording.specs.Blame.Frames.{Framed};
ghost use Rattle.audit_recording.specs.Blame.Kept.{AreFactsOf, IsBlameBetween, IsBlameOf, is_about_it, passed_of};
ghost use Rattle.audit_recording.specs.Judges.Kept.{BetweenStands, ClientStands, IsWatching, ServerStands};
ghost use Rattle.audit_recording.specs.declared.judges.judging.Judging.{Judging as JudgingKind};
ghost use Rattle.audit_recording.specs.declared.rows.row.Point.{Point as PointKind};
ghost use Rattle.audit_views.specs.Parties.{host_name};

use crate::between::BetweenView;
use crate::blame::facts::ViewFacts;
use crate::blame::passed::Passed;
use crate::blame::told::{told_between, told_by_client, told_by_server};
use crate::judges::Watched;
use crate::rows::Point;
use audit_flows::lines::Endpoint;
use audit_flows::transfers::TransferEnds;
use audit_views::views::{ClientJudge, ServerView};
use std::alloc::{AllocError, Global};
use tftp_ends::blocks::RingDelivered;

/// Where a transfer was refused.
#[derive(Clone, Copy)]
pub struct Blamed {
    /// The frame.
    pub frame: u64,
    /// Whether the client had asked for another transfer by then.
    pub is_late: bool,
    /// Whether it passed with another than the client.
    pub is_beside: bool,
    /// Whether something had come to the client by then.
    pub is_answered: bool,
    /// Whether the client had gone on with its server by then: it had sent something that is neither a request nor an ERROR 5.
    pub has_gone_on: bool,
    /// Whether its client sent it to where nothing had passed between the two.
    pub speaks_first: bool,
    /// Whether its client had spoken by then before anything came to it.
    pub says_first_word: bool,
    /// Whether an ERROR 5 had passed between its two ends.
    pub follows_unknown_id: bool,
    /// Whether it is an ERROR 5, "Unknown transfer ID" (RFC 1350, section 5), or an ERROR after one.
    pub tells_strays: bool,
    /// Whether it may be late from an earlier transfer between the same two, or rest on an OACK that may be.
    pub comes_of_earlier: bool,
    /// Where the datagram came from.
    pub source: Endpoint,
}

/// The facts of a transfer's datagrams at each point where it is judged, as far as they may be refused there.
#[derive(Drop)]
pub struct Blame {
    /// Of its client's view.
    pub at_client: ViewFacts,
    /// Of its server's view.
    pub at_server: ViewFacts,
    /// Of what passed between its ends.
    pub between: ViewFacts,
}

impl Blame {
    /// Before any datagram of the transfer.
    pub fn new(alloc: Global) -> Self
        ensures ends { (judging : JudgingKind) (x : Transfer) (whole : List Placed) (frames : List Framed) → filter (is_about_it x.number) frames ≡ []
            → IsBlameOf result judging x whole frames }
        ensures between { (judging : JudgingKind) (x : Transfer) (whole : List Placed) (frames : List Framed) → filter (is_about_it x.number) frames ≡ []
            → IsBlameBetween result judging x whole frames }
    {
        Blame {
            at_client: ViewFacts::new(alloc),
            at_server: ViewFacts::new(alloc),
            between: ViewFacts::new(alloc),
        }
    }

    /// Takes the next datagram about the transfer, which its judges have been given; these ends are known by then.
    pub fn take(
        &mut self,
        ends: &TransferEnds,
        passed: Passed,
        watched: &Watched<RingDelivered>,
    ) -> Result<(), AllocError>
        ensures ends { (judging : JudgingKind) (x : Transfer) (f : Framed) (whole : List Placed) (frames : List Framed) → IsBlameOf self.old judging x whole frames
            → passed ≡ passed_of x f → is_about_it x.number f ≡ true
            → ends.now.number ≡ x.number → AreEndsAfter ends.now (f.placed ∷ whole) → map (λ g. g.placed) frames ≡ whole
            → IsWatching watched.now judging x host_name (f.placed ∷ whole)
            → OnOk result (IsBlameOf self.new judging x (f.placed ∷ whole) (f ∷ frames)) }
        ensures between { (judging : JudgingKind) (x : Transfer) (f : Framed) (whole : List Placed) (frames : List Framed) → IsBlameBetween self.old judging x whole frames
            → passed ≡ passed_of x f → is_about_it x.number f ≡ true
            → ends.now.number ≡ x.number → AreEndsAfter ends.now (f.placed ∷ whole) → map (λ g. g.placed) frames ≡ whole
            → IsWatching watched.now judging x host_name (f.placed ∷ whole)
            → OnOk result (IsBlameBetween self.new judging x (f.placed ∷ whole) (f ∷ frames)) }
    {
        take_client(&mut self.at_client, ends, passed, watched.client())?;
        take_server(&mut self.at_server, ends, passed, watched.server())?;
        take_between(&mut self.between, ends, passed, watched.between())?;
        Ok(())
    }
}

/// Takes a datagram where the transfer is judged at its client.
fn take_client(
    facts: &mut ViewFacts,
    ends: &TransferEnds,
    passed: Passed,
    judge: Option<&ClientJudge<RingDelivered>>,
) -> Result<(), AllocError>
    ensures { (rollover : Option Rollover) (x : Transfer) (f : Framed) (whole : List Placed) (frames : List Framed) → is_some (option_copied judge.entry) ≡ true → AreFactsOf rollover facts.old PointKind.Client x whole frames
        → passed ≡ passed_of x f → is_about_it x.number f ≡ true
        → ends.now.number ≡ x.number → AreEndsAfter ends.now (f.placed ∷ whole) → map (λ g. g.placed) frames ≡ whole
        → ClientStands rollover (option_copied judge.entry) x host_name (f.placed ∷ whole)
        → OnOk result (AreFactsOf rollover facts.new PointKind.Client x (f.placed ∷ whole) (f ∷ frames)) }
{
    match judge {
        Some(judge) => facts.take(Point::Client, ends, passed, told_by_client(judge)),
        None => Ok(()),
    }
}

/// Takes a datagram where the transfer is judged at its server.
fn take_server(
    facts: &mut ViewFacts,
    ends: &TransferEnds,
    passed: Passed,
    judge: Option<&ServerView<RingDelivered>>,
) -> Result<(), AllocError>
    ensures { (rollover : Option Rollover) (x : Transfer) (f : Framed) (whole : List Placed) (frames : List Framed) → is_some (option_copied judge.entry) ≡ true → AreFactsOf rollover facts.old PointKind.Server x whole frames
        → passed ≡ passed_of x f → is_about_it x.number f ≡ true
        → ends.now.number ≡ x.number → AreEndsAfter ends.now (f.placed ∷ whole) → map (λ g. g.placed) frames ≡ whole
        → ServerStands rollover (option_copied judge.entry) x host_name (f.placed ∷ whole)
        → OnOk result (AreFactsOf rollover facts.new PointKind.Server x (f.placed ∷ whole) (f ∷ frames)) }
{
    match judge {
        Some(judge) => facts.take(Point::Server, ends, passed, told_by_server(judge, ends)),
        None => Ok(()),
    }
}

/// Takes a datagram where the transfer is judged between its ends.
fn take_between(
    facts: &mut ViewFacts,
    ends: &TransferEnds,
    passed: Passed,
    judge: Option<&BetweenView<RingDelivered>>,
) -> Result<(), AllocError>
    ensures { (rollover : Option Rollover) (x : Transfer) (f : Framed) (whole : List Placed) (frames : List Framed) → is_some (option_copied judge.entry) ≡ true → AreFactsOf rollover facts.old PointKind.Between x whole frames
        → passed ≡ passed_of x f → is_about_it x.number f ≡ true
        → ends.now.number ≡ x.number → AreEndsAfter ends.now (f.placed ∷ whole) → map (λ g. g.placed) frames ≡ whole
        → BetweenStands rollover (option_copied judge.entry) x host_name (f.placed ∷ whole)
        → OnOk result (AreFactsOf rollover facts.new PointKind.Between x (f.placed ∷ whole) (f ∷ frames)) }
{
    match judge {
        Some(judge) => facts.take(Point::Between, ends, passed, told_between(judge, ends)),
        None => Ok(()),
    }
}
