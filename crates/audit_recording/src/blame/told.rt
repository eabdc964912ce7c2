//! What the judges tell of the datagrams that they were given by now.

ghost use Rattle.std.specs.Prelude.{◌≡◌, List, Option};
ghost use Rattle.audit_flows.specs.Lines.{Placed};
ghost use Rattle.audit_flows.specs.{Transfer};
ghost use Rattle.audit_flows.specs.Transfers.{AreEndsAfter};
ghost use Rattle.audit_recording.specs.Between.{IsBetweenAfterBy};
ghost use Rattle.audit_recording.specs.Blame.Facts.{refused_between, refused_in};
ghost use Rattle.audit_recording.specs.Blame.Kept.{IsTold};
ghost use Rattle.audit_recording.specs.declared.rows.row.Point.{Point};
ghost use Rattle.audit_views.specs.Parties.{host_name};
ghost use Rattle.audit_views.specs.Views.{IsClientAfterBy, IsViewAfterBy};
ghost use Rattle.tftp_packet.specs.{Rollover};

use crate::between::BetweenView;
use audit_flows::transfers::TransferEnds;
use audit_views::views::{ClientJudge, ServerView};
use judge_tap::TapRefusal;
use tftp_ends::blocks::RingDelivered;
use tftp_judge::{Meaning, Refusal};

/// What a judge tells of the datagrams of its view.
#[derive(Clone, Copy)]
pub enum Told {
    /// Nothing: it holds them till it is known who the server is, or memory ran out for one.
    Nothing,
    /// It has accepted so many: all of them.
    Accepted(u64),
    /// It has refused the one with this number, from 1.
    Refused(u64),
}

/// What the judge at the client tells.
pub fn told_by_client(judge: &ClientJudge<RingDelivered>) -> Told
    ensures { (rollover : Option Rollover) (x : Transfer) (whole : List Placed) → judge.now.transfer ≡ x → IsClientAfterBy rollover judge.now host_name whole
        → IsTold rollover Point.Client x whole result }
{
    match judge.refused() {
        None => Told::Accepted(judge.fed()),
        Some(Refusal::Unlawful(number, _)) => Told::Refused(number),
        Some(_) => Told::Nothing,
    }
}

/// What the judge at the server tells; these ends of the transfer are known by now.
pub fn told_by_server(judge: &ServerView<RingDelivered>, ends: &TransferEnds) -> Told
    ensures { (rollover : Option Rollover) (x : Transfer) (whole : List Placed) → judge.now.transfer ≡ x → ends.now.number ≡ x.number → AreEndsAfter ends.now whole
        → IsViewAfterBy rollover judge.now host_name whole → IsTold rollover Point.Server x whole result }
{
    if !ends.is_settled() {
        return Told::Nothing;
    }
    match judge.refused() {
        None => Told::Accepted(judge.fed()),
        Some(Refusal::Unlawful(number, _)) => Told::Refused(number),
        Some(_) => Told::Nothing,
    }
}

/// What the judge between the ends tells; these are known by now.
pub fn told_between(judge: &BetweenView<RingDelivered>, ends: &TransferEnds) -> Told
    ensures { (rollover : Option Rollover) (x : Transfer) (whole : List Placed) → judge.now.transfer ≡ x → ends.now.number ≡ x.number → AreEndsAfter ends.now whole
        → IsBetweenAfterBy rollover judge.now whole → IsTold rollover Point.Between x whole result }
{
    if !ends.is_settled() {
        return Told::Nothing;
    }
    match judge.refused() {
        None => Told::Accepted(judge.fed()),
        Some(TapRefusal::Unlawful(number, _, _)) => Told::Refused(number),
        Some(_) => Told::Nothing,
    }
}

/// The number of the datagram that a verdict at an end refuses, if it refuses one.
pub fn refused_in(verdict: &Result<Meaning, Refusal>) -> Option<u64>
    ensures { result ≡ refused_in verdict.now }
{
    match verdict {
        Ok(_) => None,
        Err(Refusal::Unlawful(number, _)) => Some(*number),
        Err(Refusal::Aborted(_, _)) => None,
        Err(Refusal::Incomplete(_)) => None,
        Err(Refusal::NormalTooLong) => None,
        Err(Refusal::Memory(_)) => None,
    }
}

/// The number of the datagram that a verdict between the ends refuses, if it refuses one.
pub fn refused_between(verdict: &Result<Meaning, TapRefusal>) -> Option<u64>
    ensures { result ≡ refused_between verdict.now }
{
    match verdict {
        Ok(_) => None,
        Err(TapRefusal::Unlawful(number, _, _)) => Some(*number),
        Err(TapRefusal::Aborted(_, _)) => None,
        Err(TapRefusal::Incomplete(_)) => None,
        Err(TapRefusal::NormalTooLong) => None,
        Err(TapRefusal::Memory(_)) => None,
    }
}
