//! What is kept of a transfer to tell how it ended.

ghost use Rattle.std.specs.Prelude.{◌≡◌, ◌∷◌, ℕ, List, [], OnOk, option_map};
ghost use Rattle.std.specs.BTreeMap.{get};
ghost use Rattle.audit_flows.specs.Lines.{endpoint_cmp};
ghost use Rattle.audit_flows.specs.{Endpoint as EndpointValue, Transfer};
ghost use Rattle.audit_flows.specs.Transfers.{AreEndsAfter};
ghost use Rattle.audit_recording.specs.Blame.Frames.{Carried, Framed, framed_after, view_of, whole_of};
ghost use Rattle.audit_recording.specs.Blame.Kept.{IsPassing};
ghost use Rattle.audit_recording.specs.declared.rows.row.Point.TheVariants.{Client};
ghost use Rattle.audit_recording.specs.Endings.Told.{first_stop, is_to_stranger, last_word, sent_of, stop_in};
ghost use Rattle.audit_recording.specs.Endings.Kept.{IsClosingOf};
ghost use Rattle.audit_recording.specs.Endings.Pace.{IsPaceOf};

use crate::blame::pace::Pace;
use crate::blame::passing::Passing;
use crate::blame::stop::{Stop, error_in, sender_at};
use audit_flows::lines::{Endpoint, Place, Transfer};
use audit_flows::transfers::TransferEnds;
use std::alloc::{AllocError, Global};
use std::collections::BTreeMap;
use tftp_packet::End;

/// "Unknown transfer ID" (RFC 1350, section 5).
const UNKNOWN_ID: u16 = 5;

/// What tells how a transfer ended, as far as it was read at its client.
#[derive(Drop)]
pub struct Closing {
    alloc: Global,
    /// The first ERROR between the client and each other endpoint.
    stops: BTreeMap<Endpoint, Stop>,
    /// The last datagram that passed at both ends; none before any.
    pub last: Option<Word>,
    /// How these passed in time.
    pub pace: Pace,
}

/// A datagram that one end of a transfer sent.
#[derive(Clone, Copy)]
pub struct Word {
    /// Who sent it.
    pub role: End,
    /// Its frame, from 1.
    pub frame: u64,
    /// In nanoseconds since 1970, where the recording tells it.
    pub time: Option<u64>,
}

impl Closing {
    /// Before any datagram.
    pub fn new(alloc: Global) -> Self
        ensures { (x : Transfer) → IsClosingOf result x [] }
    {
        Closing {
            alloc,
            stops: BTreeMap::new(alloc),
            last: None,
            pace: Pace::new(),
        }
    }

    /// Notes a datagram, if it is the transfer's at its client. Its ends are known by this one too. After an error, which is want of memory, it
    /// stands for nothing.
    pub fn note(
        &mut self,
        transfer: &Transfer,
        ends: &TransferEnds,
        place: &Place,
        passing: &Passing<'_>,
    ) -> Result<(), AllocError>
        ensures { (named : List ℕ) (c : Carried) (carried : List Carried)
            → IsClosingOf self.old transfer.now (view_of Client transfer.now.number named carried) → IsPassing passing.now c
            → place.now ≡ (framed_after named carried c).placed.place
            → AreEndsAfter ends.now (whole_of named (c ∷ carried)) → ends.now.number ≡ transfer.now.number
            → OnOk result (IsClosingOf self.new transfer.now (view_of Client transfer.now.number named (c ∷ carried))) }
    {
        if !place.is_of(transfer.number) {
            return Ok(());
        }
        self.note_own(transfer, ends, place, passing)
    }

    /// Notes a datagram at the client.
    fn note_own(
        &mut self,
        transfer: &Transfer,
        ends: &TransferEnds,
        place: &Place,
        passing: &Passing<'_>,
    ) -> Result<(), AllocError>
        ensures { (f : Framed) (view : List Framed) → IsClosingOf self.old transfer.now view → IsPassing passing.now f.carried
            → f.placed.datagram ≡ f.carried.datagram → place.now ≡ f.placed.place
            → AreEndsAfter ends.now (f.placed ∷ f.before) → ends.now.number ≡ transfer.now.number
            → OnOk result (IsClosingOf self.new transfer.now (f ∷ view)) }
    {
        self.note_word(transfer, ends, place, passing);
        self.note_stop(transfer, ends, passing)
    }

    /// Notes a datagram, if it is its server's too by now.
    fn note_word(
        &mut self,
        transfer: &Transfer,
        ends: &TransferEnds,
        place: &Place,
        passing: &Passing<'_>,
    )
        ensures last { (f : Framed) (view : List Framed) → self.old.last ≡ last_word transfer.now view → IsPassing passing.now f.carried
            → f.placed.datagram ≡ f.carried.datagram → place.now ≡ f.placed.place
            → AreEndsAfter ends.now (f.placed ∷ f.before) → ends.now.number ≡ transfer.now.number
            → self.new.last ≡ last_word transfer.now (f ∷ view) }
        ensures pace { (f : Framed) (view : List Framed) → IsPaceOf self.old.pace transfer.now view → self.old.last ≡ last_word transfer.now view
            → IsPassing passing.now f.carried → f.placed.datagram ≡ f.carried.datagram → place.now ≡ f.placed.place
            → AreEndsAfter ends.now (f.placed ∷ f.before) → ends.now.number ≡ transfer.now.number
            → IsPaceOf self.new.pace transfer.now (f ∷ view) }
        ensures stops { self.new.stops ≡ self.old.stops }
    {
        if ends.is_at_server(place, passing.source, passing.target) {
            let role = sender_at(transfer, passing.source);
            self.pace.note(role, passing, self.last);
            self.last = Some(Word {
                role,
                frame: passing.frame,
                time: passing.time,
            });
        }
    }

    /// Notes a datagram, if it is the first ERROR between its two ends.
    fn note_stop(
        &mut self,
        transfer: &Transfer,
        ends: &TransferEnds,
        passing: &Passing<'_>,
    ) -> Result<(), AllocError>
        ensures stops { (f : Framed) (view : List Framed)
            → ((s : EndpointValue) → option_map sent_of (get endpoint_cmp self.old.stops s) ≡ first_stop transfer.now s view)
            → IsPassing passing.now f.carried → f.placed.datagram ≡ f.carried.datagram
            → AreEndsAfter ends.now (f.placed ∷ f.before) → ends.now.number ≡ transfer.now.number
            → OnOk result ((s : EndpointValue) → option_map sent_of (get endpoint_cmp self.new.stops s) ≡ first_stop transfer.now s (f ∷ view)) }
        ensures last { self.new.last ≡ self.old.last }
        ensures pace { self.new.pace ≡ self.old.pace }
    {
        let Some((code, text)) = stop_in(transfer, ends, passing) else {
            return Ok(());
        };
        let peer = transfer.peer(passing.source, passing.target);
        if self.stops.contains_key(&peer) {
            return Ok(());
        }
        let stop = Stop {
            role: sender_at(transfer, passing.source),
            frame: passing.frame,
            code,
            message: Vec::from_slice(self.alloc, text)?,
        };
        self.stops.insert(peer, stop)?;
        Ok(())
    }

    /// The first ERROR between the client and this endpoint.
    pub fn stop_with(&self, end: Endpoint) -> Option<&Stop>
        ensures { (x : Transfer) (view : List Framed) → IsClosingOf self.now x view
            → option_map (λ s. sent_of s.now) result ≡ first_stop x end view }
    {
        self.stops.get(&end)
    }
}

/// The code and the message of the ERROR that it is, if it may end the transfer.
fn stop_in<'a>(
    transfer: &Transfer,
    ends: &TransferEnds,
    passing: &Passing<'a>,
) -> Option<(u16, &'a [u8])>
    ensures { (f : Framed) → IsPassing passing.now f.carried → f.placed.datagram ≡ f.carried.datagram
        → AreEndsAfter ends.now (f.placed ∷ f.before) → ends.now.number ≡ transfer.now.number
        → option_map (λ e. (e.0, e.1.now)) result ≡ stop_in transfer.now f }
{
    let (code, text) = error_in(passing.payload)?;
    if code == UNKNOWN_ID && is_to_stranger(transfer, ends, passing.source) {
        return None;
    }
    Some((code, text))
}

/// Whether its client sends it, and has not gone on with anybody.
fn is_to_stranger(transfer: &Transfer, ends: &TransferEnds, source: Endpoint) -> bool
    ensures { (f : Framed) → f.placed.datagram.source ≡ source → AreEndsAfter ends.now (f.placed ∷ f.before)
        → ends.now.number ≡ transfer.now.number → result ≡ is_to_stranger transfer.now f }
{
    source == transfer.client && !ends.is_settled()
}
