ghost use Rattle.std.specs.Prelude.{◌≡◌, ◌≢◌, ◌+◌, ◌^◌, ◌<◌, ◌≤◌, List, [], ◌∷◌, length, true, IfErr, IfOk, OnOk, Err};
ghost use Rattle.tftp_packet.specs.{Message, meaning, Spells};
ghost use Rattle.law_model.specs.Model.Roles.{receiver_of};
ghost use Rattle.tftp_judge.specs.{Finds};
ghost use Rattle.law_end.specs.{Passes, IsFirstError};
ghost use Rattle.law_tap.specs.{TapDatagram, TapSides, side_of, AreApart, is_passing, tap_route, transfer_between, BreaksNoTapRule, IsHighBetween, header_at, recorded_at};
ghost use Rattle.judge_tap.specs.TapFinds.{IsReadOf};
ghost use Rattle.judge_tap.specs.TapKept.{IsErrorAtTap, IsTapTransfer};
ghost use Rattle.judge_tap.specs.TapSeen.{AreNotes};
ghost use Rattle.judge_tap.specs.TapStops.{IsReadUnless, IsRecorded, IsRecordedFor, TakesInTransfer, TransferBreaks};
ghost use Rattle.judge_tap.specs.TapVerdict.{IsTapVerdict, said_at_tap, unfinished_by};
ghost use Rattle.tftp_judge.specs.declared.pass_error.PassError.{PassError as PassErrorKind};

use crate::notes::TapNotes;
use crate::pass_error::first_of;
use crate::receiving::Receiving;
use crate::refusal::TapRefusal;
use law_end::Rule;
use std::alloc::Global;
use std::marker::Model;
use tftp_capture::Datagram;
use tftp_ends::blocks::Delivered;
use tftp_judge::{Meaning, PassError, Refusal};
use tftp_packet::rounds::Rollover;
use tftp_packet::{End, Packet, PacketFault, Request, Side};

/// A transfer between its ends from its first request on: what was asked for, what the end that gets the file would make of it,
/// what had passed, and whose ERROR came first.
pub struct TapTransfer<D: Delivered + Drop> {
    asked: Request,
    receiving: Receiving<D>,
    notes: TapNotes,
    first_error: Option<(End, u16)>,
    /// The highest block of a DATA that has passed, or 0.
    highest: u32,
}

impl<D: Delivered + Drop> Drop for TapTransfer<D> {
    // written out, since the prover takes a derived one apart again wherever a value is let go
    fn drop(self) {
        let TapTransfer {
            asked: _,
            receiving: _,
            notes: _,
            first_error: _,
            highest: _,
        } = self;
    }
}

impl<D: Delivered + Drop> Model for TapTransfer<D> {
    ghost use Rattle.std.specs.Coded.{codes};
    ghost use Rattle.tftp_ends.specs.StatesKept.{sender_code, receiver_code};
    ghost use Rattle.tftp_packet.specs.Owned.{options_code, parts_code};
    ghost use Rattle.judge_tap.specs.TapKept.{TapTransfer};

    ghost Value = { TapTransfer };

    ghost coded = { Prim.hlevel (codes, sender_code, receiver_code, options_code, parts_code) };

    ghost view = { λ t. record {
      asked = t.asked;
      receiving = t.receiving;
      notes = t.notes;
      first_error = t.first_error;
      highest = t.highest;
    } };
}

impl<D: Delivered + Drop> TapTransfer<D> {
    /// The transfer that the client's first request begins, which asks for this, and of which this is noted.
    pub fn begin(
        alloc: Global,
        asked: Request,
        notes: TapNotes,
        service: u16,
        rollover: Option<Rollover>,
        request: &Datagram,
    ) -> Result<Self, PassError>
        requires short { length request.now.payload ≤ 65527 }
        ensures ok { (s : TapSides) (d : TapDatagram) → AreApart s → service ≡ s.asked.port → rollover ≡ s.rollover → d.source ≡ s.client
            → Spells d.payload (Message.Request asked) → AreNotes notes s (d ∷ []) → IsRecorded s (receiver_of asked.side) d request.now
            → Passes (header_at s asked.side) [] (recorded_at s (receiver_of asked.side) d) → IfOk result (λ transfer. IsTapTransfer transfer s (d ∷ [])) }
        ensures err { (s : TapSides) (d : TapDatagram) → service ≡ s.asked.port → rollover ≡ s.rollover → IsRecorded s (receiver_of asked.side) d request.now
            → Passes (header_at s asked.side) [] (recorded_at s (receiver_of asked.side) d) → IfErr result (λ stop. stop ≡ PassErrorKind.Memory) }
        ensures fed { IfOk result (λ transfer. transfer.receiving.judge.fed ≡ 1) }
    {
        let end = receiver_of_file(asked.side());
        let receiving = Receiving::begin(alloc, end, service, rollover, request)?;
        Ok(TapTransfer {
            asked,
            receiving,
            notes,
            first_error: None,
            highest: 0,
        })
    }

    /// What the client's first request asks for (RFC 1350, section 4).
    #[inline]
    pub fn asked(&self) -> &Request
        ensures { result.now ≡ self.now.asked }
    {
        &self.asked
    }

    /// What is noted of it.
    #[inline]
    pub fn notes(&self) -> &TapNotes
        ensures { result.now ≡ self.now.notes }
    {
        &self.notes
    }

    /// The highest block of a DATA that has passed, or 0.
    #[inline]
    pub fn highest(&self) -> u32
        ensures { result ≡ self.now.highest }
    {
        self.highest
    }

    /// The end that gets the file.
    #[inline]
    pub fn receiver(&self) -> End
        ensures { (s : TapSides) (passed : List TapDatagram) → IsTapTransfer self.now s passed → result ≡ receiver_of self.now.asked.side }
    {
        self.receiving.end()
    }

    /// What the next datagram breaks, which comes from this end of the transfer and says what was read; where it breaks no rule it is
    /// kept. The datagram is as the end that gets the file would have recorded it, by number where there is a rollover.
    pub fn pass(
        &mut self,
        alloc: Global,
        rollover: Option<Rollover>,
        from: End,
        datagram: &Datagram,
        read: &Result<Packet<'_>, PacketFault>,
    ) -> Result<(), PassError>
        requires few { self.old.receiving.judge.fed < 2 ^ 40 }
        requires short { length datagram.now.payload ≤ 65527 }
        ensures finds { (s : TapSides) (earlier : List TapDatagram) (d : TapDatagram) → AreApart s → BreaksNoTapRule s earlier
            → IsTapTransfer self.old s (transfer_between s earlier) → d.source ≡ side_of s from → is_passing (tap_route s earlier d) ≡ true
            → IsRecordedFor rollover s self.old.asked.side (transfer_between s earlier) d datagram.now → IsReadOf d.payload read.now
            → Finds (TransferBreaks s (transfer_between s earlier) (tap_route s earlier d) d) (IsTapTransfer self.new s (d ∷ transfer_between s earlier)) result }
        ensures memory { (s : TapSides) (passed : List TapDatagram) (d : TapDatagram) → IsTapTransfer self.old s passed
            → d.source ≡ side_of s from → IsRecordedFor rollover s self.old.asked.side passed d datagram.now → IsReadOf d.payload read.now
            → result ≡ Err PassErrorKind.Memory → TakesInTransfer s passed d }
        ensures read { (s : TapSides) (passed : List TapDatagram) (d : TapDatagram) → AreApart s → IsTapTransfer self.old s passed
            → d.source ≡ side_of s from → IsReadOf d.payload read.now → IsReadUnless result d.payload }
        ensures fed { OnOk result (self.new.receiving.judge.fed ≤ self.old.receiving.judge.fed + 1) }
        ensures asked { self.new.asked ≡ self.old.asked }
        ensures stays { IfErr result (λ stop. stop ≢ PassErrorKind.Memory → self.new.notes ≡ self.old.notes) }
    {
        let own = self.notes.breaks(&self.asked, from, read);
        first_of(own, self.receiving.pass(alloc, rollover, from, datagram))?;
        match read {
            Ok(packet) => {
                self.notes.note(alloc, from, packet)?;
                keep_first_error(&mut self.first_error, from, packet);
                self.highest = higher(self.highest, packet);
                Ok(())
            }
            Err(fault) => Err(PassError::Broken(Rule::Malformed(*fault))),
        }
    }

    /// What the transfer means, or why it is none that is whole, after so many datagrams.
    pub fn finish(self, alloc: Global, count: u64) -> Result<Meaning, TapRefusal>
        ensures { (s : TapSides) (earlier : List TapDatagram) → AreApart s → BreaksNoTapRule s earlier
            → IsTapTransfer self s (transfer_between s earlier) → count ≡ length earlier → IsTapVerdict s earlier result }
    {
        let TapTransfer {
            receiving,
            first_error,
            asked: _,
            notes: _,
            highest: _,
        } = self;
        said_of(receiving.finish(alloc), first_error, count)
    }
}

/// The end that gets the file (RFC 1350, section 1).
pub fn receiver_of_file(side: Side) -> End
    ensures { result ≡ receiver_of side }
{
    match side {
        Side::Get => End::Client,
        Side::Put => End::Server,
    }
}

/// Keeps whose ERROR this is and its code, where it is the first one.
fn keep_first_error(first: &mut Option<(End, u16)>, from: End, packet: &Packet<'_>)
    ensures { (s : TapSides) (passed : List TapDatagram) (d : TapDatagram) → AreApart s → IsFirstError (IsErrorAtTap s) passed first.old
        → d.source ≡ side_of s from → Spells d.payload (meaning packet.now) → IsFirstError (IsErrorAtTap s) (d ∷ passed) first.new }
{
    if first.is_some() {
        return;
    }
    if let Packet::Error { code, .. } = packet {
        *first = Some((from, *code));
    }
}

/// The highest block of a DATA after a packet that passes.
fn higher(highest: u32, packet: &Packet<'_>) -> u32
    ensures { (passed : List TapDatagram) (d : TapDatagram) → IsHighBetween passed highest → Spells d.payload (meaning packet.now)
        → IsHighBetween (d ∷ passed) result }
{
    match packet {
        Packet::Data { block, .. } => highest.max(*block),
        Packet::Request(_) => highest,
        Packet::Oack(_) => highest,
        Packet::Ack { .. } => highest,
        Packet::Error { .. } => highest,
    }
}

/// What is said between the ends, by what is said at the end that gets the file.
fn said_of(
    found: Result<Meaning, Refusal>,
    first_error: Option<(End, u16)>,
    count: u64,
) -> Result<Meaning, TapRefusal>
    ensures { result ≡ said_at_tap found first_error count }
{
    match found {
        Ok(meaning) => Ok(meaning),
        Err(Refusal::NormalTooLong) => Err(TapRefusal::NormalTooLong),
        Err(Refusal::Memory(_)) => Err(TapRefusal::Memory(count)),
        Err(_) => Err(unfinished(first_error, count)),
    }
}

/// What there is to say of a transfer that is not whole, after so many datagrams: who ended it, or how many there are (RFC 1350,
/// section 7).
pub fn unfinished(first_error: Option<(End, u16)>, count: u64) -> TapRefusal
    ensures { result ≡ unfinished_by first_error count }
{
    match first_error {
        Some((end, code)) => TapRefusal::Aborted(end, code),
        None => TapRefusal::Incomplete(count),
    }
}
