ghost use Rattle.std.specs.Prelude.{◌≡◌, ◌+◌, ◌^◌, ◌<◌, ◌≤◌, List, [], ◌∷◌, length, reverse, true, IfErr, IfOk, OnOk, Err};
ghost use Rattle.tftp_packet.specs.{opcode_of, Server, Side as Way};
ghost use Rattle.tftp_packet.specs.Hosts.{Datagram as DatagramParts, Header as HeaderParts};
ghost use Rattle.tftp_capture.specs.{datagram_of};
ghost use Rattle.law_model.specs.Rules.{transfer_of};
ghost use Rattle.law_rollover.specs.{IsTaken};
ghost use Rattle.law_model.specs.Model.Roles.{receiver_of};
ghost use Rattle.tftp_judge.specs.{Finds, IsJudgeAfter, Refuses, TakesMemory, IsVerdict};
ghost use Rattle.law_end.specs.{Passes};
ghost use Rattle.law_tap.specs.{TapDatagram, TapSides, side_of, AreApart, is_left_out, same_end, asks_in, tap_tests, header_at, kept_between, recorded_at};
ghost use Rattle.judge_tap.specs.TapKept.{IsReceiving, kept_there};
ghost use Rattle.judge_tap.specs.TapStops.{IsRecorded, IsRecordedFor, ReceiverBreaks};
ghost use Rattle.tftp_judge.specs.declared.pass_error.PassError.{PassError as PassErrorKind};

use crate::pass_error::error_of;
use std::alloc::Global;
use std::marker::Model;
use tftp_capture::{Datagram, Header};
use tftp_ends::blocks::Delivered;
use tftp_judge::{Judge, Meaning, PassError, Refusal};
use tftp_packet::rounds::Rollover;
use tftp_packet::{End, opcode};

/// What the end that gets the file would make of a transfer, had it sent what passed from it and taken what passed towards it.
/// Left out are what it may have sent at another time than it passed: a request again, an ERROR of that end, and an ERROR of
/// the client before anything of the server's.
#[derive(Drop)]
pub struct Receiving<D: Delivered + Drop> {
    judge: Judge<D>,
    end: End,
    answered: bool,
}

impl<D: Delivered + Drop> Model for Receiving<D> {
    ghost use Rattle.std.specs.Coded.{codes};
    ghost use Rattle.tftp_ends.specs.StatesKept.{sender_code, receiver_code};
    ghost use Rattle.tftp_packet.specs.Owned.{options_code, parts_code};
    ghost use Rattle.judge_tap.specs.TapKept.{Receiving};

    ghost Value = { Receiving };

    ghost coded = { Prim.hlevel (codes, sender_code, receiver_code, options_code, parts_code) };

    ghost view = { λ r. record { judge = r.judge; end = r.end; answered = r.answered } };
}

impl<D: Delivered + Drop> Receiving<D> {
    /// After the first request, of a transfer whose file this end gets.
    pub fn begin(
        alloc: Global,
        end: End,
        service: u16,
        rollover: Option<Rollover>,
        request: &Datagram,
    ) -> Result<Self, PassError>
        requires short { length request.now.payload ≤ 65527 }
        ensures ok { (s : TapSides) (side : Way) (d : TapDatagram) → AreApart s → end ≡ receiver_of side → service ≡ s.asked.port → rollover ≡ s.rollover
            → d.source ≡ s.client → asks_in d.payload ≡ true → IsRecorded s end d request.now
            → Passes (header_at s side) [] (recorded_at s end d) → IfOk result (λ receiving. IsReceiving receiving s side (d ∷ [])) }
        ensures err { (s : TapSides) (side : Way) (d : TapDatagram) → end ≡ receiver_of side → service ≡ s.asked.port → rollover ≡ s.rollover
            → IsRecorded s end d request.now → Passes (header_at s side) [] (recorded_at s end d)
            → IfErr result (λ stop. stop ≡ PassErrorKind.Memory) }
        ensures fed { IfOk result (λ receiving. receiving.judge.fed ≡ 1) }
    {
        let mut judge = Judge::new(
            alloc,
            &Header {
                named: end,
                service,
                rollover,
            },
        );
        if let Err(refusal) = judge.feed(alloc, request) {
            return Err(error_of(refusal));
        }
        Ok(Receiving {
            judge,
            end,
            answered: false,
        })
    }

    /// The end that gets the file.
    #[inline]
    pub fn end(&self) -> End
        ensures { result ≡ self.now.end }
    {
        self.end
    }

    /// What this end would find of the next datagram, which comes from an end of the transfer; nothing of one that is left out.
    pub fn pass(
        &mut self,
        alloc: Global,
        rollover: Option<Rollover>,
        from: End,
        datagram: &Datagram,
    ) -> Result<(), PassError>
        requires few { self.old.judge.fed < 2 ^ 40 }
        requires short { length datagram.now.payload ≤ 65527 }
        ensures finds { (s : TapSides) (side : Way) (passed : List TapDatagram) (d : TapDatagram) → AreApart s → IsReceiving self.old s side passed
            → d.source ≡ side_of s from → IsRecordedFor rollover s side passed d datagram.now
            → Finds (ReceiverBreaks s side passed d) (IsReceiving self.new s side (d ∷ passed)) result }
        ensures memory { (s : TapSides) (side : Way) (passed : List TapDatagram) (d : TapDatagram) → IsReceiving self.old s side passed
            → IsRecordedFor rollover s side passed d datagram.now → result ≡ Err PassErrorKind.Memory
            → TakesMemory (header_at s side) (kept_between s side passed) (recorded_at s (receiver_of side) d) }
        ensures fed { OnOk result (self.new.judge.fed ≤ self.old.judge.fed + 1) }
    {
        if self.leaves_out(from, opcode(datagram.payload.as_slice())) {
            return Ok(());
        }
        if let Err(refusal) = feed_by(&mut self.judge, alloc, rollover, datagram) {
            return Err(error_of(refusal));
        }
        if is_server(from) {
            self.answered = true;
        }
        Ok(())
    }

    /// What that end would say of all that it would have kept.
    pub fn finish(self, alloc: Global) -> Result<Meaning, Refusal>
        ensures { (s : TapSides) (side : Way) (passed : List TapDatagram) → IsReceiving self s side passed
            → IsVerdict (header_at s side) (reverse (kept_between s side passed)) result }
    {
        self.judge.finish(alloc)
    }

    /// Whether a datagram is left out that this end of the transfer sends, after the first request.
    fn leaves_out(&self, from: End, opcode: u16) -> bool
        ensures { (s : TapSides) (side : Way) (passed : List TapDatagram) (d : TapDatagram) → AreApart s → IsReceiving self.now s side passed
            → d.source ≡ side_of s from → opcode_of d.payload ≡ opcode
            → is_left_out (tap_tests s) (receiver_of side) d (kept_there s side passed) ≡ result }
    {
        match opcode {
            1 | 2 => from == End::Client,
            5 => from == self.end || (from == End::Client && !self.answered),
            _ => false,
        }
    }
}

/// Feeds a judge the next datagram, by number where there is a rollover.
fn feed_by<D: Delivered + Drop>(
    judge: &mut Judge<D>,
    alloc: Global,
    rollover: Option<Rollover>,
    datagram: &Datagram,
) -> Result<(), Refusal>
    requires few { judge.old.fed < 2 ^ 40 }
    requires short { length datagram.now.payload ≤ 65527 }
    ensures accepts { (h : HeaderParts) (earlier : List DatagramParts) (d : DatagramParts) → IsJudgeAfter judge.old h earlier
        → IsTaken rollover (transfer_of h earlier) (datagram_of datagram.now) d
        → OnOk result (Passes h earlier d × IsJudgeAfter judge.new h (d ∷ earlier)) }
    ensures refuses { (h : HeaderParts) (earlier : List DatagramParts) (d : DatagramParts) → IsJudgeAfter judge.old h earlier
        → IsTaken rollover (transfer_of h earlier) (datagram_of datagram.now) d → IfErr result (Refuses h earlier d) }
    ensures counts { OnOk result (judge.new.fed ≡ judge.old.fed + 1) }
{
    match rollover {
        Some(rollover) => judge.feed_numbered(alloc, rollover, datagram),
        None => judge.feed(alloc, datagram),
    }
}

fn is_server(end: End) -> bool
    ensures { result ≡ same_end Server end }
{
    match end {
        End::Client => false,
        End::Server => true,
    }
}
