//! What a datagram of a transfer breaks by itself between the ends, and what is kept to tell that.

ghost use Rattle.std.specs.Prelude.{◌≡◌, ◌↔◌, List, [], ◌∷◌, IsTrue, None, option_map, OnOk, OnErr};
ghost use Rattle.tftp_packet.specs.{Message, meaning, Spells, End as Who};
ghost use Rattle.law_tap.specs.{TapDatagram, TapSides, side_of, AreApart, before_error, tap_tests, FirstTapAsked, IsLateBlock, IsLateZero, LateBreaks, TapRoute};
ghost use Rattle.judge_tap.specs.TapSeen.{AreMarks, AreNotes, IsNew, first_stop, stop_of};
ghost use Rattle.judge_tap.specs.TapFinds.{FindsRule, IsOtherError, IsReadOf, MessageBreaks, OwnBreaks};

use crate::errors::StoppedEnd;
use crate::seen::{Marks, Seen};
use crate::transfer::receiver_of_file;
use law_end::Rule;
use law_model::rules::EndRule;
use std::alloc::{AllocError, Global};
use std::marker::Model;
use tftp_judge::is_wrong_kind;
use tftp_packet::{End, Packet, PacketFault, Request, Side, same_request};

/// What has passed of a transfer between its ends, and what had passed before the first ERROR of each (RFC 1350, section 7).
#[derive(Drop)]
pub struct TapNotes {
    seen: Seen,
    client: Option<StoppedEnd>,
    server: Option<StoppedEnd>,
}

impl Model for TapNotes {
    ghost use Rattle.judge_tap.specs.TapSeen.{Notes};

    ghost Value = { Notes };

    ghost view = { λ n. record { seen = n.seen; client = n.client; server = n.server } };
}

impl TapNotes {
    /// Before anything has passed. Takes no memory.
    pub fn new(alloc: Global) -> Self
        ensures { (s : TapSides) → AreNotes result s [] }
    {
        TapNotes {
            seen: Seen::nothing(alloc),
            client: None,
            server: None,
        }
    }

    /// The first rule that a datagram of this end breaks by itself, after the first request, whatever its route.
    pub fn breaks(
        &self,
        asked: &Request,
        end: End,
        read: &Result<Packet<'_>, PacketFault>,
    ) -> Option<Rule>
        ensures { (s : TapSides) (passed : List TapDatagram) (route : TapRoute) (d : TapDatagram) → AreNotes self.now s passed → AreApart s
            → FirstTapAsked s passed asked.now → d.source ≡ side_of s end → IsReadOf d.payload read.now
            → FindsRule (OwnBreaks s passed route d) result }
    {
        match read {
            Ok(packet) => self.message_breaks(asked, end, packet),
            Err(fault) => Some(Rule::Malformed(*fault)),
        }
    }

    /// Notes a message of this end that passes. Takes memory for a block above the next one, and for the first ERROR of an end.
    pub fn note(&mut self, alloc: Global, end: End, packet: &Packet<'_>) -> Result<(), AllocError>
        ensures ok { (s : TapSides) (passed : List TapDatagram) (d : TapDatagram) → AreNotes self.old s passed → AreApart s
            → d.source ≡ side_of s end → Spells d.payload (meaning packet.now) → (IsOtherError s passed end (meaning packet.now) → ⊥)
            → OnOk result (AreNotes self.new s (d ∷ passed)) }
        ensures absent { (s : TapSides) (passed : List TapDatagram) → AreNotes self.old s passed
            → OnErr result (IsNew s passed end (meaning packet.now)) }
    {
        if let Packet::Error { code, message } = packet {
            self.note_error(alloc, end, *code, message)?;
        }
        self.seen.note(packet)
    }

    /// Keeps an ERROR of this end, if it is its first.
    fn note_error(
        &mut self,
        alloc: Global,
        end: End,
        code: u16,
        message: &[u8],
    ) -> Result<(), AllocError>
        ensures kept { OnOk result (stop_of self.new end ≡ first_stop (stop_of self.old end) (record { code = code; text = message.now; before = self.old.seen.marks })) }
        ensures others { (e : Who) → (e ≡ end → ⊥) → stop_of self.new e ≡ stop_of self.old e }
        ensures seen { self.new.seen ≡ self.old.seen }
        ensures absent { OnErr result (stop_of self.old end ≡ None) }
    {
        let before = self.seen.marks();
        match end {
            End::Client => keep_first(alloc, &mut self.client, code, message, before),
            End::Server => keep_first(alloc, &mut self.server, code, message, before),
        }
    }

    /// The first rule that a message of this end breaks by itself.
    fn message_breaks(&self, asked: &Request, end: End, packet: &Packet<'_>) -> Option<Rule>
        ensures { (s : TapSides) (passed : List TapDatagram) → AreNotes self.now s passed
            → FindsRule (MessageBreaks s asked.now passed end (meaning packet.now)) result }
    {
        if is_wrong_kind(end, asked.side(), packet) {
            return Some(Rule::WrongKind);
        }
        match packet {
            Packet::Request(now) => {
                if same_request(asked, now) {
                    None
                } else {
                    Some(Rule::RequestChanged)
                }
            }
            Packet::Error { code, message } => {
                if self.has_other_error(end, *code, message) {
                    Some(Rule::AfterError)
                } else {
                    None
                }
            }
            Packet::Data { .. } => {
                if self.is_late_block(asked.side()) {
                    Some(Rule::Block(EndRule::NotStarted))
                } else {
                    None
                }
            }
            Packet::Ack { block } => self.late_ack(asked.side(), *block),
            Packet::Oack(_) => None,
        }
    }

    /// The first ERROR of an end.
    fn stopped(&self, end: End) -> Option<&StoppedEnd>
        ensures { option_map (λ e. e.now) result ≡ stop_of self.now end }
    {
        match end {
            End::Client => self.client.as_ref(),
            End::Server => self.server.as_ref(),
        }
    }

    /// What had passed before this end's first ERROR.
    fn usable(&self, end: End) -> Marks
        ensures { (s : TapSides) (passed : List TapDatagram) → AreNotes self.now s passed
            → AreMarks result (before_error (tap_tests s) end passed) }
    {
        match self.stopped(end) {
            Some(stopped) => stopped.before(),
            None => self.seen.marks(),
        }
    }

    /// Whether this end has sent another ERROR (RFC 1350, section 7).
    pub(crate) fn has_other_error(&self, end: End, code: u16, message: &[u8]) -> bool
        ensures { (s : TapSides) (passed : List TapDatagram) → AreNotes self.now s passed
            → (IsTrue result ↔ IsOtherError s passed end (Message.Error code message.now)) }
    {
        match self.stopped(end) {
            Some(stopped) => !stopped.is(code, message),
            None => false,
        }
    }

    /// Whether a block of a write comes where no answer had passed before the client's first ERROR (RFC 1350, section 4).
    fn is_late_block(&self, side: Side) -> bool
        ensures { (s : TapSides) (passed : List TapDatagram) → AreNotes self.now s passed → (IsTrue result ↔ IsLateBlock s side passed) }
    {
        match side {
            Side::Get => false,
            Side::Put => !self.usable(End::Client).reply,
        }
    }

    /// Whether an ACK 0 answers nothing that had passed before the receiver's first ERROR (RFC 1350, section 4; RFC 2347).
    fn is_late_zero(&self, side: Side) -> bool
        ensures { (s : TapSides) (passed : List TapDatagram) → AreNotes self.now s passed → (IsTrue result ↔ IsLateZero s side passed) }
    {
        match side {
            Side::Get => !self.usable(End::Client).oack,
            Side::Put => self.seen.marks().oack && !self.usable(End::Server).block,
        }
    }

    /// The first rule that an ACK breaks by what had passed before the receiver's first ERROR (RFC 1350, sections 2 and 4).
    fn late_ack(&self, side: Side, block: u32) -> Option<Rule>
        ensures { (s : TapSides) (passed : List TapDatagram) → AreNotes self.now s passed
            → FindsRule (LateBreaks s side passed (Message.Ack block)) result }
    {
        let before = self.usable(receiver_of_file(side));
        if block > before.front {
            return Some(Rule::Block(EndRule::AckAhead));
        }
        if block == 0 && self.is_late_zero(side) {
            return Some(Rule::Block(EndRule::AckZero));
        }
        None
    }
}

/// Keeps an ERROR where none is kept. Takes memory for the first one alone.
fn keep_first(
    alloc: Global,
    stopped: &mut Option<StoppedEnd>,
    code: u16,
    message: &[u8],
    before: Marks,
) -> Result<(), AllocError>
    ensures kept { OnOk result (stopped.new ≡ first_stop stopped.old (record { code = code; text = message.now; before = before })) }
    ensures absent { OnErr result (stopped.old ≡ None) }
{
    if stopped.is_none() {
        *stopped = Some(StoppedEnd::by(alloc, code, message, before)?);
    }
    Ok(())
}
