//! The ERRORs of a transfer (RFC 1350, section 7).

ghost use Rattle.std.specs.Prelude.{◌≡◌, ◌↔◌, ℕ, List, [], ◌∷◌, IsTrue, None, Some, OnOk, OnErr};
ghost use Rattle.tftp_packet.specs.{Message, meaning};
ghost use Rattle.tftp_packet.specs.Hosts.{Datagram};
ghost use Rattle.tftp_packet.specs.{Out};
ghost use Rattle.law_model.specs.Rules.{Passed};
ghost use Rattle.tftp_ends.specs.{has_stopped, Says};
ghost use Rattle.law_end.specs.{by_of as by_way, GoesOn, IsError};
ghost use Rattle.tftp_judge.specs.Ending.{IsUnfinished};
ghost use Rattle.tftp_judge.specs.Kept.{AreErrors, ErrorText as ErrorParts};
ghost use Rattle.tftp_judge.specs.Memory.{IsNew};

use crate::refusal::Refusal;
use law_end::AbortedBy;
use std::alloc::{AllocError, Global};
use std::marker::Model;
use tftp_packet::hosts::Dir;
use tftp_packet::{Bytes, Packet};

/// An ERROR that has passed (RFC 1350, section 5).
#[derive(Drop)]
pub struct ErrorText {
    code: u16,
    message: Bytes,
}

impl Model for ErrorText {
    ghost use Rattle.tftp_judge.specs.Kept.{ErrorText};

    ghost Value = { ErrorText };

    ghost view = { λ e. (e.code, e.message) };
}

/// The ERROR of each end, and whose came first. An end that sends one sends no other (RFC 1350, section 7).
#[derive(Drop)]
pub struct Errors {
    sent: Option<ErrorText>,
    heard: Option<ErrorText>,
    first: Option<(AbortedBy, u16)>,
}

impl Model for Errors {
    ghost use Rattle.tftp_judge.specs.Kept.{Errors};

    ghost Value = { Errors };

    ghost view = { λ e. record { sent = e.sent; heard = e.heard; first = e.first } };
}

/// Whether a packet is an ERROR (RFC 1350, section 5).
fn is_error(packet: &Packet<'_>) -> bool
    ensures { IsTrue result ↔ IsError (meaning packet.now) }
{
    matches!(packet, Packet::Error { .. })
}

/// The end that sent what went this way.
fn by_of(dir: Dir) -> AbortedBy
    ensures { result ≡ by_way dir }
{
    match dir {
        Dir::Out => AbortedBy::Local,
        Dir::In => AbortedBy::Peer,
    }
}

/// Keeps an ERROR where none is kept. Memory is taken for the first one alone.
fn keep_first(
    alloc: Global,
    kept: &mut Option<ErrorText>,
    code: u16,
    message: &[u8],
) -> Result<(), AllocError>
    ensures first { kept.old ≡ None → OnOk result (kept.new ≡ Some (code, message.now)) }
    ensures later { (error : ErrorParts) → kept.old ≡ Some error → kept.new ≡ Some error }
    ensures err { OnErr result (kept.new ≡ kept.old) }
    ensures absent { OnErr result (kept.old ≡ None) }
{
    if kept.is_none() {
        let mut bytes = Vec::new(alloc);
        bytes.extend_from_slice(message)?;
        *kept = Some(ErrorText {
            code,
            message: Bytes::of(bytes),
        });
    }
    Ok(())
}

impl ErrorText {
    /// Whether the packet is this ERROR (RFC 1350, section 5).
    fn is(&self, packet: &Packet<'_>) -> bool
        ensures { IsTrue result ↔ (meaning packet.now ≡ Message.Error self.now.0 self.now.1) }
    {
        match packet {
            Packet::Error { code, message } => {
                *code == self.code && *message == self.message.as_slice()
            }
            _ => false,
        }
    }
}

impl Errors {
    /// Of a transfer that has had none.
    pub fn none() -> Self
        ensures { AreErrors result [] }
    {
        Errors {
            sent: None,
            heard: None,
            first: None,
        }
    }

    /// Whether the end that sends this packet goes on after its ERROR. What comes in and is no ERROR may have been sent
    /// before it (RFC 1350, section 7).
    #[inline(always)]
    pub fn goes_on(&self, dir: Dir, packet: &Packet<'_>) -> bool
        ensures { (passed : List Datagram) → AreErrors self.now passed → (IsTrue result ↔ GoesOn passed dir (meaning packet.now)) }
    {
        match dir {
            Dir::Out => match &self.sent {
                Some(sent) => !sent.is(packet),
                None => false,
            },
            Dir::In => match &self.heard {
                Some(heard) => is_error(packet) && !heard.is(packet),
                None => false,
            },
        }
    }

    /// Notes an ERROR that goes this way, after which its end has not gone on. Memory is taken for the first one that goes
    /// this way alone; after want of it nothing has changed.
    pub fn note(
        &mut self,
        alloc: Global,
        dir: Dir,
        code: u16,
        message: &[u8],
    ) -> Result<(), AllocError>
        ensures ok { (passed : List Datagram) (d : Datagram) → AreErrors self.old passed → Says d dir (Message.Error code message.now)
            → (GoesOn passed dir (Message.Error code message.now) → ⊥) → OnOk result (AreErrors self.new (d ∷ passed)) }
        ensures err { OnErr result (self.new ≡ self.old) }
        ensures absent { (passed : List Datagram) → AreErrors self.old passed
            → OnErr result (IsNew passed dir (Message.Error code message.now)) }
    {
        match dir {
            Dir::Out => keep_first(alloc, &mut self.sent, code, message)?,
            Dir::In => keep_first(alloc, &mut self.heard, code, message)?,
        }
        if self.first.is_none() {
            self.first = Some((by_of(dir), code));
        }
        Ok(())
    }

    /// Whether one has gone out.
    pub fn has_gone_out(&self) -> bool
        ensures { (passed : List Datagram) → AreErrors self.now passed
            → (IsTrue result ↔ ((code : ℕ) × (text : List ℕ) × Passed Out (Message.Error code text) passed)) }
    {
        self.sent.is_some()
    }

    /// Whether this ERROR has gone out (RFC 1350, section 5).
    pub fn has_sent(&self, code: u16, message: &[u8]) -> bool
        ensures { IsTrue result ↔ (self.now.sent ≡ Some (code, message.now)) }
    {
        match &self.sent {
            Some(sent) => sent.code == code && sent.message.as_slice() == message,
            None => false,
        }
    }

    /// Whether one has come in.
    pub fn has_heard(&self) -> bool
        ensures { (passed : List Datagram) → AreErrors self.now passed → has_stopped passed ≡ result }
    {
        self.heard.is_some()
    }

    /// What there is to say of a transfer that is not whole, after so many datagrams: who ended it, or how many there are
    /// (RFC 1350, section 7).
    pub fn unfinished(&self, count: u64) -> Refusal
        ensures { (passed : List Datagram) → AreErrors self.now passed → IsUnfinished passed count result }
    {
        match self.first {
            Some((by, code)) => Refusal::Aborted(by, code),
            None => Refusal::Incomplete(count),
        }
    }
}
