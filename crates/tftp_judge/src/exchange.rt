ghost use Rattle.std.specs.Prelude.{◌≡◌, ◌⊎◌, ◌↔◌, ◌≤◌, IsTrue, List, ◌∷◌, Err, OnOk, OnErr};
ghost use Rattle.tftp_packet.specs.{Message, RequestParts, Spells, meaning, map_of};
ghost use Rattle.tftp_packet.specs.Hosts.{Datagram, Header};
ghost use Rattle.tftp_packet.specs.Rounds.{greatest_of};
ghost use Rattle.law_model.specs.Rules.{author_of, IsHigh};
ghost use Rattle.tftp_ends.specs.{IsBlockOrAck, Says};
ghost use Rattle.law_end.specs.{TermsBreak, IsError, IsWrongKind};
ghost use Rattle.tftp_judge.specs.Exchanges.{HasAnswer, IsNewBlockOn};
ghost use Rattle.tftp_judge.specs.Found.{Finds};
ghost use Rattle.tftp_judge.specs.Kept.{IsExchange};
ghost use Rattle.tftp_judge.specs.KeptCode.{exchange_of};
ghost use Rattle.tftp_judge.specs.SentByKept.{HasAgreed, HasBlock, IsAgreedBy};
ghost use Rattle.tftp_judge.specs.declared.pass_error.PassError.{PassError as PassErrorKind};

use crate::first_oack::FirstOack;
use crate::pass_error::PassError;
use std::alloc::Global;
use tftp_ends::NamedEnd;
use tftp_ends::blocks::Delivered;
use tftp_packet::hosts::Dir;
use tftp_packet::{OptionsView, Packet, same_options};

/// How the request was answered, and the named end that began with the answer (RFC 1350, section 4; RFC 2347).
#[derive(Drop)]
pub enum Exchange<D: Delivered + Drop> {
    /// Not yet.
    Unanswered,
    /// By a block or an ACK 0, and so with nothing agreed.
    Begun(NamedEnd<D>),
    /// By an OACK that agrees to these options.
    Agreed(FirstOack, NamedEnd<D>),
}

impl<D: Delivered + Drop> Exchange<D> {
    /// Keeps a packet that passes this way, or tells the first rule that it breaks. Memory is taken for a block that is not
    /// held alone. Before the request is answered only an ERROR comes here, which changes nothing.
    #[inline(always)]
    pub fn pass(&mut self, alloc: Global, dir: Dir, packet: &Packet<'_>) -> Result<(), PassError>
        ensures finds { (h : Header) (asked : RequestParts) (passed : List Datagram) → HasAnswer (exchange_of self.old)
            → IsExchange h asked passed (exchange_of self.old) → Finds (TermsBreak h asked passed (meaning packet.now)) (Unit {0}) result }
        ensures ok { (h : Header) (asked : RequestParts) (passed : List Datagram) (d : Datagram)
            → IsExchange h asked passed (exchange_of self.old) → Says d dir (meaning packet.now)
            → (IsWrongKind (author_of h.named dir) asked.side (meaning packet.now) → ⊥)
            → HasAnswer (exchange_of self.old) ⊎ IsError (meaning packet.now) → OnOk result (IsExchange h asked (d ∷ passed) (exchange_of self.new)) }
        ensures memory { result ≡ Err PassErrorKind.Memory → IsNewBlockOn (exchange_of self.old) (meaning packet.now) }
        ensures others { OnErr result (IsBlockOrAck (meaning packet.now)) }
        ensures err { OnErr result (exchange_of self.new ≡ exchange_of self.old) }
    {
        match self {
            Exchange::Unanswered => Ok(()),
            Exchange::Begun(end) => Ok(end.pass(alloc, dir, packet)?),
            Exchange::Agreed(_, end) => Ok(end.pass(alloc, dir, packet)?),
        }
    }

    /// The highest block that has passed, or 0 (RFC 1350, section 5).
    pub fn highest(&self) -> u32
        ensures highest { (h : Header) (asked : RequestParts) (passed : List Datagram) → IsExchange h asked passed (exchange_of self.now) → IsHigh passed result }
        ensures within { (h : Header) (asked : RequestParts) (passed : List Datagram) → IsExchange h asked passed (exchange_of self.now)
            → result ≤ greatest_of h.rollover }
    {
        match self {
            Exchange::Unanswered => 0,
            Exchange::Begun(end) => end.highest(),
            Exchange::Agreed(_, end) => end.highest(),
        }
    }

    /// Whether the server agreed to these options, by an OACK (RFC 2347).
    pub fn has_agreed(&self, oack: &OptionsView<'_>) -> bool
        ensures { IsTrue result ↔ HasAgreed (exchange_of self.now) (map_of oack.now) }
    {
        match self {
            Exchange::Unanswered => false,
            Exchange::Begun(_) => false,
            Exchange::Agreed(first, _) => same_options(first.agreed().options(), oack),
        }
    }

    /// Whether the first OACK had these bytes. Where its bytes were not kept it is not known by them.
    #[inline]
    pub fn has_agreed_by(&self, payload: &[u8]) -> bool
        ensures { IsTrue result → IsAgreedBy (exchange_of self.now) payload.now }
    {
        match self {
            Exchange::Agreed(first, _) => first.has_bytes(payload),
            _ => false,
        }
    }

    /// Keeps the bytes of an OACK that has passed, unless some are kept.
    pub fn keep_oack(&mut self, alloc: Global, oack: &OptionsView<'_>, payload: &[u8])
        requires { Spells payload.now (Message.Oack (map_of oack.now)) }
        ensures { exchange_of self.new ≡ exchange_of self.old }
    {
        if let Exchange::Agreed(first, _) = self {
            if !first.has_kept() && same_options(first.agreed().options(), oack) {
                first.keep(alloc, payload);
            }
        }
    }

    /// Whether the named end has sent this block, with these bytes (RFC 1350, section 2).
    pub fn has_sent(&self, number: u32, bytes: &[u8]) -> bool
        ensures { IsTrue result ↔ HasBlock (exchange_of self.now) number bytes.now }
    {
        match self {
            Exchange::Unanswered => false,
            Exchange::Begun(end) => end.has_sent(number, bytes),
            Exchange::Agreed(_, end) => end.has_sent(number, bytes),
        }
    }
}
