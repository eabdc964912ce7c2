//! What is kept of what passed between the ends, to tell whether a refusal stands whatever frames are missing.

ghost use Rattle.std.specs.Prelude.{◌≡◌, List, [], ◌∷◌, true};
ghost use Rattle.tftp_packet.specs.{Client, End as Who, Message, map_of, meaning};
ghost use Rattle.law_end.specs.{IsWrongKind};
ghost use Rattle.law_tap.specs.{AreApart, BreaksNoTapRule, FirstTapAsked, IsSaid, IsSaidBy, TapDatagram, TapSides, is_passing, lossy_route, side_of, transfer_between};
ghost use Rattle.judge_tap.specs.TapFinds.{IsReadOf};
ghost use Rattle.judge_tap.specs.TapSeen.{AreNotes};
ghost use Rattle.judge_tap.specs.ToldKept.{AreTold, IsNoted, IsTold, IsToldOf, IsUnfit, figures_after};

use crate::notes::TapNotes;
use law_tap::Figures;
use std::alloc::Global;
use std::marker::Model;
use tftp_judge::is_wrong_kind;
use tftp_nego::{Agreed, NegoFault, agree};
use tftp_packet::rounds::Rollover;
use tftp_packet::{End, OptionsView, Packet, PacketFault, Request, same_options, same_request};

/// Four figures of the blocks and ACKs that have passed, and what the first OACK agrees to (RFC 2347). With the request, the
/// blocks and the ERRORs, which are kept elsewhere, they decide whether what an end says breaks the law whatever frames are missing.
#[derive(Drop)]
pub struct Told {
    rollover: Option<Rollover>,
    figures: Figures,
    agreed: Option<Agreed>,
    known: bool,
}

impl Model for Told {
    ghost use Rattle.std.specs.Coded.{codes};
    ghost use Rattle.tftp_packet.specs.Owned.{options_code};
    ghost use Rattle.judge_tap.specs.ToldKept.{Told};

    ghost Value = { Told };

    ghost coded = { Prim.hlevel (codes, options_code) };

    ghost view = { λ t. record { rollover = t.rollover; figures = t.figures; offered = t.agreed; known = t.known } };
}

impl Told {
    /// Before anything has passed. Takes no memory.
    pub fn nothing(rollover: Option<Rollover>) -> Self
        ensures { (s : TapSides) → rollover ≡ s.rollover → AreTold result s [] }
    {
        Told {
            rollover,
            figures: Figures::none(rollover),
            agreed: None,
            known: true,
        }
    }

    /// Notes a packet that has passed. Memory is taken for the first OACK; where it is wanting, what that agrees to is not known
    /// from then on.
    pub fn note(&mut self, alloc: Global, asked: &Request, packet: &Packet<'_>)
        ensures { (s : TapSides) (earlier : List TapDatagram) (d : TapDatagram) (e : Who) → AreApart s → BreaksNoTapRule s (d ∷ earlier)
            → IsSaid s (d ∷ earlier) Client (Message.Request asked.now) → IsSaidBy s e (meaning packet.now) d → AreTold self.old s earlier
            → AreTold self.new s (d ∷ earlier) }
    {
        let figures = self.figures;
        match packet {
            Packet::Data { block, bytes } => {
                self.note_figures(figures.with_block(*block, bytes.len()))
            }
            Packet::Ack { block } => self.note_figures(figures.with_ack(*block)),
            Packet::Oack(options) => self.note_oack(alloc, asked, options),
            Packet::Request(_) => {}
            Packet::Error { .. } => {}
        }
    }

    /// Notes the figures after a block or an ACK, if there are any.
    fn note_figures(&mut self, figures: Option<Figures>)
        ensures rollover { self.new.rollover ≡ self.old.rollover }
        ensures figures { self.new.figures ≡ figures_after figures self.old.figures }
        ensures offered { self.new.offered ≡ self.old.offered }
        ensures known { self.new.known ≡ self.old.known }
    {
        match figures {
            Some(figures) => self.figures = figures,
            None => {}
        }
    }

    /// Notes what an OACK agrees to, if it is the first (RFC 2347).
    fn note_oack(&mut self, alloc: Global, asked: &Request, options: &OptionsView<'_>)
        ensures rollover { self.new.rollover ≡ self.old.rollover }
        ensures figures { self.new.figures ≡ self.old.figures }
        ensures noted { IsNoted self.old (map_of options.now) self.new }
    {
        match &self.agreed {
            Some(_) => return,
            None => {}
        }
        match agree(alloc, asked, options, self.rollover) {
            Ok(agreed) => self.agreed = Some(agreed),
            Err(_) => self.known = false,
        }
    }

    /// Whether what was read of an end breaks a rule whatever is missing, but that it changes a block. There is no answer
    /// where memory was wanting for an OACK.
    pub fn standing(
        &self,
        alloc: Global,
        asked: &Request,
        notes: &TapNotes,
        from: End,
        read: &Result<Packet<'_>, PacketFault>,
    ) -> Option<bool>
        ensures { (s : TapSides) (earlier : List TapDatagram) (d : TapDatagram) → AreApart s → BreaksNoTapRule s earlier → AreTold self.now s earlier
            → FirstTapAsked s (transfer_between s earlier) asked.now → AreNotes notes.now s (transfer_between s earlier)
            → IsReadOf d.payload read.now → d.source ≡ side_of s from → is_passing (lossy_route s d) ≡ true → IsTold s earlier d result }
    {
        match read {
            Ok(packet) => self.breaks(alloc, asked, notes, from, packet),
            Err(_) => Some(true),
        }
    }

    /// The same of a packet that an end says.
    fn breaks(
        &self,
        alloc: Global,
        asked: &Request,
        notes: &TapNotes,
        from: End,
        packet: &Packet<'_>,
    ) -> Option<bool>
        ensures { (s : TapSides) (earlier : List TapDatagram) (d : TapDatagram) → AreApart s → BreaksNoTapRule s earlier → AreTold self.now s earlier
            → IsSaid s earlier Client (Message.Request asked.now) → AreNotes notes.now s (transfer_between s earlier)
            → IsSaidBy s from (meaning packet.now) d → IsToldOf s earlier d asked.now from (meaning packet.now) result }
    {
        if is_wrong_kind(from, asked.side(), packet) {
            return Some(true);
        }
        match packet {
            Packet::Request(now) => Some(!same_request(asked, now)),
            Packet::Data { block, bytes } => {
                if *block == 0 {
                    return Some(true);
                }
                self.unfit(asked, self.figures.with_block(*block, bytes.len()))
            }
            Packet::Ack { block } => self.unfit(asked, self.figures.with_ack(*block)),
            Packet::Error { code, message } => Some(notes.has_other_error(from, *code, message)),
            Packet::Oack(options) => self.oack_breaks(alloc, asked, options),
        }
    }

    /// Whether no transfer that may have been agreed to explains the figures, or there are none.
    fn unfit(&self, asked: &Request, figures: Option<Figures>) -> Option<bool>
        ensures { IsUnfit asked.now self.now figures result }
    {
        let Some(figures) = figures else {
            return Some(true);
        };
        if !self.known {
            return None;
        }
        match &self.agreed {
            Some(agreed) => Some(!figures.fits_agreed(asked, agreed)),
            None => Some(!figures.fits_unseen(asked)),
        }
    }

    /// Whether an OACK breaks a rule whatever is missing (RFC 2347; RFC 2348; RFC 2349; RFC 7440).
    fn oack_breaks(&self, alloc: Global, asked: &Request, options: &OptionsView<'_>) -> Option<bool>
        ensures { (s : TapSides) (earlier : List TapDatagram) (d : TapDatagram) (e : Who) → AreApart s → BreaksNoTapRule s earlier → AreTold self.now s earlier
            → IsSaid s earlier Client (Message.Request asked.now) → IsSaidBy s e (Message.Oack (map_of options.now)) d
            → (IsWrongKind e asked.now.side (Message.Oack (map_of options.now)) → ⊥)
            → IsToldOf s earlier d asked.now e (Message.Oack (map_of options.now)) result }
    {
        if !self.known {
            return None;
        }
        match &self.agreed {
            Some(agreed) => Some(!same_options(agreed.options(), options)),
            None => match agree(alloc, asked, options, self.rollover) {
                Ok(agreed) => Some(!self.figures.fits_agreed(asked, &agreed)),
                Err(NegoFault::Broken(_)) => Some(true),
                Err(NegoFault::BeyondBlock65535) => Some(true),
                Err(NegoFault::Memory) => None,
            },
        }
    }
}
