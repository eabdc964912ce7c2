//! What was said between the two ends of a transfer, of which the recorder may have missed any part.

ghost use Rattle.std.specs.Prelude.{◌≡◌, ◌≤◌, ◌↔◌, List, ◌∷◌, IsTrue};
ghost use Rattle.tftp_packet.specs.{Client, End as Who, Message, map_of, meaning, parts};
ghost use Rattle.tftp_judge.specs.{error_of_fault};
ghost use Rattle.law_end.specs.{IsWrongKind};
ghost use Rattle.law_tap.specs.{AreApart, FitsSaid, IsSaidBy, TapDatagram, TapSides};
ghost use Rattle.judge_tap.specs.Said.{AreSaidNotes, FindsSaid, ack_broken};
ghost use Rattle.judge_tap.specs.LossyKept.{NoneIsSaid};

use crate::said_blocks::SaidBlocks;
use crate::said_errors::SaidErrors;
use law_end::Rule;
use law_model::rules::EndRule;
use law_tap::Figures;
use std::alloc::Global;
use std::marker::Model;
use tftp_ends::blocks::PutOutcome;
use tftp_judge::{PassError, is_wrong_kind};
use tftp_nego::{Agreed, NegoFault, agree};
use tftp_packet::rounds::Rollover;
use tftp_packet::{End, OptionsView, Packet, Request, RequestView, same_options, same_request};

/// What was said of a transfer from its request on: what was asked for and agreed to, four figures of the numbers of blocks and
/// ACKs, the blocks, and the ERROR of each end. In which order it was said counts for nothing.
#[derive(Drop)]
pub struct SaidNotes {
    rollover: Option<Rollover>,
    asked: Request,
    figures: Figures,
    agreed: Option<Agreed>,
    blocks: SaidBlocks,
    errors: SaidErrors,
}

impl Model for SaidNotes {
    ghost use Rattle.std.specs.Coded.{codes};
    ghost use Rattle.tftp_packet.specs.Owned.{options_code, parts_code};
    ghost use Rattle.judge_tap.specs.Said.{SaidNotes, blocks_code};

    ghost Value = { SaidNotes };

    ghost coded = { Prim.hlevel (codes, blocks_code, options_code, parts_code) };

    ghost view = { λ n. record {
      rollover = n.rollover;
      asked = n.asked;
      figures = n.figures;
      offered = n.agreed;
      blocks = n.blocks;
      errors = n.errors;
    } };
}

impl SaidNotes {
    /// The notes of a transfer whose request asks for this. Takes no memory.
    pub fn begin(alloc: Global, asked: Request, rollover: Option<Rollover>) -> Self
        ensures { (s : TapSides) (earlier : List TapDatagram) (d : TapDatagram) → rollover ≡ s.rollover → NoneIsSaid s earlier
            → IsSaidBy s Client (Message.Request asked) d → AreSaidNotes result s (d ∷ earlier) }
    {
        SaidNotes {
            rollover,
            asked,
            figures: Figures::none(rollover),
            agreed: None,
            blocks: SaidBlocks::none(alloc),
            errors: SaidErrors::none(),
        }
    }

    /// What an end says next, as far as it is certain to break the law; where it is not, it is noted. Memory is taken for the first
    /// OACK, a block of which none with its number was said, and the first ERROR of an end. After an error the notes stand for nothing.
    pub fn take(&mut self, alloc: Global, end: End, packet: &Packet<'_>) -> Result<(), PassError>
        ensures { (s : TapSides) (earlier : List TapDatagram) (d : TapDatagram) → AreApart s → AreSaidNotes self.old s earlier
            → IsSaidBy s end (meaning packet.now) d
            → FindsSaid s earlier d self.old.asked end (meaning packet.now) (AreSaidNotes self.new s (d ∷ earlier)) result }
    {
        if is_wrong_kind(end, self.asked.side(), packet) {
            return Err(PassError::Broken(Rule::WrongKind));
        }
        match packet {
            Packet::Request(now) => self.take_request(now),
            Packet::Data { block, bytes } => self.take_block(alloc, *block, bytes),
            Packet::Ack { block } => self.take_ack(*block),
            Packet::Error { code, message } => self.take_error(alloc, end, *code, message),
            Packet::Oack(options) => self.take_oack(alloc, options),
        }
    }

    /// The same of a request of the client (RFC 1350, section 4).
    fn take_request(&self, now: &RequestView<'_>) -> Result<(), PassError>
        ensures { (s : TapSides) (earlier : List TapDatagram) (d : TapDatagram) (e : Who) → AreSaidNotes self.now s earlier
            → IsSaidBy s e (Message.Request (parts now.now)) d → (IsWrongKind e self.now.asked.side (Message.Request (parts now.now)) → ⊥)
            → FindsSaid s earlier d self.now.asked e (Message.Request (parts now.now)) (AreSaidNotes self.now s (d ∷ earlier)) result }
    {
        if same_request(&self.asked, now) {
            Ok(())
        } else {
            Err(PassError::Broken(Rule::RequestChanged))
        }
    }

    /// The same of a block (RFC 1350, sections 5 and 6; RFC 2348).
    fn take_block(&mut self, alloc: Global, number: u32, bytes: &[u8]) -> Result<(), PassError>
        ensures { (s : TapSides) (earlier : List TapDatagram) (d : TapDatagram) (e : Who) → AreSaidNotes self.old s earlier
            → IsSaidBy s e (Message.Data number bytes.now) d → (IsWrongKind e self.old.asked.side (Message.Data number bytes.now) → ⊥)
            → FindsSaid s earlier d self.old.asked e (Message.Data number bytes.now) (AreSaidNotes self.new s (d ∷ earlier)) result }
    {
        if number == 0 {
            return Err(PassError::Broken(Rule::Block(EndRule::BlockZero)));
        }
        let Some(figures) = self.figures.with_block(number, bytes.len()) else {
            return Err(PassError::Broken(Rule::Block(EndRule::BlockLength)));
        };
        if !self.fits(&figures) {
            return Err(PassError::Broken(Rule::Block(EndRule::BlockLength)));
        }
        self.figures = figures;
        match self.blocks.put(alloc, number, bytes)? {
            PutOutcome::New | PutOutcome::Same => Ok(()),
            PutOutcome::Differs => Err(PassError::Broken(Rule::Block(EndRule::BlockChanged))),
        }
    }

    /// The same of an ACK (RFC 1350, section 5; RFC 2347).
    fn take_ack(&mut self, number: u32) -> Result<(), PassError>
        ensures { (s : TapSides) (earlier : List TapDatagram) (d : TapDatagram) (e : Who) → AreSaidNotes self.old s earlier
            → IsSaidBy s e (Message.Ack number) d → (IsWrongKind e self.old.asked.side (Message.Ack number) → ⊥)
            → FindsSaid s earlier d self.old.asked e (Message.Ack number) (AreSaidNotes self.new s (d ∷ earlier)) result }
    {
        let Some(figures) = self.figures.with_ack(number) else {
            return Err(PassError::Broken(broken_by_ack(number)));
        };
        if !self.fits(&figures) {
            return Err(PassError::Broken(broken_by_ack(number)));
        }
        self.figures = figures;
        Ok(())
    }

    /// The same of an ERROR (RFC 1350, section 7).
    fn take_error(
        &mut self,
        alloc: Global,
        end: End,
        code: u16,
        message: &[u8],
    ) -> Result<(), PassError>
        ensures { (s : TapSides) (earlier : List TapDatagram) (d : TapDatagram) → AreApart s → AreSaidNotes self.old s earlier
            → IsSaidBy s end (Message.Error code message.now) d → (IsWrongKind end self.old.asked.side (Message.Error code message.now) → ⊥)
            → FindsSaid s earlier d self.old.asked end (Message.Error code message.now) (AreSaidNotes self.new s (d ∷ earlier)) result }
    {
        if self.errors.put(alloc, end, code, message)? {
            Ok(())
        } else {
            Err(PassError::Broken(Rule::AfterError))
        }
    }

    /// The same of an OACK of the server (RFC 2347; RFC 2348; RFC 2349; RFC 7440).
    fn take_oack(&mut self, alloc: Global, options: &OptionsView<'_>) -> Result<(), PassError>
        ensures { (s : TapSides) (earlier : List TapDatagram) (d : TapDatagram) (e : Who) → AreSaidNotes self.old s earlier
            → IsSaidBy s e (Message.Oack (map_of options.now)) d → (IsWrongKind e self.old.asked.side (Message.Oack (map_of options.now)) → ⊥)
            → FindsSaid s earlier d self.old.asked e (Message.Oack (map_of options.now)) (AreSaidNotes self.new s (d ∷ earlier)) result }
    {
        match &self.agreed {
            Some(agreed) => {
                if same_options(agreed.options(), options) {
                    return Ok(());
                }
                return Err(PassError::Broken(Rule::OackChanged));
            }
            None => {}
        }
        let agreed = match agree(alloc, &self.asked, options, self.rollover) {
            Ok(agreed) => agreed,
            Err(fault) => return Err(stop_of(fault)),
        };
        if !self.figures.fits_agreed(&self.asked, &agreed) {
            return Err(PassError::Broken(Rule::ReplyChanged));
        }
        self.agreed = Some(agreed);
        Ok(())
    }

    /// Whether some transfer that may have been agreed to explains such figures.
    fn fits(&self, figures: &Figures) -> bool
        ensures { IsTrue result ↔ FitsSaid self.now.asked self.now.offered figures.now }
    {
        match &self.agreed {
            Some(agreed) => figures.fits_agreed(&self.asked, agreed),
            None => figures.fits_unseen(&self.asked),
        }
    }
}

/// The rule that an ACK breaks which nothing explains (RFC 1350, section 5; RFC 2347).
fn broken_by_ack(number: u32) -> Rule
    ensures { result ≡ ack_broken number }
{
    if number == 0 {
        Rule::Block(EndRule::AckZero)
    } else {
        Rule::Block(EndRule::AckAhead)
    }
}

/// Why an OACK that may not be agreed to does not pass (RFC 2347).
fn stop_of(fault: NegoFault) -> PassError
    ensures { result ≡ error_of_fault fault }
{
    match fault {
        NegoFault::Broken(rule) => PassError::Broken(Rule::Agreement(rule)),
        NegoFault::BeyondBlock65535 => PassError::Broken(Rule::Block(EndRule::BeyondBlock65535)),
        NegoFault::Memory => PassError::Memory,
    }
}
