ghost use Rattle.std.specs.Prelude.{◌≡◌, ◌≢◌, ◌≤◌, ◌↔◌, IsTrue, true, ℕ, List, [], ◌∷◌, length, reverse, None, Some, OnOk, OnErr, IfErr, Err};
ghost use Rattle.tftp_packet.specs.{OptionMap, Message, Get, Spells, meaning, parts, map_of};
ghost use Rattle.tftp_packet.specs.Hosts.{Datagram, Header};
ghost use Rattle.tftp_packet.specs.{Out};
ghost use Rattle.tftp_ends.specs.{terms_of, IsEndAfter, IsBeforeBlocks, IsBlockOrAck, Says};
ghost use Rattle.law_model.specs.Rules.{IsHigh, transfer_of, author_of as author_by_way};
ghost use Rattle.law_model.specs.{Plain};
ghost use Rattle.tftp_packet.specs.{Rollover as Numbering};
ghost use Rattle.tftp_packet.specs.Rounds.{position_of};
ghost use Rattle.law_end.specs.{MessageBreaks, FirstOackBreaks, LaterOackBreaks, OackBreaks, RequestBreaks, TermsBreak, BlockSent, AckSent, OneEnded, IsEnded, Agrees, ClientWentOn, FirstAsked, GoesOn, IsWrongKind, plain_terms as plain_terms_of, terms_after};
ghost use Rattle.tftp_judge.specs.Found.{Finds, error_of_fault};
ghost use Rattle.tftp_judge.specs.Exchanges.{WaitsForReply, DiffersByExchange, DiffersBySent};
ghost use Rattle.tftp_judge.specs.Memory.{IsNew, TakesForJoin};
ghost use Rattle.tftp_judge.specs.Kept.{AreErrors, Unanswered, IsExchange, IsTransferAfter, IsTransferOf};
ghost use Rattle.tftp_judge.specs.SentByKept.{HasAgreed, HasSentBy, IsAgreedBy, flags_of};
ghost use Rattle.tftp_judge.specs.Verdicts.{IsVerdictByRules};
ghost use Rattle.tftp_judge.specs.declared.refusal.Refusal.{Refusal as RefusalKind};
ghost use Rattle.tftp_judge.specs.declared.pass_error.PassError.{PassError as PassErrorKind};

use crate::errors::Errors;
use crate::exchange::Exchange;
use crate::file::{file_of, written_blocks};
use crate::first_oack::FirstOack;
use crate::kinds::{author_of, is_wrong_kind};
use crate::meaning::Meaning;
use crate::pass_error::PassError;
use crate::refusal::Refusal;
use crate::sent_acks::SentAcks;
use law_end::Rule;
use law_model::rules::{EndRule, Reply, Terms};
use std::alloc::Global;
use std::marker::Model;
use tftp_ends::NamedEnd;
use tftp_ends::blocks::Delivered;
use tftp_nego::{Agreed, NegoFault, agree, nothing_agreed};
use tftp_packet::hosts::Dir;
use tftp_packet::rounds::{Rollover, greatest_block};
use tftp_packet::{
    End, Mode, OptionsView, Packet, Request, RequestView, Side, same_options, same_request,
};

/// The transfer from its first request on: what was asked for and answered, the named end, and what it has sent.
pub struct Transfer<D: Delivered + Drop> {
    named: End,
    rollover: Option<Rollover>,
    asked: Request,
    exchange: Exchange<D>,
    block_sent: bool,
    ack_sent: bool,
    errors: Errors,
}

impl<D: Delivered + Drop> Drop for Transfer<D> {
    // written out, since the prover takes a derived one apart again wherever a value is let go
    fn drop(self) {
        let Transfer {
            named: _,
            rollover: _,
            asked: _,
            exchange: _,
            block_sent: _,
            ack_sent: _,
            errors: _,
        } = self;
    }
}

impl<D: Delivered + Drop> Model for Transfer<D> {
    ghost use Rattle.tftp_judge.specs.Kept.{Transfer};
    ghost use Rattle.std.specs.Coded.{codes};
    ghost use Rattle.tftp_ends.specs.StatesKept.{sender_code, receiver_code};
    ghost use Rattle.tftp_packet.specs.Owned.{options_code, parts_code};
    ghost use Rattle.tftp_judge.specs.KeptCode.{exchange_of};

    ghost Value = { Transfer };

    ghost coded = { Prim.hlevel (codes, sender_code, receiver_code, options_code, parts_code) };

    ghost view = { λ t. record {
      named = t.named;
      rollover = t.rollover;
      asked = t.asked;
      exchange = exchange_of t.exchange;
      block_sent = t.block_sent;
      ack_sent = t.ack_sent;
      errors = t.errors;
    } };
}

impl<D: Delivered + Drop> Transfer<D> {
    /// After the first request of a transfer that is captured at this end (RFC 1350, section 4). Takes no memory.
    pub fn of(named: End, rollover: Option<Rollover>, asked: Request) -> Self
        ensures asked { result.asked ≡ asked }
        ensures after { (h : Header) (d : Datagram) → h.named ≡ named → h.rollover ≡ rollover → Spells d.payload (Message.Request asked)
            → IsTransferAfter result h (d ∷ []) }
    {
        Transfer {
            named,
            rollover,
            asked,
            exchange: Exchange::Unanswered,
            block_sent: false,
            ack_sent: false,
            errors: Errors::none(),
        }
    }

    /// The block that a number means: the number itself, or where numbers begin again the block near the highest that has passed.
    pub fn block_of(&self, rollover: Option<Rollover>, number: u16) -> u32
        ensures itself { rollover ≡ None → result ≡ number }
        ensures near { (h : Header) (passed : List Datagram) (r : Numbering) (high : ℕ) → IsTransferAfter self.now h passed
            → rollover ≡ Some r → IsHigh passed high → result ≡ position_of r high number }
    {
        match rollover {
            Some(rollover) => {
                let highest = self.exchange.highest().min(greatest_block(Some(rollover)));
                rollover.position(highest, number)
            }
            None => u32::from(number),
        }
    }

    /// What a packet breaks that comes after the first request; where it breaks no rule it is kept. Memory is taken for the
    /// first OACK, a block that is not held and the first ERROR of an end.
    #[inline(always)]
    pub fn pass(&mut self, alloc: Global, dir: Dir, packet: &Packet<'_>) -> Result<(), PassError>
        ensures finds { (h : Header) (passed : List Datagram) (d : Datagram) → IsTransferAfter self.old h passed
            → Says d dir (meaning packet.now)
            → Finds (MessageBreaks h self.old.asked passed dir (meaning packet.now)) (IsTransferAfter self.new h (d ∷ passed)) result }
        ensures memory { (h : Header) (passed : List Datagram) → IsTransferAfter self.old h passed → result ≡ Err PassErrorKind.Memory
            → IsNew passed dir (meaning packet.now) }
        ensures asked { self.new.asked ≡ self.old.asked }
        ensures err { OnErr result (self.new ≡ self.old) }
    {
        if is_wrong_kind(author_of(self.named, dir), self.asked.side(), packet) {
            return Err(PassError::Broken(Rule::WrongKind));
        }
        if self.errors.goes_on(dir, packet) {
            return Err(PassError::Broken(Rule::AfterError));
        }
        match packet {
            Packet::Request(now) => self.pass_request(dir, now),
            Packet::Error { code, message } => self.pass_error(alloc, dir, *code, message, packet),
            Packet::Oack(oack) => self.pass_oack(alloc, dir, oack),
            Packet::Data { .. } | Packet::Ack { .. } => self.pass_block(alloc, dir, packet),
        }
    }

    /// What the first request breaks that comes again with the same bytes, as `pass` says it: a server sends it, its end has
    /// sent an ERROR, or the client has sent a block or an ACK (RFC 1350, sections 4 and 7).
    pub fn pass_again(&self, dir: Dir) -> Result<(), PassError>
        ensures finds { (h : Header) (passed : List Datagram) (d : Datagram) → IsTransferAfter self.now h passed
            → Says d dir (Message.Request self.now.asked)
            → Finds (MessageBreaks h self.now.asked passed dir (Message.Request self.now.asked)) (IsTransferAfter self.now h (d ∷ passed)) result }
        ensures takes_none { result ≢ Err PassErrorKind.Memory }
    {
        if author_of(self.named, dir) == End::Server {
            return Err(PassError::Broken(Rule::WrongKind));
        }
        if dir == Dir::In {
            return Ok(());
        }
        if self.errors.has_gone_out() {
            return Err(PassError::Broken(Rule::AfterError));
        }
        if self.client_went_on() {
            return Err(PassError::Broken(Rule::RequestAfterStart));
        }
        Ok(())
    }

    /// What the first OACK breaks that comes again with the same bytes, as `pass` says it: a client sends it, its end has
    /// sent an ERROR, or the server of a read has sent a block (RFC 1350, section 7; RFC 2347).
    pub fn pass_oack_again(&self, dir: Dir) -> Result<(), PassError>
        ensures finds { (h : Header) (passed : List Datagram) (d : Datagram) (given : OptionMap) → IsTransferAfter self.now h passed
            → HasAgreed self.now.exchange given → Says d dir (Message.Oack given)
            → Finds (MessageBreaks h self.now.asked passed dir (Message.Oack given)) (IsTransferAfter self.now h (d ∷ passed)) result }
        ensures takes_none { result ≢ Err PassErrorKind.Memory }
    {
        if author_of(self.named, dir) == End::Client {
            return Err(PassError::Broken(Rule::WrongKind));
        }
        if dir != Dir::Out {
            return Ok(());
        }
        let has_stopped = self.errors.has_gone_out();
        if has_stopped {
            return Err(PassError::Broken(Rule::AfterError));
        }
        if self.late_oack(dir) {
            return Err(PassError::Broken(Rule::OackAfterStart));
        }
        Ok(())
    }

    /// A request after the first one: it is not that one again, or it comes after a block or an ACK of the client (RFC
    /// 1350, section 4).
    #[inline(never)]
    fn pass_request(&mut self, dir: Dir, now: &RequestView<'_>) -> Result<(), PassError>
        ensures finds { (h : Header) (passed : List Datagram) (d : Datagram) → IsTransferAfter self.old h passed
            → Says d dir (Message.Request (parts now.now))
            → Finds (RequestBreaks self.old.asked passed dir (parts now.now)) (IsTransferAfter self.new h (d ∷ passed)) result }
        ensures takes_none { result ≢ Err PassErrorKind.Memory }
        ensures asked { self.new.asked ≡ self.old.asked }
        ensures err { OnErr result (self.new ≡ self.old) }
    {
        if !same_request(&self.asked, now) {
            return Err(PassError::Broken(Rule::RequestChanged));
        }
        if dir == Dir::Out && self.client_went_on() {
            return Err(PassError::Broken(Rule::RequestAfterStart));
        }
        Ok(())
    }

    /// An ERROR breaks none of these rules (RFC 1350, section 7).
    #[inline(never)]
    fn pass_error(
        &mut self,
        alloc: Global,
        dir: Dir,
        code: u16,
        message: &[u8],
        packet: &Packet<'_>,
    ) -> Result<(), PassError>
        requires { meaning packet.now ≡ Message.Error code message.now }
        ensures ok { (h : Header) (passed : List Datagram) (d : Datagram) → IsTransferAfter self.old h passed
            → Says d dir (Message.Error code message.now) → (GoesOn passed dir (Message.Error code message.now) → ⊥)
            → OnOk result (IsTransferAfter self.new h (d ∷ passed)) }
        ensures err { IfErr result (λ stop. stop ≡ PassErrorKind.Memory) }
        ensures absent { (h : Header) (passed : List Datagram) → IsTransferAfter self.old h passed
            → OnErr result (IsNew passed dir (Message.Error code message.now)) }
        ensures asked { self.new.asked ≡ self.old.asked }
        ensures err_stays { OnErr result (self.new ≡ self.old) }
    {
        self.errors.note(alloc, dir, code, message)?;
        self.exchange.pass(alloc, dir, packet)?;
        Ok(())
    }

    /// An OACK, by how the request was answered before (RFC 2347).
    #[inline(never)]
    fn pass_oack(
        &mut self,
        alloc: Global,
        dir: Dir,
        oack: &OptionsView<'_>,
    ) -> Result<(), PassError>
        ensures finds { (h : Header) (passed : List Datagram) (d : Datagram) → IsTransferAfter self.old h passed
            → Says d dir (Message.Oack (map_of oack.now))
            → Finds (OackBreaks h.rollover self.old.asked passed dir (map_of oack.now)) (IsTransferAfter self.new h (d ∷ passed)) result }
        ensures memory { (h : Header) (passed : List Datagram) → IsTransferAfter self.old h passed → result ≡ Err PassErrorKind.Memory
            → IsNew passed dir (Message.Oack (map_of oack.now)) }
        ensures asked { self.new.asked ≡ self.old.asked }
        ensures err { OnErr result (self.new ≡ self.old) }
    {
        match &self.exchange {
            Exchange::Begun(_) => Err(PassError::Broken(Rule::ReplyChanged)),
            Exchange::Agreed(first, _) => self.later_oack(dir, first, oack),
            Exchange::Unanswered => self.first_oack(alloc, oack),
        }
    }

    /// What an OACK breaks after the first one: it is not that one again, or the server of a read sends it after a block
    /// (RFC 2347).
    fn later_oack(
        &self,
        dir: Dir,
        first: &FirstOack,
        oack: &OptionsView<'_>,
    ) -> Result<(), PassError>
        ensures finds { (h : Header) (passed : List Datagram) → IsTransferAfter self.now h passed
            → Finds (LaterOackBreaks self.now.asked.side passed dir first.now (map_of oack.now)) (Unit {0}) result }
        ensures takes_none { result ≢ Err PassErrorKind.Memory }
    {
        if !same_options(first.agreed().options(), oack) {
            return Err(PassError::Broken(Rule::OackChanged));
        }
        if self.late_oack(dir) {
            return Err(PassError::Broken(Rule::OackAfterStart));
        }
        Ok(())
    }

    /// Whether an OACK goes out of the server of a read after a block (RFC 2347).
    fn late_oack(&self, dir: Dir) -> bool
        ensures { (h : Header) (passed : List Datagram) → IsTransferAfter self.now h passed
            → (IsTrue result ↔ ((dir ≡ Out) × (self.now.asked.side ≡ Get) × BlockSent passed)) }
    {
        dir == Dir::Out && self.asked.side() == Side::Get && self.block_sent
    }

    /// Whether the first OACK had these bytes. Where its bytes were not kept it is not known by them.
    #[inline]
    pub fn has_agreed_by(&self, payload: &[u8]) -> bool
        ensures { IsTrue result → IsAgreedBy self.now.exchange payload.now }
    {
        self.exchange.has_agreed_by(payload)
    }

    /// Keeps the bytes of a packet that has passed, where it is the first OACK; without memory for them it keeps none.
    pub fn keep_oack(&mut self, alloc: Global, packet: &Packet<'_>, payload: &[u8])
        requires { Spells payload.now (meaning packet.now) }
        ensures { self.new ≡ self.old }
    {
        if let Packet::Oack(oack) = packet {
            self.exchange.keep_oack(alloc, oack, payload);
        }
    }

    /// What the first OACK breaks: it has no option, or one that may not be agreed (RFC 2347; RFC 2348; RFC 2349;
    /// RFC 7440, section 3). Else the named end begins.
    fn first_oack(&mut self, alloc: Global, oack: &OptionsView<'_>) -> Result<(), PassError>
        requires { self.old.exchange ≡ Unanswered }
        ensures finds { (h : Header) (passed : List Datagram) (d : Datagram) → IsTransferAfter self.old h passed
            → Spells d.payload (Message.Oack (map_of oack.now))
            → Finds (FirstOackBreaks h.rollover self.old.asked (map_of oack.now)) (IsTransferAfter self.new h (d ∷ passed)) result }
        ensures asked { self.new.asked ≡ self.old.asked }
        ensures err { OnErr result (self.new ≡ self.old) }
    {
        let agreed = match agree(alloc, &self.asked, oack, self.rollover) {
            Ok(agreed) => agreed,
            Err(fault) => return Err(stop_of(fault)),
        };
        let end = self.begin(alloc, self.agreed_terms(&agreed));
        self.exchange = Exchange::Agreed(FirstOack::of(alloc, agreed), end);
        Ok(())
    }

    /// The named end, which begins with the first answer (RFC 1350, section 4; RFC 2347). Takes no memory.
    fn begin(&self, alloc: Global, terms: Terms) -> NamedEnd<D>
        requires blksize { 8 ≤ terms.blksize }
        requires windowsize { 1 ≤ terms.windowsize }
        ensures terms { terms_of result ≡ terms }
        ensures before { (passed : List Datagram) → AreErrors self.now.errors passed → IsBeforeBlocks passed → IsEndAfter result passed }
    {
        let store = D::new(alloc, terms.blksize, terms.windowsize);
        NamedEnd::new(terms, store, self.errors.has_heard())
    }

    /// What is known where nothing is agreed (RFC 1350, section 2).
    fn plain_terms(&self) -> Terms
        ensures are { (h : Header) → h.named ≡ self.now.named → h.rollover ≡ self.now.rollover
            → result ≡ plain_terms_of h self.now.asked.side Plain }
        ensures blksize { 8 ≤ result.blksize }
        ensures windowsize { 1 ≤ result.windowsize }
    {
        Terms {
            named: self.named,
            side: self.asked.side(),
            reply: Reply::Plain,
            blksize: 512,
            windowsize: 1,
            greatest: greatest_block(self.rollover),
            size: None,
        }
    }

    /// What is known where these options are agreed (RFC 2348; RFC 2349; RFC 7440).
    fn agreed_terms(&self, agreed: &Agreed) -> Terms
        ensures are { (h : Header) → h.named ≡ self.now.named → h.rollover ≡ self.now.rollover
            → result ≡ terms_after h self.now.asked (Agrees agreed.now) }
        ensures blksize { 8 ≤ result.blksize }
        ensures windowsize { 1 ≤ result.windowsize }
    {
        Terms {
            named: self.named,
            side: self.asked.side(),
            reply: Reply::Oacked,
            blksize: agreed.blksize(),
            windowsize: agreed.windowsize(),
            greatest: greatest_block(self.rollover),
            size: match self.asked.mode() {
                Mode::Octet => agreed.tsize(),
                Mode::Netascii => None,
            },
        }
    }

    /// A block or an ACK, by the rules of these (RFC 1350, sections 2, 4 and 5; RFC 7440, section 4).
    #[inline(always)]
    fn pass_block(&mut self, alloc: Global, dir: Dir, packet: &Packet<'_>) -> Result<(), PassError>
        requires { IsBlockOrAck (meaning packet.now) }
        ensures finds { (h : Header) (passed : List Datagram) (d : Datagram) → IsTransferAfter self.old h passed
            → Says d dir (meaning packet.now)
            → (IsWrongKind (author_by_way h.named dir) self.old.asked.side (meaning packet.now) → ⊥)
            → Finds (TermsBreak h self.old.asked passed (meaning packet.now)) (IsTransferAfter self.new h (d ∷ passed)) result }
        ensures memory { (h : Header) (passed : List Datagram) → IsTransferAfter self.old h passed → result ≡ Err PassErrorKind.Memory
            → IsNew passed dir (meaning packet.now) }
        ensures asked { self.new.asked ≡ self.old.asked }
        ensures err { OnErr result (self.new ≡ self.old) }
    {
        self.keep_block(alloc, dir, packet)?;
        self.note_sent(dir, packet);
        Ok(())
    }

    /// The named end keeps a block or an ACK that breaks no rule.
    #[inline(always)]
    fn keep_block(&mut self, alloc: Global, dir: Dir, packet: &Packet<'_>) -> Result<(), PassError>
        requires { IsBlockOrAck (meaning packet.now) }
        ensures finds { (h : Header) (passed : List Datagram) (d : Datagram) → IsTransferAfter self.old h passed
            → Says d dir (meaning packet.now)
            → (IsWrongKind (author_by_way h.named dir) self.old.asked.side (meaning packet.now) → ⊥)
            → Finds (TermsBreak h self.old.asked passed (meaning packet.now)) (IsExchange h self.old.asked (d ∷ passed) self.new.exchange) result }
        ensures memory { (h : Header) (passed : List Datagram) → IsTransferAfter self.old h passed → result ≡ Err PassErrorKind.Memory
            → IsNew passed dir (meaning packet.now) }
        ensures rest { DiffersByExchange self.old self.new }
        ensures err { OnErr result (self.new ≡ self.old) }
    {
        match &self.exchange {
            Exchange::Unanswered => self.pass_answer(alloc, dir, packet),
            _ => self.exchange.pass(alloc, dir, packet),
        }
    }

    /// The first block of a read, or the ACK 0 of a write, which answers the request without an OACK (RFC 1350, section
    /// 4).
    #[inline(never)]
    fn pass_answer(&mut self, alloc: Global, dir: Dir, packet: &Packet<'_>) -> Result<(), PassError>
        requires unanswered { self.old.exchange ≡ Unanswered }
        requires kind { IsBlockOrAck (meaning packet.now) }
        ensures finds { (h : Header) (passed : List Datagram) (d : Datagram) → IsTransferAfter self.old h passed
            → Says d dir (meaning packet.now)
            → (IsWrongKind (author_by_way h.named dir) self.old.asked.side (meaning packet.now) → ⊥)
            → Finds (TermsBreak h self.old.asked passed (meaning packet.now)) (IsExchange h self.old.asked (d ∷ passed) self.new.exchange) result }
        ensures memory { (h : Header) (passed : List Datagram) → IsTransferAfter self.old h passed → result ≡ Err PassErrorKind.Memory
            → IsNew passed dir (meaning packet.now) }
        ensures rest { DiffersByExchange self.old self.new }
        ensures err { OnErr result (self.new ≡ self.old) }
    {
        if waits_for_reply(self.asked.side(), packet) {
            return Err(PassError::Broken(Rule::Block(EndRule::NotStarted)));
        }
        let mut end = self.begin(alloc, self.plain_terms());
        end.pass(alloc, dir, packet)?;
        self.exchange = Exchange::Begun(end);
        Ok(())
    }

    /// Whether the named end has sent this packet, by what is kept and the flags of the ACKs that it has sent.
    pub fn has_sent(&self, acks: &SentAcks, packet: &Packet<'_>) -> bool
        ensures { IsTrue result ↔ HasSentBy self.now (flags_of acks.now) (meaning packet.now) }
    {
        match packet {
            Packet::Request(asked) => self.named == End::Client && same_request(&self.asked, asked),
            Packet::Oack(oack) => self.named == End::Server && self.exchange.has_agreed(oack),
            Packet::Data { block, bytes } => self.exchange.has_sent(*block, bytes),
            Packet::Ack { block } => acks.has(*block),
            Packet::Error { code, message } => self.errors.has_sent(*code, message),
        }
    }

    /// What the transfer means, or why it is none that is whole, after so many datagrams.
    pub fn finish(self, alloc: Global, count: u64) -> Result<Meaning, Refusal>
        requires some { (h : Header) × (earlier : List Datagram) × IsTransferOf self h earlier }
        ensures verdict { (h : Header) (earlier : List Datagram) → OneEnded h earlier → FirstAsked h earlier self.asked
            → IsTransferAfter self h (transfer_of h earlier) → count ≡ length earlier → IsVerdictByRules h (reverse earlier) result }
        ensures memory { (h : Header) (earlier : List Datagram) → OneEnded h earlier → FirstAsked h earlier self.asked
            → IsTransferAfter self h (transfer_of h earlier) → (total : ℕ) → result ≡ Err (RefusalKind.Memory total) → IsEnded h earlier }
        ensures joins { (h : Header) (earlier : List Datagram) → IsTransferAfter self h (transfer_of h earlier) → (total : ℕ)
            → result ≡ Err (RefusalKind.Memory total) → TakesForJoin D.join_takes (transfer_of h earlier) }
    {
        let Transfer {
            asked,
            exchange,
            errors,
            rollover,
            named: _,
            block_sent: _,
            ack_sent: _,
        } = self;
        let (agreed, end) = match exchange {
            Exchange::Unanswered => return Err(errors.unfinished(count)),
            Exchange::Begun(end) => (nothing_agreed(alloc), end),
            Exchange::Agreed(first, end) => (first.into_agreed(), end),
        };
        if !end.done() {
            return Err(errors.unfinished(count));
        }
        let file = match file_of(alloc, asked.mode(), end.into_store()) {
            Ok(file) => file,
            Err(_) => return Err(Refusal::Memory(count)),
        };
        let greatest = greatest_block(rollover);
        let Some(blocks) = written_blocks(agreed.blksize(), greatest, &file) else {
            return Err(Refusal::NormalTooLong);
        };
        Ok(Meaning::of(asked, agreed.into_options(), file, blocks))
    }

    /// Whether the client at this end has sent a block or an ACK.
    fn client_went_on(&self) -> bool
        ensures { (h : Header) (passed : List Datagram) → IsTransferAfter self.now h passed → (IsTrue result ↔ ClientWentOn passed) }
    {
        self.block_sent || self.ack_sent
    }

    /// Notes what the named end has sent.
    fn note_sent(&mut self, dir: Dir, packet: &Packet<'_>)
        ensures block_sent { (passed : List Datagram) (d : Datagram) → Says d dir (meaning packet.now)
            → ((self.old.block_sent ≡ true) ↔ BlockSent passed) → ((self.new.block_sent ≡ true) ↔ BlockSent (d ∷ passed)) }
        ensures ack_sent { (passed : List Datagram) (d : Datagram) → Says d dir (meaning packet.now)
            → ((self.old.ack_sent ≡ true) ↔ AckSent passed) → ((self.new.ack_sent ≡ true) ↔ AckSent (d ∷ passed)) }
        ensures rest { DiffersBySent self.old self.new }
    {
        if dir == Dir::Out {
            match packet {
                Packet::Data { .. } => self.block_sent = true,
                Packet::Ack { .. } => self.ack_sent = true,
                _ => {}
            }
        }
    }
}

/// Whether a packet is a block of a write, which waits for the reply (RFC 1350, section 4).
fn waits_for_reply(side: Side, packet: &Packet<'_>) -> bool
    ensures { IsTrue result ↔ WaitsForReply side (meaning packet.now) }
{
    match (side, packet) {
        (Side::Put, Packet::Data { .. }) => true,
        _ => false,
    }
}

/// Why an OACK that may not be agreed to does not pass (RFC 2347).
fn stop_of(fault: NegoFault) -> PassError
    ensures { result ≡ error_of_fault fault }
{
    match fault {
        NegoFault::Broken(rule) => PassError::Broken(Rule::Agreement(rule)),
        NegoFault::BeyondBlock65535 => PassError::Broken(Rule::Block(EndRule::BeyondBlock65535)),
        NegoFault::Memory => PassError::Memory,
    }
}
