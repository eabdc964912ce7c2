//! The judge of one end, which is given each datagram that passed there.

ghost use Rattle.std.specs.Prelude.{◌≡◌, ◌+◌, ◌^◌, ◌<◌, ◌≤◌, ◌∷◌, ℕ, List, [], length, vec_len, Option, Err, None, Some, OnOk, OnErr};
ghost use Rattle.tftp_capture.specs.{datagram_of, header_of};
ghost use Rattle.tftp_packet.specs.Hosts.{Datagram as DatagramParts, Header as HeaderParts};
ghost use Rattle.law_model.specs.Rules.{transfer_of};
ghost use Rattle.tftp_judge.specs.{TakesForJoin, Refusal as RefusalKind};
ghost use Rattle.law_end.specs.{IsEnded};
ghost use Rattle.tftp_packet.specs.{Rollover};
ghost use Rattle.audit_views.specs.Views.Captured.{captured_as};
ghost use Rattle.audit_views.specs.Views.Judged.{HasJudged, HasJudgedBy, HoldsOf, IsFoundBy};

use crate::views::fed::Fed;
use crate::views::ways::captured;
use std::alloc::{AllocError, Global};
use std::marker::Model;
use tftp_capture::{Datagram, Header};
use tftp_ends::blocks::Delivered;
use tftp_judge::{Judge, Meaning, Refusal};
use tftp_packet::Bytes;
use tftp_packet::hosts::Dir;
use tftp_packet::rounds::Rollover;

/// A judge, and memory for one datagram, into which each is copied. Where numbers begin again after block 65535, it takes a
/// number for the block near the highest that has passed there.
#[derive(Drop)]
pub struct EndJudge<D: Delivered + Drop> {
    judge: Judge<D>,
    rollover: Option<Rollover>,
    datagram: Datagram,
}

impl<D: Delivered + Drop> Model for EndJudge<D> {
    ghost use Rattle.std.specs.Coded.{codes};
    ghost use Rattle.std.specs.Prelude.{length};
    ghost use Rattle.tftp_ends.specs.StatesKept.{sender_code, receiver_code};
    ghost use Rattle.tftp_packet.specs.Owned.{options_code, parts_code};
    ghost use Rattle.audit_views.specs.Views.Judged.{StandsBy};
    ghost use Rattle.audit_views.specs.Views.Kept.{OneEnd};

    ghost Value = { OneEnd };

    ghost coded = { Prim.hlevel (codes, sender_code, receiver_code, options_code, parts_code) };

    ghost view = { λ e. record { judge = e.judge; room = length e.datagram.payload } };

    ghost invariant = { λ e. StandsBy e.rollover e.judge };
}

impl<D: Delivered + Drop> EndJudge<D> {
    /// A judge that was given nothing, of a capture with this header, which says what comes after block 65535. Takes no memory.
    pub fn new(alloc: Global, header: &Header) -> Self
        ensures judged { HasJudged result.judge (header_of header.now) [] }
        ensures none { result.judge.fed ≡ 0 }
        ensures goes_on { result.judge.refused ≡ None }
    {
        EndJudge {
            judge: Judge::new(alloc, header),
            rollover: header.rollover,
            datagram: Datagram::empty(alloc),
        }
    }

    /// Gives it the next datagram, which passed its end this way; a refusal it keeps. Memory for the payload is wanted only of one that is longer than the
    /// one before it, and then it was not given it.
    pub fn put(&mut self, alloc: Global, dir: Dir, fed: &Fed<'_>) -> Result<(), AllocError>
        requires few { self.old.judge.fed < 2 ^ 40 }
        requires short { length fed.now.payload.now ≤ 65527 }
        ensures judged { (rollover : Option Rollover) (h : HeaderParts) (given : List DatagramParts) → h.rollover ≡ None → HasJudgedBy rollover self.old.judge h given
            → OnOk result (HasJudgedBy rollover self.new.judge h (captured_as dir fed.now.source.now fed.now.target.now fed.now.payload.now ∷ given)) }
        ensures room { OnOk result (self.new.room ≡ length fed.now.payload.now) }
        ensures longer { OnErr result (self.old.room < length fed.now.payload.now) }
        ensures same { OnErr result (self.new ≡ self.old) }
        ensures counts { self.new.judge.fed ≤ self.old.judge.fed + 1 }
        ensures for_good { (refusal : RefusalKind) → self.old.judge.refused ≡ Some refusal → self.new.judge ≡ self.old.judge }
    {
        let mut bytes = self.datagram.payload.take();
        if let Err(error) = refill(&mut bytes, fed.payload) {
            self.datagram.payload = Bytes::of(bytes);
            return Err(error);
        }
        self.give(
            alloc,
            captured(dir, fed.source, fed.target, Bytes::of(bytes)),
        );
        Ok(())
    }

    /// Gives it the next datagram, whose memory it takes over; a refusal it keeps.
    pub fn give(&mut self, alloc: Global, datagram: Datagram)
        requires few { self.old.judge.fed < 2 ^ 40 }
        requires short { length datagram.payload ≤ 65527 }
        ensures judged { (rollover : Option Rollover) (h : HeaderParts) (given : List DatagramParts) → h.rollover ≡ None → HasJudgedBy rollover self.old.judge h given
            → HasJudgedBy rollover self.new.judge h (datagram_of datagram ∷ given) }
        ensures room { self.new.room ≡ length datagram.payload }
        ensures counts { self.new.judge.fed ≤ self.old.judge.fed + 1 }
        ensures for_good { (refusal : RefusalKind) → self.old.judge.refused ≡ Some refusal → self.new.judge ≡ self.old.judge }
    {
        self.datagram = datagram;
        feed(&mut self.judge, alloc, self.rollover, &self.datagram);
    }

    /// How many datagrams were accepted.
    pub fn fed(&self) -> u64
        ensures { result ≡ self.now.judge.fed }
    {
        self.judge.fed()
    }

    /// What it refused a datagram for, or that memory ran out for one, which it will answer in the end.
    pub fn refused(&self) -> Option<Refusal>
        ensures { result ≡ self.now.judge.refused }
    {
        self.judge.refused()
    }

    /// What there is to say of all that it was given: the verdict of the text that has just them, or being out of memory. That
    /// comes for the datagram that it was wanting for, or of a whole transfer whose store takes memory to join the blocks.
    pub fn finish(self, alloc: Global) -> Result<Meaning, Refusal>
        ensures judged { (rollover : Option Rollover) (h : HeaderParts) (given : List DatagramParts) → HasJudgedBy rollover self.judge h given
            → IsFoundBy rollover h given result }
        ensures for_good { (refusal : RefusalKind) → self.judge.refused ≡ Some refusal → result ≡ Err refusal }
        ensures memory { (rollover : Option Rollover) (h : HeaderParts) (given : List DatagramParts) (count : ℕ) → HasJudgedBy rollover self.judge h given
            → self.judge.refused ≡ None → result ≡ Err (RefusalKind.Memory count)
            → HoldsOf rollover (λ k taken. IsEnded k taken × TakesForJoin D.join_takes (transfer_of k taken)) h given }
    {
        let EndJudge { judge, .. } = self;
        judge.finish(alloc)
    }
}

/// Gives a judge the next datagram, whose numbers begin again or do not; a refusal it keeps.
fn feed<D: Delivered + Drop>(
    judge: &mut Judge<D>,
    alloc: Global,
    rollover: Option<Rollover>,
    datagram: &Datagram,
)
    requires few { judge.old.fed < 2 ^ 40 }
    requires short { length datagram.now.payload ≤ 65527 }
    ensures judged { (h : HeaderParts) (given : List DatagramParts) → HasJudgedBy rollover judge.old h given
        → HasJudgedBy rollover judge.new h (datagram_of datagram.now ∷ given) }
    ensures counts { judge.new.fed ≤ judge.old.fed + 1 }
    ensures for_good { (refusal : RefusalKind) → judge.old.refused ≡ Some refusal → judge.new ≡ judge.old }
{
    match rollover {
        Some(rollover) => {
            let _kept = judge.feed_numbered(alloc, rollover, datagram);
        }
        None => {
            let _kept = judge.feed(alloc, datagram);
        }
    }
}

/// Puts other bytes in place of what it has.
fn refill(bytes: &mut Vec<u8>, payload: &[u8]) -> Result<(), AllocError>
    ensures ok { OnOk result (bytes.new.items ≡ payload.now) }
    ensures longer { OnErr result (vec_len bytes.old < length payload.now) }
    ensures err { OnErr result (bytes.new.items ≡ bytes.old.items) }
{
    if bytes.len() < payload.len() {
        bytes.reserve(payload.len() - bytes.len())?;
    }
    bytes.clear();
    bytes.extend_from_slice(payload)
}
