ghost use Rattle.std.specs.Prelude.{◌≡◌, ◌↔◌, IsTrue, ◌+◌, ◌^◌, ◌<◌, ◌≤◌, ℕ, List, [], ◌∷◌, length, reverse, None, Some, OnOk, IfErr, Err};
ghost use Rattle.tftp_capture.specs.{datagram_of, header_of};
ghost use Rattle.tftp_packet.specs.{meaning};
ghost use Rattle.law_model.specs.Rules.{is_of_transfer, route_of, transfer_of};
ghost use Rattle.tftp_packet.specs.Hosts.{Datagram as DatagramParts, Header as HeaderParts};
ghost use Rattle.law_rollover.specs.{IsTaken, IsUnrolled};
ghost use Rattle.law_end.specs.{Passes, IsEnded};
ghost use Rattle.tftp_judge.specs.Found.{Refuses};
ghost use Rattle.tftp_judge.specs.Kept.{IsJudgeAfter};
ghost use Rattle.tftp_judge.specs.Memory.{TakesForJoin};
ghost use Rattle.tftp_judge.specs.SentByKept.{HasSentIn, flags_of};
ghost use Rattle.tftp_judge.specs.Verdicts.{IsVerdict};
ghost use Rattle.tftp_judge.specs.declared.refusal.Refusal.{Refusal as RefusalKind};

use crate::keeping::JudgeState;
use crate::meaning::Meaning;
use crate::pass_error::PassError;
use crate::refusal::Refusal;
use crate::sent_acks::SentAcks;
use std::alloc::Global;
use std::marker::Model;
use tftp_capture::{Datagram, Header};
use tftp_ends::blocks::Delivered;
use tftp_packet::Packet;
use tftp_packet::rounds::Rollover;

/// The judge of a capture, datagram by datagram (RFC 1350; RFC 2347; RFC 7440). It keeps no list of datagrams: what
/// it keeps are the transfer ids, the first request, what was agreed, a few numbers and the blocks.
pub struct Judge<D: Delivered + Drop> {
    state: JudgeState<D>,
    fed: u64,
    refused: Option<Refusal>,
}

impl<D: Delivered + Drop> Drop for Judge<D> {
    // written out, since the prover takes a derived one apart again wherever a value is let go
    fn drop(self) {
        let Judge {
            state: _,
            fed: _,
            refused: _,
        } = self;
    }
}

impl<D: Delivered + Drop> Model for Judge<D> {
    ghost use Rattle.std.specs.Coded.{codes};
    ghost use Rattle.tftp_ends.specs.StatesKept.{sender_code, receiver_code};
    ghost use Rattle.tftp_packet.specs.Owned.{options_code, parts_code};
    ghost use Rattle.tftp_judge.specs.Kept.{Judge, StandsForSome};

    ghost Value = { Judge };

    ghost coded = { Prim.hlevel (codes, sender_code, receiver_code, options_code, parts_code) };

    ghost view = { λ j. record { state = j.state; fed = j.fed; refused = j.refused } };

    ghost invariant = { λ j. StandsForSome (record { state = j.state; fed = j.fed; refused = j.refused }) };
}

impl<D: Delivered + Drop> Judge<D> {
    /// A judge that was fed nothing, of a capture with this header. Takes no memory.
    pub fn new(alloc: Global, header: &Header) -> Self
        ensures { IsJudgeAfter result (header_of header.now) [] }
    {
        Judge {
            state: JudgeState::new(alloc, header),
            fed: 0,
            refused: None,
        }
    }

    /// Takes the next datagram: Ok exactly if it breaks no rule after those that were accepted, and so if a run of two ends
    /// has them all. Else it answers the datagram's index, from 1, with the first rule that it breaks, or being out of memory
    /// with the number of those before it. After a refusal it answers that one for good. Memory is taken for the first
    /// request, the first OACK, a block that is not held, the first ERROR of a way and a stray from where none has come. A
    /// payload is at most what a packet of UDP holds.
    pub fn feed(&mut self, alloc: Global, datagram: &Datagram) -> Result<(), Refusal>
        requires few { self.old.fed < 2 ^ 40 }
        requires short { length datagram.now.payload ≤ 65527 }

        // For all datagrams that it stands for: it stands for them with this one, which passes.
        ensures accepts { (h : HeaderParts) (earlier : List DatagramParts) → IsJudgeAfter self.old h earlier
            → OnOk result (Passes h earlier (datagram_of datagram.now) × IsJudgeAfter self.new h (datagram_of datagram.now ∷ earlier)) }

        // Or the first rule that this one breaks; memory runs out only where it breaks none, and is one that takes some.
        ensures refuses { (h : HeaderParts) (earlier : List DatagramParts) → IsJudgeAfter self.old h earlier
            → IfErr result (Refuses h earlier (datagram_of datagram.now)) }
        ensures keeps { IfErr result (λ refusal. self.new.refused ≡ Some refusal) }
        ensures for_good { (refusal : RefusalKind) → self.old.refused ≡ Some refusal → (result ≡ Err refusal) × (self.new ≡ self.old) }
        ensures goes_on { self.old.refused ≡ None → OnOk result (self.new.refused ≡ None) }
        ensures counts { OnOk result (self.new.fed ≡ self.old.fed + 1) }
        ensures counted { IfErr result (λ _. self.new.fed ≡ self.old.fed) }

        // Where the datagram belongs; and a refusal leaves what is known of the transfer as it was.
        ensures routed { (h : HeaderParts) (earlier : List DatagramParts) → IsJudgeAfter self.old h earlier
            → OnOk result (self.new.state.of_transfer ≡ is_of_transfer (route_of h earlier (datagram_of datagram.now))) }
        ensures stays { IfErr result (λ _. self.new.state.transfer ≡ self.old.state.transfer) }
    {
        self.take(alloc, None, datagram)
    }

    /// The same where numbers begin again after 65535 (RFC 1350, section 5, gives them two bytes and says no more): a block's number is
    /// taken for the block near the highest that has passed.
    pub fn feed_numbered(
        &mut self,
        alloc: Global,
        rollover: Rollover,
        datagram: &Datagram,
    ) -> Result<(), Refusal>
        requires few { self.old.fed < 2 ^ 40 }
        requires short { length datagram.now.payload ≤ 65527 }

        // For all datagrams that it stands for: it stands for them with this one, with a block in the place of its number.
        ensures accepts { (h : HeaderParts) (earlier : List DatagramParts) (d : DatagramParts) → IsJudgeAfter self.old h earlier
            → IsUnrolled rollover (transfer_of h earlier) (datagram_of datagram.now) d
            → OnOk result (Passes h earlier d × IsJudgeAfter self.new h (d ∷ earlier)) }

        // Or the first rule that it breaks so; memory runs out only where it breaks none, and is one that takes some.
        ensures refuses { (h : HeaderParts) (earlier : List DatagramParts) (d : DatagramParts) → IsJudgeAfter self.old h earlier
            → IsUnrolled rollover (transfer_of h earlier) (datagram_of datagram.now) d → IfErr result (Refuses h earlier d) }
        ensures unrolls { (h : HeaderParts) (earlier : List DatagramParts) → IsJudgeAfter self.old h earlier
            → (d : DatagramParts) × IsUnrolled rollover (transfer_of h earlier) (datagram_of datagram.now) d }
        ensures keeps { IfErr result (λ refusal. self.new.refused ≡ Some refusal) }
        ensures for_good { (refusal : RefusalKind) → self.old.refused ≡ Some refusal → (result ≡ Err refusal) × (self.new ≡ self.old) }
        ensures goes_on { self.old.refused ≡ None → OnOk result (self.new.refused ≡ None) }
        ensures counts { OnOk result (self.new.fed ≡ self.old.fed + 1) }
        ensures counted { IfErr result (λ _. self.new.fed ≡ self.old.fed) }

        // Where the datagram belongs, as above.
        ensures routed { (h : HeaderParts) (earlier : List DatagramParts) (d : DatagramParts) → IsJudgeAfter self.old h earlier
            → IsUnrolled rollover (transfer_of h earlier) (datagram_of datagram.now) d
            → OnOk result (self.new.state.of_transfer ≡ is_of_transfer (route_of h earlier d)) }
        ensures stays { IfErr result (λ _. self.new.state.transfer ≡ self.old.state.transfer) }
    {
        self.take(alloc, Some(rollover), datagram)
    }

    /// Takes the next datagram, whose numbers begin again or do not.
    pub(crate) fn take(
        &mut self,
        alloc: Global,
        rollover: Option<Rollover>,
        datagram: &Datagram,
    ) -> Result<(), Refusal>
        requires few { self.old.fed < 2 ^ 40 }
        requires short { length datagram.now.payload ≤ 65527 }
        ensures accepts { (h : HeaderParts) (earlier : List DatagramParts) (d : DatagramParts) → IsJudgeAfter self.old h earlier
            → IsTaken rollover (transfer_of h earlier) (datagram_of datagram.now) d
            → OnOk result (Passes h earlier d × IsJudgeAfter self.new h (d ∷ earlier)) }
        ensures refuses { (h : HeaderParts) (earlier : List DatagramParts) (d : DatagramParts) → IsJudgeAfter self.old h earlier
            → IsTaken rollover (transfer_of h earlier) (datagram_of datagram.now) d → IfErr result (Refuses h earlier d) }
        ensures keeps { IfErr result (λ refusal. self.new.refused ≡ Some refusal) }
        ensures for_good { (refusal : RefusalKind) → self.old.refused ≡ Some refusal → (result ≡ Err refusal) × (self.new ≡ self.old) }
        ensures goes_on { self.old.refused ≡ None → OnOk result (self.new.refused ≡ None) }
        ensures counts { OnOk result (self.new.fed ≡ self.old.fed + 1) }
        ensures counted { IfErr result (λ _. self.new.fed ≡ self.old.fed) }
        ensures routed { (h : HeaderParts) (earlier : List DatagramParts) (d : DatagramParts) → IsJudgeAfter self.old h earlier
            → IsTaken rollover (transfer_of h earlier) (datagram_of datagram.now) d
            → OnOk result (self.new.state.of_transfer ≡ is_of_transfer (route_of h earlier d)) }
        ensures stays { IfErr result (λ _. self.new.state.transfer ≡ self.old.state.transfer) }
    {
        if let Some(refusal) = self.refused {
            return Err(refusal);
        }
        if let Err(stop) = self.state.pass(alloc, rollover, datagram) {
            let refusal = match stop {
                PassError::Broken(rule) => Refusal::Unlawful(self.fed + 1, rule),
                PassError::Memory => Refusal::Memory(self.fed),
            };
            self.refused = Some(refusal);
            return Err(refusal);
        }
        self.fed += 1;
        Ok(())
    }

    /// Whether the named end has sent this packet, the same message, by the datagrams of the transfer that were accepted (RFC
    /// 1350, section 2), also after a refusal. Of ACKs the judge keeps the highest alone, so their flags are the caller's.
    #[inline]
    pub fn has_sent(&self, acks: &SentAcks, packet: &Packet<'_>) -> bool
        ensures { IsTrue result ↔ HasSentIn self.now.state.transfer (flags_of acks.now) (meaning packet.now) }
    {
        self.state.has_sent(acks, packet)
    }

    /// Whether the last datagram that was accepted was one of the transfer, and neither a stray nor the answer to one (RFC
    /// 1350, section 4). After a refusal it tells nothing.
    #[inline]
    pub fn last_was_of_transfer(&self) -> bool
        ensures { result ≡ self.now.state.of_transfer }
    {
        self.state.last_was_of_transfer()
    }

    /// The refusal that it answers for good, if it has refused a datagram.
    #[inline]
    pub fn refused(&self) -> Option<Refusal>
        ensures { result ≡ self.now.refused }
    {
        self.refused
    }

    /// How many datagrams were accepted.
    #[inline]
    pub fn fed(&self) -> u64
        ensures { result ≡ self.now.fed }
    {
        self.fed
    }

    /// What the datagrams mean, or why they are not accepted. Memory is taken only of a whole transfer, and only by a store
    /// that takes it to join the blocks that have passed.
    pub fn finish(self, alloc: Global) -> Result<Meaning, Refusal>
        ensures verdict { (h : HeaderParts) (earlier : List DatagramParts) → IsJudgeAfter self h earlier → IsVerdict h (reverse earlier) result }
        ensures memory { (h : HeaderParts) (earlier : List DatagramParts) (count : ℕ) → IsJudgeAfter self h earlier
            → result ≡ Err (RefusalKind.Memory count) → IsEnded h earlier }
        ensures joins { (h : HeaderParts) (earlier : List DatagramParts) (count : ℕ) → IsJudgeAfter self h earlier
            → result ≡ Err (RefusalKind.Memory count) → TakesForJoin D.join_takes (transfer_of h earlier) }
        ensures for_good { (refusal : RefusalKind) → self.refused ≡ Some refusal → result ≡ Err refusal }
    {
        let Judge {
            state,
            fed,
            refused,
        } = self;
        if let Some(refusal) = refused {
            return Err(refusal);
        }
        match state.into_transfer() {
            Some(transfer) => transfer.finish(alloc, fed),
            None => Err(Refusal::Incomplete(fed)),
        }
    }
}
