ghost use Rattle.std.specs.Prelude.{◌≡◌, ◌+◌, ◌^◌, ◌<◌, ◌≤◌, ℕ, List, [], ◌∷◌, length, None, Some, OnOk, IfErr, Err};
ghost use Rattle.law_tap.specs.{TapDatagram as Passing, TapSides, AreApart, TapPasses, IsTakenBetween, IsUnrolledBetween, transfer_between};
ghost use Rattle.judge_tap.specs.TapKept.{IsTapJudge};
ghost use Rattle.judge_tap.specs.TapStops.{IsCertainByRule, RefusesAtTap, passing_as, passing_of};
ghost use Rattle.judge_tap.specs.ToldKept.{IsStandingBy};
ghost use Rattle.judge_tap.specs.TapVerdict.{IsTapVerdict};
ghost use Rattle.judge_tap.specs.declared.refusal.TapRefusal.{TapRefusal as RefusalKind};

use crate::datagram::TapDatagram;
use crate::keeping::TapState;
use crate::refusal::TapRefusal;
use law_end::Rule;
use law_tap::{Sides, stands_whatever_is_missing};
use std::alloc::Global;
use std::marker::Model;
use tftp_ends::blocks::Delivered;
use tftp_judge::{Meaning, PassError};
use tftp_packet::rounds::Rollover;

/// The judge of a capture that was taken at a point between the ends, datagram by datagram (RFC 1350; RFC 2347; RFC 7440). It is
/// told who the client is, where it asks and who the server is. It keeps no list of datagrams: what it keeps are the ways that
/// they went, what had passed before an ERROR, and the judge of the end that gets the file.
pub struct TapJudge<D: Delivered + Drop> {
    state: TapState<D>,
    fed: u64,
    refused: Option<TapRefusal>,
}

impl<D: Delivered + Drop> Drop for TapJudge<D> {
    // written out, since the prover takes a derived one apart again wherever a value is let go
    fn drop(self) {
        let TapJudge {
            state: _,
            fed: _,
            refused: _,
        } = self;
    }
}

impl<D: Delivered + Drop> Model for TapJudge<D> {
    ghost use Rattle.std.specs.Coded.{codes};
    ghost use Rattle.tftp_ends.specs.StatesKept.{sender_code, receiver_code};
    ghost use Rattle.tftp_packet.specs.Owned.{options_code, parts_code};
    ghost use Rattle.judge_tap.specs.TapKept.{IsFedWithin, TapJudge};

    ghost Value = { TapJudge };

    ghost coded = { Prim.hlevel (codes, sender_code, receiver_code, options_code, parts_code) };

    ghost view = { λ j. record { state = j.state; fed = j.fed; refused = j.refused } };

    ghost invariant = { λ j. IsFedWithin (record { state = j.state; fed = j.fed; refused = j.refused }) };
}

impl<D: Delivered + Drop> TapJudge<D> {
    /// A judge that was fed nothing, of a transfer with these sides. The client is neither the server nor where it asks. Takes no
    /// memory.
    pub fn new(alloc: Global, sides: Sides) -> Self
        ensures after { AreApart sides → IsTapJudge result sides [] }
        ensures goes_on { result.refused ≡ None }
    {
        TapJudge {
            state: TapState::new(alloc, sides),
            fed: 0,
            refused: None,
        }
    }

    /// Takes the next datagram: Ok exactly if it breaks no rule after those that were accepted, and so if some run of two ends
    /// passes them all here. Else it answers the datagram's index, from 1, with the first rule that it breaks, or being out of memory
    /// with the number of those before it. After a refusal it answers that one for good. Memory is taken for a way that none has
    /// gone, the first request, the first OACK, a block that has not passed and the first ERROR of an end. A payload is at most
    /// what a packet of UDP holds. With a rule it answers whether no lawful list has the datagram, whatever the recorder missed.
    pub fn feed(&mut self, alloc: Global, datagram: TapDatagram) -> Result<(), TapRefusal>
        requires few { self.old.fed < 2 ^ 40 }
        requires short { length datagram.payload ≤ 65527 }

        // For all datagrams that it stands for: it stands for them with this one, which passes.
        ensures accepts { (s : TapSides) (earlier : List Passing) → IsTapJudge self.old s earlier
            → OnOk result (TapPasses s earlier (passing_of datagram) × IsTapJudge self.new s (passing_of datagram ∷ earlier)) }

        // Or the first rule that this one breaks, and whether that stands whatever is missing; memory runs out only where it breaks
        // none, and is one that takes some.
        ensures refuses { (s : TapSides) (earlier : List Passing) → IsTapJudge self.old s earlier
            → IfErr result (RefusesAtTap s earlier (passing_of datagram)) }

        // Some rules are certain by their name: then no lawful list has the datagram, whatever the recorder missed.
        ensures certain { (s : TapSides) (earlier : List Passing) → IsTapJudge self.old s earlier
            → IfErr result (IsCertainByRule s earlier (passing_of datagram)) }
        ensures keeps { IfErr result (λ refusal. self.new.refused ≡ Some refusal) }
        ensures for_good { (refusal : RefusalKind) → self.old.refused ≡ Some refusal → (result ≡ Err refusal) × (self.new ≡ self.old) }
        ensures goes_on { self.old.refused ≡ None → OnOk result (self.new.refused ≡ None) }
        ensures counts { OnOk result (self.new.fed ≡ self.old.fed + 1) }
        ensures counted { IfErr result (λ _. self.new.fed ≡ self.old.fed) }
    {
        self.take(alloc, None, datagram)
    }

    /// The same where numbers begin again after 65535 (RFC 1350, section 5, gives them two bytes and says no more): a block's number is
    /// taken for the block near the highest that has passed.
    pub fn feed_numbered(
        &mut self,
        alloc: Global,
        rollover: Rollover,
        datagram: TapDatagram,
    ) -> Result<(), TapRefusal>
        requires few { self.old.fed < 2 ^ 40 }
        requires short { length datagram.payload ≤ 65527 }

        // For all datagrams that it stands for: it stands for them with this one, with a block in the place of its number.
        ensures accepts { (s : TapSides) (earlier : List Passing) (d : Passing) → IsTapJudge self.old s earlier
            → IsUnrolledBetween rollover (transfer_between s earlier) (passing_of datagram) d
            → OnOk result (TapPasses s earlier d × IsTapJudge self.new s (d ∷ earlier)) }

        // Or the first rule that it breaks so, and whether that stands whatever is missing; memory runs out only where it breaks none,
        // and is one that takes some.
        ensures refuses { (s : TapSides) (earlier : List Passing) (d : Passing) → IsTapJudge self.old s earlier
            → IsUnrolledBetween rollover (transfer_between s earlier) (passing_of datagram) d → IfErr result (RefusesAtTap s earlier d) }

        // Some rules are certain by their name, as above.
        ensures certain { (s : TapSides) (earlier : List Passing) (d : Passing) → IsTapJudge self.old s earlier
            → IsUnrolledBetween rollover (transfer_between s earlier) (passing_of datagram) d → IfErr result (IsCertainByRule s earlier d) }
        ensures unrolls { (s : TapSides) (earlier : List Passing) → IsTapJudge self.old s earlier
            → (d : Passing) × IsUnrolledBetween rollover (transfer_between s earlier) (passing_of datagram) d }
        ensures keeps { IfErr result (λ refusal. self.new.refused ≡ Some refusal) }
        ensures for_good { (refusal : RefusalKind) → self.old.refused ≡ Some refusal → (result ≡ Err refusal) × (self.new ≡ self.old) }
        ensures goes_on { self.old.refused ≡ None → OnOk result (self.new.refused ≡ None) }
        ensures counts { OnOk result (self.new.fed ≡ self.old.fed + 1) }
        ensures counted { IfErr result (λ _. self.new.fed ≡ self.old.fed) }
    {
        self.take(alloc, Some(rollover), datagram)
    }

    /// Takes the next datagram, whose numbers begin again or do not.
    fn take(
        &mut self,
        alloc: Global,
        rollover: Option<Rollover>,
        datagram: TapDatagram,
    ) -> Result<(), TapRefusal>
        requires few { self.old.fed < 2 ^ 40 }
        requires short { length datagram.payload ≤ 65527 }
        ensures accepts { (s : TapSides) (earlier : List Passing) (now : List ℕ) → IsTapJudge self.old s earlier
            → IsTakenBetween rollover (transfer_between s earlier) datagram.payload now
            → OnOk result (TapPasses s earlier (passing_as datagram now) × IsTapJudge self.new s (passing_as datagram now ∷ earlier)) }
        ensures refuses { (s : TapSides) (earlier : List Passing) (now : List ℕ) → IsTapJudge self.old s earlier
            → IsTakenBetween rollover (transfer_between s earlier) datagram.payload now
            → IfErr result (RefusesAtTap s earlier (passing_as datagram now)) }
        ensures certain { (s : TapSides) (earlier : List Passing) (now : List ℕ) → IsTapJudge self.old s earlier
            → IsTakenBetween rollover (transfer_between s earlier) datagram.payload now
            → IfErr result (IsCertainByRule s earlier (passing_as datagram now)) }
        ensures keeps { IfErr result (λ refusal. self.new.refused ≡ Some refusal) }
        ensures for_good { (refusal : RefusalKind) → self.old.refused ≡ Some refusal → (result ≡ Err refusal) × (self.new ≡ self.old) }
        ensures goes_on { self.old.refused ≡ None → OnOk result (self.new.refused ≡ None) }
        ensures counts { OnOk result (self.new.fed ≡ self.old.fed + 1) }
        ensures counted { IfErr result (λ _. self.new.fed ≡ self.old.fed) }
    {
        if let Some(refusal) = self.refused {
            return Err(refusal);
        }
        if let Err(stop) = self.state.pass(alloc, rollover, datagram) {
            let refusal = match stop {
                PassError::Broken(rule) => {
                    let stands = standing_by(rule, self.state.stands());
                    TapRefusal::Unlawful(self.fed + 1, rule, stands)
                }
                PassError::Memory => TapRefusal::Memory(self.fed),
            };
            self.refused = Some(refusal);
            return Err(refusal);
        }
        self.fed += 1;
        Ok(())
    }

    /// The refusal that it answers for good, if it has refused a datagram.
    #[inline]
    pub fn refused(&self) -> Option<TapRefusal>
        ensures { result ≡ self.now.refused }
    {
        self.refused
    }

    /// How many datagrams were accepted.
    #[inline]
    pub fn fed(&self) -> u64
        ensures { result ≡ self.now.fed }
    {
        self.fed
    }

    /// What the datagrams mean, or why they are not accepted. Memory is taken only of a whole transfer.
    pub fn finish(self, alloc: Global) -> Result<Meaning, TapRefusal>
        ensures verdict { (s : TapSides) (earlier : List Passing) → IsTapJudge self s earlier → IsTapVerdict s earlier result }
        ensures for_good { (refusal : RefusalKind) → self.refused ≡ Some refusal → result ≡ Err refusal }
    {
        let TapJudge {
            state,
            fed,
            refused,
        } = self;
        if let Some(refusal) = refused {
            return Err(refusal);
        }
        match state.into_transfer() {
            Some(transfer) => transfer.finish(alloc, fed),
            None => Err(TapRefusal::Incomplete(fed)),
        }
    }
}

/// Whether a refusal stands whatever is missing: by its rule's name where that tells it, and else by what is told of the datagram.
fn standing_by(rule: Rule, told: Option<bool>) -> Option<bool>
    ensures { IsStandingBy rule told result }
{
    if stands_whatever_is_missing(rule) {
        Some(true)
    } else {
        told
    }
}
