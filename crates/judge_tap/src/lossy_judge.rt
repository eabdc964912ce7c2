ghost use Rattle.std.specs.Prelude.{◌≡◌, ◌+◌, ◌^◌, ◌<◌, List, [], ◌∷◌, None, Some, OnOk, IfErr, Err};
ghost use Rattle.law_tap.specs.{AreApart, TapDatagram as Passing, TapSides};
ghost use Rattle.judge_tap.specs.TapStops.{passing_of};
ghost use Rattle.judge_tap.specs.LossyKept.{HasBegun, IsLossyJudge, IsNotCertain, RefusesWithLosses};
ghost use Rattle.judge_tap.specs.declared.lossy_refusal.LossyRefusal.{LossyRefusal as RefusalKind};

use crate::datagram::TapDatagram;
use crate::lossy_refusal::LossyRefusal;
use crate::lossy_state::LossyState;
use law_tap::Sides;
use std::alloc::Global;
use std::marker::Model;
use tftp_judge::PassError;

/// The judge of a capture that was taken at a point between the ends by a recorder that may have missed any of what passed, datagram
/// by datagram (RFC 1350; RFC 2347; RFC 7440). It is told who the client is, where it asks and who the server is. It keeps what
/// was said, and not in which order. A datagram costs it no more where many came before, but for the search of one block among
/// those that it keeps.
#[derive(Drop)]
pub struct LossyJudge {
    state: LossyState,
    fed: u64,
    refused: Option<LossyRefusal>,
}

impl Model for LossyJudge {
    ghost use Rattle.std.specs.Coded.{codes};
    ghost use Rattle.tftp_packet.specs.Owned.{options_code, parts_code};
    ghost use Rattle.judge_tap.specs.Said.{blocks_code};
    ghost use Rattle.judge_tap.specs.LossyKept.{LossyJudge};

    ghost Value = { LossyJudge };

    ghost coded = { Prim.hlevel (codes, blocks_code, options_code, parts_code) };

    ghost view = { λ j. record { state = j.state; fed = j.fed; refused = j.refused } };
}

impl LossyJudge {
    /// A judge that was fed nothing, of a transfer with these sides. The client is neither the server nor where it asks. Takes no
    /// memory.
    pub fn new(sides: Sides) -> Self
        ensures after { AreApart sides → IsLossyJudge result sides [] }
        ensures goes_on { result.refused ≡ None }
    {
        LossyJudge {
            state: LossyState::new(sides),
            fed: 0,
            refused: None,
        }
    }

    /// Takes the next datagram: it is refused exactly if it is certain to break the law with those that were accepted, whatever the
    /// recorder missed, where what was recorded of the transfer begins with its request. Where it does not, what is refused is
    /// certain too, and the judge goes by the two sides and the form of a datagram alone. The answer is the datagram's index, from
    /// 1, with a rule that it breaks, or being out of memory with the number of those before it. After a refusal it answers that one
    /// for good. Memory is taken for the first request, the first OACK, a block of which none with its number was accepted and the
    /// first ERROR of an end.
    pub fn feed(&mut self, alloc: Global, datagram: &TapDatagram) -> Result<(), LossyRefusal>
        requires few { self.old.fed < 2 ^ 40 }

        // For all datagrams that it stands for: it stands for them with this one.
        ensures accepts { (s : TapSides) (earlier : List Passing) → IsLossyJudge self.old s earlier
            → OnOk result (IsLossyJudge self.new s (passing_of datagram.now ∷ earlier)) }

        // And this one is not certain to break the law, where the request was the first of the transfer.
        ensures not_certain { (s : TapSides) (earlier : List Passing) → IsLossyJudge self.old s earlier
            → HasBegun s (passing_of datagram.now ∷ earlier) → OnOk result (IsNotCertain s earlier (passing_of datagram.now)) }

        // Or it is certain to; memory runs out only where some is taken.
        ensures refuses { (s : TapSides) (earlier : List Passing) → IsLossyJudge self.old s earlier
            → IfErr result (RefusesWithLosses s earlier (passing_of datagram.now)) }
        ensures keeps { IfErr result (λ refusal. self.new.refused ≡ Some refusal) }
        ensures for_good { (refusal : RefusalKind) → self.old.refused ≡ Some refusal → (result ≡ Err refusal) × (self.new ≡ self.old) }
        ensures goes_on { self.old.refused ≡ None → OnOk result (self.new.refused ≡ None) }
        ensures counts { OnOk result (self.new.fed ≡ self.old.fed + 1) }
        ensures counted { IfErr result (λ _. self.new.fed ≡ self.old.fed) }
    {
        if let Some(refusal) = self.refused {
            return Err(refusal);
        }
        if let Err(stop) = self.state.pass(alloc, datagram) {
            let refusal = match stop {
                PassError::Broken(rule) => LossyRefusal::Certain(self.fed + 1, rule),
                PassError::Memory => LossyRefusal::Memory(self.fed),
            };
            self.refused = Some(refusal);
            return Err(refusal);
        }
        self.fed += 1;
        Ok(())
    }

    /// The refusal that it answers for good, if it has refused a datagram.
    #[inline]
    pub fn refused(&self) -> Option<LossyRefusal>
        ensures { result ≡ self.now.refused }
    {
        self.refused
    }

    /// How many datagrams were accepted.
    #[inline]
    pub fn fed(&self) -> u64
        ensures { result ≡ self.now.fed }
    {
        self.fed
    }
}
