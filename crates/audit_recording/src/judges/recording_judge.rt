//! The judge of a whole recording.

ghost use Rattle.std.specs.Prelude.{◌≡◌, ◌≢◌, ◌≤◌, ◌+◌, ◌^◌, ◌<◌, ◌∷◌, ◌⊎◌, ℕ, List, [], length, max, IfOk, IfSome, IsErr, IsSome, MatchBool, MatchOption, OnErr, OnOk, Err, None, Some, true, false};
ghost use Rattle.audit_recording.specs.Judges.Kept.{AreCrowded, IsCalled, IsWatching, StandsAfter, is_among, opened};
ghost use Rattle.audit_flows.specs.Lines.{doubts_of, clock, line, live, may_be_tftp, Recorded};
ghost use Rattle.audit_flows.specs.{Nowhere};
ghost use Rattle.audit_flows.specs.Transfers.{IsRecorded, place_of, placed};
ghost use Rattle.audit_flows.specs.{AttributionFault};
ghost use Rattle.audit_views.specs.Views.{Naming};

use crate::judges::hands::{hand_on, open};
use crate::judges::judging::Judging;
use crate::judges::watched::Watched;
use audit_flows::lines::Endpoint;
use audit_flows::transfers::{Attributed, Attribution, AttributionFault};
use audit_views::views::{Fed, Party};
use std::alloc::{AllocError, Global};
use std::collections::BTreeMap;
use std::marker::Model;
use tftp_ends::blocks::Delivered;

/// The judge of a whole recording, fed from its first datagram to its last: it divides what passed into transfers, and
/// judges each where that is wanted.
#[derive(Drop)]
pub struct RecordingJudge<D: Delivered + Drop> {
    attribution: Attribution,
    watched: BTreeMap<u64, Watched<D>>,
    failed: bool,
    judging: Judging,
}

impl<D: Delivered + Drop> Model for RecordingJudge<D> {
    ghost use Rattle.std.specs.Coded.{codes};
    ghost use Rattle.std_collections.specs.Layout.BTreeMap.{btree_map_code};
    ghost use Rattle.std_collections.specs.Layout.BTreeSet.{btree_set_code};
    ghost use Rattle.tftp_ends.specs.StatesKept.{sender_code, receiver_code};
    ghost use Rattle.tftp_packet.specs.Owned.{options_code, parts_code};
    ghost use Rattle.audit_recording.specs.Judges.Kept.{RecordingJudge};

    ghost Value = { RecordingJudge };

    ghost coded = { Prim.hlevel (codes, btree_map_code, btree_set_code, sender_code, receiver_code, options_code, parts_code) };

    ghost view = { λ j. record { attribution = j.attribution; watched = j.watched; failed = j.failed; judging = j.judging } };
}

impl<D: Delivered + Drop> RecordingJudge<D> {
    /// Nothing has passed. Requests go to port 69 (RFC 1350, section 4) and to the ports that are named.
    pub fn new(alloc: Global, named: &[u16], judging: Judging) -> Result<Self, AllocError>
        ensures stands { (name : Naming) → IfOk result (λ r. StandsAfter r named.now name [] []) }
        ensures judging { IfOk result (λ r. r.judging ≡ judging) }
    {
        Ok(RecordingJudge {
            attribution: Attribution::new(alloc, named)?,
            watched: BTreeMap::new(alloc),
            failed: false,
            judging,
        })
    }

    /// Where it judges the transfers.
    pub fn judging(&self) -> Judging
        ensures { result ≡ self.now.judging }
    {
        self.judging
    }

    /// Takes the next datagram of the recording, and answers where it belongs and what it makes doubtful. The time is in
    /// nanoseconds; `is_spelled` says whether the payload spells a request from its first byte to its last. After a fault
    /// it has failed for good.
    pub fn feed(
        &mut self,
        alloc: Global,
        time: u64,
        source: &Party,
        target: &Party,
        payload: &[u8],
        is_spelled: bool,
    ) -> Result<Attributed, AttributionFault>
        requires short { length payload.now ≤ 65527 }
        ensures place { (named : List ℕ) (name : Naming) (out : List ℕ) (recorded : List Recorded) (d : Recorded)
            → StandsAfter self.old named name out recorded
            → IsRecorded d time source.now.end target.now.end payload.now is_spelled
            → IfOk result (λ found. found.place ≡ place_of named (placed named recorded) (max time (clock (placed named recorded))) d) }
        ensures doubts { (named : List ℕ) (name : Naming) (out : List ℕ) (recorded : List Recorded) (d : Recorded)
            → StandsAfter self.old named name out recorded
            → IsRecorded d time source.now.end target.now.end payload.now is_spelled
            → IfOk result (λ found. found.doubts ≡ doubts_of (record { datagram = d; moment = max time (clock (placed named recorded)); place = found.place }) (placed named recorded)) }
        ensures stands { (named : List ℕ) (name : Naming) (out : List ℕ) (recorded : List Recorded) (d : Recorded)
            → StandsAfter self.old named name out recorded
            → IsRecorded d time source.now.end target.now.end payload.now is_spelled
            → IsCalled name source.now → IsCalled name target.now
            → OnOk result (StandsAfter self.new named name out (d ∷ recorded)) }
        ensures spare { (named : List ℕ) (name : Naming) (out : List ℕ) (recorded : List Recorded) (d : Recorded)
            → StandsAfter self.old named name out recorded
            → IsRecorded d time source.now.end target.now.end payload.now is_spelled
            → place_of named (placed named recorded) (max time (clock (placed named recorded))) d ≡ Nowhere → may_be_tftp d ≡ false
            → result ≢ Err AttributionFault.Memory }
        ensures full { result ≡ Err AttributionFault.TooMany → (self.old.attribution.count + 1 ≡ 2 ^ 64) ⊎ AreCrowded self.old.watched }
        ensures fails { OnErr result (self.new.failed ≡ true) }
        ensures for_good { self.old.failed ≡ true → IsErr result }
        ensures judging { self.new.judging ≡ self.old.judging }
    {
        if self.failed {
            return Err(AttributionFault::Memory);
        }
        self.failed = true;
        let found = self
            .attribution
            .feed(alloc, time, source.end, target.end, payload, is_spelled)?;
        open(&mut self.watched, alloc, self.judging, &found.place)?;
        let fed = Fed {
            place: &found.place,
            source,
            target,
            payload,
        };
        hand_on(&mut self.watched, alloc, &found, &fed)?;
        self.failed = false;
        Ok(found)
    }

    /// The transfer with this number, if it was opened and not handed out.
    pub fn watched(&self, number: u64) -> Option<&Watched<D>>
        ensures { (named : List ℕ) (name : Naming) (out : List ℕ) (recorded : List Recorded)
            → StandsAfter self.now named name out recorded
            → MatchOption result ((opened number (placed named recorded) ≡ None) ⊎ (is_among number out ≡ true))
            (λ w. (opened number (placed named recorded) ≡ Some w.now.transfer)
            × IsWatching w.now self.now.judging w.now.transfer name (placed named recorded)) }
    {
        self.watched.get(&number)
    }

    /// Hands out the transfer that was opened first of those that were not handed out.
    pub fn pop_first(&mut self) -> Option<Watched<D>>
        ensures all { (named : List ℕ) (name : Naming) (out : List ℕ) (recorded : List Recorded)
            → StandsAfter self.old named name out recorded → result ≡ None
            → (n : ℕ) → (opened n (placed named recorded) ≡ None) ⊎ (is_among n out ≡ true) }
        ensures watched { (named : List ℕ) (name : Naming) (out : List ℕ) (recorded : List Recorded)
            → StandsAfter self.old named name out recorded
            → IfSome result (λ w. (opened w.transfer.number (placed named recorded) ≡ Some w.transfer)
            × IsWatching w self.old.judging w.transfer name (placed named recorded)) }
        ensures stands { (named : List ℕ) (name : Naming) (out : List ℕ) (recorded : List Recorded)
            → StandsAfter self.old named name out recorded
            → IfSome result (λ w. StandsAfter self.new named name (w.transfer.number ∷ out) recorded) }
        ensures first { (named : List ℕ) (name : Naming) (out : List ℕ) (recorded : List Recorded) (n : ℕ)
            → StandsAfter self.old named name out recorded → IsSome (opened n (placed named recorded)) → is_among n out ≡ false
            → IfSome result (λ w. w.transfer.number ≤ n) }
        ensures once { (named : List ℕ) (name : Naming) (out : List ℕ) (recorded : List Recorded)
            → StandsAfter self.old named name out recorded → IfSome result (λ w. is_among w.transfer.number out ≡ false) }
        ensures judging { self.new.judging ≡ self.old.judging }
    {
        let (_, first) = self.watched.pop_first()?;
        Some(first)
    }

    /// Whether at this time no line of the client's goes on: it has been silent for more than 300 s, or has not begun.
    /// Then no datagram joins its transfers any more.
    pub fn is_over(&self, client: &Endpoint, time: u64) -> bool
        ensures { (named : List ℕ) (name : Naming) (out : List ℕ) (recorded : List Recorded)
            → StandsAfter self.now named name out recorded
            → MatchBool result
            (live (max time (clock (placed named recorded))) (line client.now (placed named recorded)) ≡ [])
            (live (max time (clock (placed named recorded))) (line client.now (placed named recorded)) ≢ []) }
    {
        self.attribution.is_over(client, time)
    }
}
