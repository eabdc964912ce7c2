ghost use Rattle.std.specs.Prelude.{◌≡◌, ◌≢◌, ◌+◌, ◌≤◌, ◌∷◌, [], List, Option, Some, None, ℕ, length, true, false};
ghost use Rattle.std.specs.Global.{Vec};
ghost use Rattle.net_udp.specs.declared.fragments.content.Content.{Content as Given};
ghost use Rattle.net_udp.specs.Fragments.Pieces.{content_of};
ghost use Rattle.net_udp.specs.Fragments.Whole.{Content, Part, Covers, Give, IsCutInto, AreSame};
ghost use Rattle.net_udp.specs.Fragments.Overlaps.{Overlap, PutTogether, TwoOverlap, extent_of};
ghost use Rattle.net_udp.specs.Fragments.Set.{AreApart, Arrival, SetState, parts_of};
ghost use Rattle.net_udp.specs.Fragments.Store.{IsKeptOf, PutEnds, is_long};
ghost use Rattle.net_udp.specs.Fragments.Worked.{across_of_udp, first_of_icmp, first_of_udp, in_ipv4, last_of_icmp, worked_content};

use crate::fragments::outcome::Outcome;

/// Parts give one content at most, of one protocol.
pub fn parts_give_one_content()
    ensures { (parts : List Part) (one other : Content) → Give parts one → Give parts other → one ≡ other }
{}

/// The parts that a packet's content was cut into give it back in any order, also where some come several times, and
/// whatever protocols the others than the first name.
pub fn parts_in_any_order_give_their_content()
    ensures { (parts others : List Part) (whole : Content) → IsCutInto whole parts → AreSame parts others → Give others whole }
{}

/// The parts that a packet's content was cut into are put together to it in any order, also where some come several times, in
/// IPv6 as in IPv4: none of them overlap.
pub fn parts_in_any_order_are_put_together()
    ensures { (parts others : List Part) (whole : Content) → IsCutInto whole parts → AreSame parts others → PutTogether others whole }
{}

/// Two parts that overlap have a place in common, and two that have one overlap, unless one repeats the other.
pub fn parts_overlap_at_a_place()
    ensures place { (p q : Part) → 1 ≤ length p.content → 1 ≤ length q.content → Overlap (extent_of p) (extent_of q) → (k : ℕ) × Covers k p × Covers k q }
    ensures overlap { (p q : Part) (k : ℕ) → Covers k p → Covers k q → extent_of p ≢ extent_of q → Overlap (extent_of p) (extent_of q) }
{}

/// Once the parts that a packet's content was cut into have all come, in whatever order and any of them several times, what
/// becomes of the last one is that content, where there is room for it.
pub fn last_fragment_gives_the_content()
    ensures { (old new : Option SetState) (all : ℕ) (arrivals : List Arrival) (a : Arrival) (parts : List Part) (whole : Content) (outcome : Outcome)
        → IsCutInto whole parts → AreSame parts (parts_of (a ∷ arrivals)) → length whole.bytes ≤ 65535 → a.part.content ≢ [] → IsKeptOf old arrivals → PutEnds old new all a outcome → outcome ≢ Outcome.Full
        → (content : Given) × (frames : Vec ℕ) × (outcome ≡ Outcome.Whole content frames) × (content_of content ≡ whole) }
{}

/// What waits together came within a minute. A host waits no less for the parts of a packet (RFC 1122, section 3.3.2; RFC 8200,
/// section 4.5), so that none has let go by then what is put together.
pub fn fragments_come_within_a_minute()
    ensures { (began time : ℕ) → is_long (Some began) (Some time) ≡ false → (time ≤ began + 60000000000) × (began ≤ time + 60000000000) }
{}

/// Worked examples: after 30 s to the nanosecond a part comes to the others, and not one nanosecond later, nor where it came so
/// long before them; where the recording tells no time nothing is too old.
pub fn worked_times()
    ensures young { is_long (Some 1000000000) (Some 31000000000) ≡ false }
    ensures long { is_long (Some 1000000000) (Some 31000000001) ≡ true }
    ensures before { is_long (Some 31000000001) (Some 1000000000) ≡ true }
    ensures untimed { is_long (Some 1000000000) None ≡ false }
{}

/// Worked examples: of two parts the first names UDP (17) and the last ICMP (58), and the content is of UDP, in either order
/// (RFC 8200, section 4.5); and two first parts of which one names UDP and one ICMP are of no content together.
pub fn worked_protocols()
    ensures first { Give (first_of_udp ∷ last_of_icmp ∷ []) worked_content }
    ensures last { Give (last_of_icmp ∷ first_of_udp ∷ []) worked_content }
    ensures apart { AreApart (first_of_udp ∷ first_of_icmp ∷ []) }
{}

/// Worked examples: in IPv6 a part that begins in another one overlaps with it, whichever comes first, though the bytes are the
/// same (RFC 8200, section 4.5); the first part that comes again is let pass; and in IPv4 none overlaps that may not (RFC 791,
/// section 3.2).
pub fn worked_overlaps()
    ensures across { TwoOverlap (across_of_udp ∷ first_of_udp ∷ []) }
    ensures before { TwoOverlap (first_of_udp ∷ across_of_udp ∷ []) }
    ensures again { PutTogether (first_of_udp ∷ last_of_icmp ∷ first_of_udp ∷ []) worked_content }
    ensures ipv4 { TwoOverlap (in_ipv4 across_of_udp ∷ in_ipv4 first_of_udp ∷ []) → ⊥ }
{}
