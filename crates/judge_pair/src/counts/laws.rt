//! Laws of the definitions in `specs/`, and worked examples of them. Each is the contract of a function that does nothing.

ghost use Rattle.std.specs.Prelude.{◌≡◌, ◌≤◌, ◌+◌, ◌^◌, ◌∷◌, ℕ, List, [], length};
ghost use Rattle.tftp_packet.specs.{Message, Spells};
ghost use Rattle.tftp_packet.specs.Hosts.{Datagram};
ghost use Rattle.law_model.specs.Rules.{comes_in, goes_out};
ghost use Rattle.judge_pair.specs.Counts.Counts.{AreLostBetween, AreRepeatedBetween, AreTooMany, TakesRoom, number_of, packet_of, packets, sent, taken, times, lost_below, repeated_below};
ghost use Rattle.judge_pair.specs.Counts.Spelled.{named};
ghost use Rattle.judge_pair.specs.declared.counts.packets.CountedPacket.TheVariants.{Opening, Error, Data, Ack};
ghost use Rattle.judge_pair.specs.Counts.Worked.{at_the_client, at_the_server};

/// A payload is counted as the packet that it spells.
pub fn counted_as_it_is_spelled()
    ensures { (payload : List ℕ) (m : Message) → Spells payload m → packet_of payload ≡ number_of (named m) }
{}

/// More copies are lost, or made, than fit 64 bits only among 2^64 datagrams or more: a datagram is a copy of one packet.
pub fn too_many_of_as_many()
    ensures { (one other : List Datagram) → AreTooMany one other → 2 ^ 64 ≤ length one + length other }
{}

/// What the network lost and made between two ends is what those of each packet are that one end sent and the other took, both ways
/// together.
pub fn both_ways_are_counted()
    ensures lost { (one other : List Datagram) (count above : ℕ) → AreLostBetween one other count → above ≡ packets
        → count ≡ lost_below above one other + lost_below above other one }
    ensures repeated { (one other : List Datagram) (count above : ℕ) → AreRepeatedBetween one other count → above ≡ packets
        → count ≡ repeated_below above one other + repeated_below above other one }
{}

/// Which packet a payload is a copy of: a read request, an OACK, an ERROR, DATA 1 and 256, ACK 256.
pub fn worked_packets()
    ensures request { packet_of (0 ∷ 1 ∷ 97 ∷ 0 ∷ 111 ∷ 0 ∷ []) ≡ number_of Opening }
    ensures oack { packet_of (0 ∷ 6 ∷ 97 ∷ 0 ∷ 49 ∷ 0 ∷ []) ≡ number_of Opening }
    ensures error { packet_of (0 ∷ 5 ∷ 0 ∷ 1 ∷ 0 ∷ []) ≡ number_of Error }
    ensures data { packet_of (0 ∷ 3 ∷ 0 ∷ 1 ∷ 104 ∷ []) ≡ number_of (Data 1) }
    ensures later_data { packet_of (0 ∷ 3 ∷ 1 ∷ 0 ∷ []) ≡ number_of (Data 256) }
    ensures ack { packet_of (0 ∷ 4 ∷ 1 ∷ 0 ∷ []) ≡ number_of (Ack 256) }
{}

/// Of DATA 1, sent twice and taken once, a copy was lost; of ACK 1, sent once and taken twice, one was made on the way.
pub fn worked_counts()
    ensures sent { sent 5 at_the_server ≡ 2 }
    ensures taken { taken 5 at_the_client ≡ 1 }
    ensures acknowledged { sent 6 at_the_client ≡ 1 }
    ensures acknowledgements { taken 6 at_the_server ≡ 2 }
    ensures lost { lost_below 8 at_the_server at_the_client ≡ 1 }
    ensures not_lost { lost_below 8 at_the_client at_the_server ≡ 0 }
    ensures repeated { repeated_below 8 at_the_client at_the_server ≡ 1 }
    ensures not_repeated { repeated_below 8 at_the_server at_the_client ≡ 0 }
{}

/// Of DATA 1 two copies went out at the server, and none came in.
pub fn worked_times()
    ensures out { times goes_out 5 at_the_server ≡ 2 }
    ensures back { times comes_in 5 at_the_server ≡ 0 }
{}

/// A packet takes room where it has no place yet, or where it has passed 2^64 - 1 times.
pub fn worked_room()
    ensures no_place { TakesRoom (7 ∷ 0 ∷ []) 2 }
    ensures full { TakesRoom (18446744073709551615 ∷ []) 0 }
    ensures fits { TakesRoom (7 ∷ 0 ∷ []) 0 → ⊥ }
{}
