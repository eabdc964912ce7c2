//! Laws of the definitions in `specs/`. Each is the contract of a function that does nothing.

ghost use Rattle.std.specs.Prelude.{◌≡◌, ◌+◌, ◌≤◌, ◌↔◌, ℕ, List, [], ◌∷◌, length, reverse};
ghost use Rattle.tftp_packet.specs.{Message, Client, Server};
ghost use Rattle.tftp_packet.specs.Hosts.{Datagram};
ghost use Rattle.tftp_packet.specs.{In, Out};
ghost use Rattle.law_model.specs.Rules.{Passed};
ghost use Rattle.law_pair.specs.PairVerdict.{IsPairVerdict, IsWholePair};
ghost use Rattle.law_model.specs.Model.{Meaning, Sent, Took, MachinePacket, Data, Ack, History};
ghost use Rattle.law_end.specs.{Divides, IsSeen, OneEnded, Meant};
ghost use Rattle.law_pair.specs.Captures.{Capture, AreSeenTogether, AreConsistent, AreConsistentByRules};
ghost use Rattle.law_pair.specs.Merged.{AreAllOpen};
ghost use Rattle.law_pair.specs.Pair.{ArePair, IsOpen, AreMerged, MaySendEach};
ghost use Rattle.law_pair.specs.Counts.{PassedSoOften};
ghost use Rattle.law_pair.specs.MatchedCaptures.{begun, IsNextIn, IsOpenIn, IsShut, AreMatchedTo};
ghost use Rattle.law_pair.specs.Messages.{IsBrought, AreMergedBy, AreLawfulAndMerged, passed_in};
ghost use Rattle.law_pair.specs.Worked.{worked_datagram, acknowledged, at_the_client, at_the_server, captured_at, did};

/// Two histories are those of one run exactly if each end might send what it sent, by what it had done itself, and the
/// two can be put into one order in which nothing was taken that had not been sent.
pub fn one_run_is_two_ends_and_a_network()
    ensures { (m : Meaning) (wire : List ℕ) (client server : History) → ArePair m wire client server
        ↔ (MaySendEach m wire Client client × MaySendEach m wire Server server × AreMerged client server) }
{}

/// What one run shows at both ends is lawful at each, and its two views are merged. What is lawful at each by one meaning
/// and one wire, and is merged, one run shows.
pub fn consistent_is_lawful_and_merged()
    ensures client { (m : Meaning) (wire : List ℕ) (client server : Capture) → AreSeenTogether m wire client server
        → IsSeen client.header m wire client.datagrams }
    ensures server { (m : Meaning) (wire : List ℕ) (client server : Capture) → AreSeenTogether m wire client server
        → IsSeen server.header m wire server.datagrams }
    ensures merged { (m : Meaning) (wire : List ℕ) (client server : Capture) (x : AreSeenTogether m wire client server)
        → AreMerged x.client_view x.server_view }
    ensures together { (m : Meaning) (wire : List ℕ) (client server : Capture) → client.header.named ≡ Client
        → server.header.named ≡ Server → client.header.rollover ≡ server.header.rollover → (a : IsSeen client.header m wire client.datagrams)
        → (b : IsSeen server.header m wire server.datagrams) → AreMerged a.view b.view
        → AreSeenTogether m wire client server }
{}

/// Two captures are consistent exactly if each breaks no rule, some meaning and wire are in accord with both, and what
/// their main datagrams say is merged. (What breaks no rule divides, and in one way.)
pub fn consistent_by_rules()
    ensures { (client server : Capture) (a : Divides client.header (reverse client.datagrams))
        (b : Divides server.header (reverse server.datagrams)) → AreConsistent client server ↔ AreConsistentByRules client server a b }
{}

/// How often a packet was sent and taken is one pair of numbers; and in what is merged a packet that was never sent was
/// never taken.
pub fn counts_are_one()
    ensures one { (from to : History) (p : MachinePacket) (sent taken n k : ℕ) → PassedSoOften from to p sent taken → PassedSoOften from to p n k
        → (sent ≡ n) × (taken ≡ k) }
    ensures to_client { (client server : History) (p : MachinePacket) (taken : ℕ) → AreMerged client server
        → PassedSoOften server client p 0 taken → taken ≡ 0 }
    ensures to_server { (client server : History) (p : MachinePacket) (taken : ℕ) → AreMerged client server
        → PassedSoOften client server p 0 taken → taken ≡ 0 }
{}

/// What is consistent is merged by what its datagrams say.
#[tactic(auto, using(crate::proofs::ByMessages::merged_by_messages))]
pub fn consistent_is_merged_by_messages()
    ensures { (client server : Capture) → AreConsistent client server → AreMergedBy (passed_in client) (passed_in server) }
{}

/// In what is merged by messages, what came in at one end has gone out at the other, the same message.
pub fn what_came_in_went_out()
    ensures to_client { (client server : List Datagram) → AreMergedBy client server → (x : Message) → Passed In x client → Passed Out x server }
    ensures to_server { (client server : List Datagram) → AreMergedBy client server → (x : Message) → Passed In x server → Passed Out x client }
{}

/// Two captures are consistent exactly if each breaks no rule at its end, and what passed of the transfer can be put into
/// one order in which nothing came that says what nothing sent before says. Neither the meaning nor the wire is known to
/// it: that there is one of each for both follows.
pub fn consistent_by_messages()
    ensures { (client server : Capture) → AreConsistent client server ↔ AreLawfulAndMerged client server }
{}

/// Two captures that are consistent and whole mean the same transfer.
pub fn consistent_means_one_transfer()
    ensures { (client server : Capture) (m n : Meaning) → AreConsistent client server → Meant client.header (reverse client.datagrams) m
        → Meant server.header (reverse server.datagrams) n → m ≡ n }
{}

/// The same of two captures, counted in their datagrams: what is no part of the transfer is passed over. A capture's next
/// datagram is judged by those before it in that capture, and waits for what the other capture has shown.
pub fn merging_captures_needs_no_choice()
    ensures client { (client server : Capture) (i j : ℕ) (d : Datagram) → AreMergedBy (passed_in (begun i client)) (passed_in (begun j server))
        → IsNextIn client i d → IsOpenIn client i d (passed_in (begun j server))
        → AreMergedBy (passed_in (begun (i + 1) client)) (passed_in (begun j server)) }
    ensures server { (client server : Capture) (i j : ℕ) (d : Datagram) → AreMergedBy (passed_in (begun i client)) (passed_in (begun j server))
        → IsNextIn server j d → IsOpenIn server j d (passed_in (begun i client))
        → AreMergedBy (passed_in (begun i client)) (passed_in (begun (j + 1) server)) }
    ensures stuck { (client server : Capture) (i j : ℕ) → i ≤ length client.datagrams → j ≤ length server.datagrams
        → IsShut client i server j → IsShut server j client i
        → AreMergedBy (passed_in (begun i client)) (passed_in (begun j server)) → AreMatchedTo client server i j }
    ensures one { (client server : Capture) (i j x y : ℕ) → AreMatchedTo client server i j → AreMatchedTo client server x y
        → (i ≡ x) × (j ≡ y) }
{}

/// Two captures that break no rule are consistent exactly if they are matched to their ends.
pub fn matching_decides()
    ensures { (client server : Capture) (i j : ℕ) → client.header.named ≡ Client → server.header.named ≡ Server
        → client.header.rollover ≡ server.header.rollover → OneEnded client.header (reverse client.datagrams) → OneEnded server.header (reverse server.datagrams)
        → AreMatchedTo client server i j → AreConsistent client server ↔ ((i ≡ length client.datagrams) × (j ≡ length server.datagrams)) }
{}

/// How far each of two captures is lawful at its end, and how far those parts go together, are four numbers; and the
/// captures are consistent exactly if these are their lengths.
pub fn verdict_on_two_is_one()
    ensures one { (client server : Capture) (n k i j x y v w : ℕ) → IsPairVerdict client server n k i j → IsPairVerdict client server x y v w
        → (n ≡ x) × (k ≡ y) × (i ≡ v) × (j ≡ w) }
    ensures decides { (client server : Capture) (n k i j : ℕ) → client.header.named ≡ Client → server.header.named ≡ Server
        → client.header.rollover ≡ server.header.rollover → IsPairVerdict client server n k i j → AreConsistent client server ↔ IsWholePair client server n k i j }
{}

/// In an order of both ends, what an end takes the other one has sent before. So the network may lose, repeat and reorder.
pub fn worked_orders()
    ensures brought { AreAllOpen IsOpen (did Server (Took (Data 1)) ∷ did Client (Sent (Data 1)) ∷ []) }
    ensures too_early { AreAllOpen IsOpen (did Client (Sent (Data 1)) ∷ did Server (Took (Data 1)) ∷ []) → ⊥ }
    ensures its_own { AreAllOpen IsOpen (did Client (Took (Data 1)) ∷ did Client (Sent (Data 1)) ∷ []) → ⊥ }
    ensures lost { AreMerged [] (Sent (Data 1) ∷ []) }
    ensures repeated { AreMerged (Took (Data 1) ∷ Took (Data 1) ∷ []) (Sent (Data 1) ∷ []) }
    ensures reordered { AreMerged (Took (Data 1) ∷ Took (Data 2) ∷ []) (Sent (Data 2) ∷ Sent (Data 1) ∷ []) }
    ensures unsent { AreMerged (Took (Data 1) ∷ []) [] → ⊥ }
    ensures neither_first { AreMerged (Sent (Data 1) ∷ Took (Ack 0) ∷ []) (Sent (Ack 0) ∷ Took (Data 1) ∷ []) → ⊥ }
{}

/// A block of two bytes and its ACK, seen at both ends, are merged; with another last byte at the client they are not. What
/// the other end took and did not send brings nothing. As captures they are matched to their ends and to no less; with the
/// other byte the client's block waits, and behind it the server's ACK.
pub fn worked_pairs()
    ensures merged { AreMergedBy (at_the_client 105) (at_the_server 105) }
    ensures changed { AreMergedBy (at_the_client 106) (at_the_server 105) → ⊥ }
    ensures taken { IsBrought (worked_datagram In acknowledged ∷ []) (worked_datagram In acknowledged) → ⊥ }
    ensures whole { AreMatchedTo (captured_at Client (at_the_client 105)) (captured_at Server (at_the_server 105)) 2 2 }
    ensures less { AreMatchedTo (captured_at Client (at_the_client 105)) (captured_at Server (at_the_server 105)) 2 1 → ⊥ }
    ensures waits { AreMatchedTo (captured_at Client (at_the_client 106)) (captured_at Server (at_the_server 105)) 0 1 }
{}
