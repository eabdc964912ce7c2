//! Laws of the definitions in `specs/Losses.antt`. Each is the contract of a function that does nothing.

ghost use Rattle.std.specs.Prelude.{◌≡◌, ◌≢◌, ℕ, ◌+◌, ◌<◌, ◌≤◌, List, [], ◌∷◌, ◌++◌, Contains, Some, length, reverse, take, Option};
ghost use Rattle.tftp_packet.specs.{Client, End, Message, Out, RequestParts, Server, Spells};
ghost use Rattle.tftp_packet.specs.{Rollover};
ghost use Rattle.tftp_packet.specs.Hosts.{Datagram, Header, peer_of};
ghost use Rattle.law_model.specs.Model.{
  Meaning,
  MachinePacket,
  Deed,
  History,
  HasSent,
  MaySend,
  windowsize_of,
  IsView,
};
ghost use Rattle.law_model.specs.Rules.{asks, first_of, transfer_of};
ghost use Rattle.law_end.specs.{FirstAsked, IsLawful, IsLawfulUpTo, IsRefused, Rule};
ghost use Rattle.law_tap.specs.Losses.{
  Loses,
  IsSeenOf,
  Noted,
  IsNotedOf,
  IsLawfulWithLosses,
  IsCertain,
  IsFirstCertain,
};
ghost use Rattle.law_tap.specs.StandingAtEnd.{
  GoesOnWith,
  KnowsOtherEnd,
  StandsAtEnd,
  StandsByOptions,
  StandsOfItsOwn,
};

/// What is lawful is lawful with losses, and what is left of what is lawful with losses is so too.
#[tactic(auto, using(crate::proofs::Certain::lawful_lossy, crate::proofs::Certain::less_lossy))]
pub fn less_is_lawful_with_losses()
    ensures lawful { (header : Header) (datagrams : List Datagram) → IsLawful header datagrams → IsLawfulWithLosses header datagrams }
    ensures less { (header : Header) (datagrams rest : List Datagram) → Loses Datagram datagrams rest
        → IsLawfulWithLosses header datagrams → IsLawfulWithLosses header rest }
{}

/// What is certain stays so where missing datagrams are found: a datagram of the fuller list is certain if the list up to it has
/// all of the list up to a certain one. So is each later datagram.
pub fn what_is_certain_stays_certain()
    ensures found { (header : Header) (all datagrams : List Datagram) (i j : ℕ) → IsCertain header datagrams i → j < length all
        → Loses Datagram (take (j + 1) all) (take (i + 1) datagrams) → IsCertain header all j }
    ensures later { (header : Header) (datagrams : List Datagram) (i j : ℕ) → IsCertain header datagrams i → i ≤ j
        → j < length datagrams → IsCertain header datagrams j }
{}

/// A list that is lawful with losses has no certain datagram. Another one has one first certain datagram: it has not two, and
/// that it has none cannot be.
#[tactic(auto, using(crate::proofs::Certain::none_certain, crate::proofs::Certain::one_first, crate::proofs::Certain::some_first))]
pub fn there_is_one_first_certain_datagram()
    ensures none { (header : Header) (datagrams : List Datagram) (i : ℕ) → IsLawfulWithLosses header datagrams
        → IsCertain header datagrams i → ⊥ }
    ensures one { (header : Header) (datagrams : List Datagram) (i j : ℕ) → IsFirstCertain header datagrams i
        → IsFirstCertain header datagrams j → i ≡ j }
    ensures some { (header : Header) (datagrams : List Datagram) → (IsLawfulWithLosses header datagrams → ⊥)
        → ((i : ℕ) → IsFirstCertain header datagrams i → ⊥) → ⊥ }
{}

/// What is certain is refused without losses too, there or before.
pub fn what_is_certain_is_unlawful()
    ensures { (header : Header) (datagrams : List Datagram) (i j : ℕ) → IsCertain header datagrams i
        → IsLawfulUpTo header datagrams j → j ≤ i }
{}

/// The newest deed that was seen stands in a view of that end behind all that was seen before it.
#[tactic(auto, using(crate::proofs::Left::last_seen))]
pub fn what_was_seen_was_done()
    ensures { (m : Meaning) (wire : List ℕ) (e : End) (d : Deed) (seen : History) → IsSeenOf m wire e (d ∷ seen)
        → (before : History) × IsView m wire e (d ∷ before) × Loses Deed before seen }
{}

/// So what it sent was allowed by all that it had done by then, seen or not, and each rule that forbids an end to send a packet
/// after another one stands, whatever is missing.
pub fn what_was_seen_sent_was_allowed()
    ensures { (m : Meaning) (wire : List ℕ) (e : End) (p : MachinePacket) (seen : History)
        → IsSeenOf m wire e (Deed.Sent p ∷ seen)
        → (before : History) × IsView m wire e before × Loses Deed before seen × MaySend m wire e before p }
{}

/// An end that was seen to send an ERROR sends nothing else, whatever is missing.
pub fn nothing_follows_an_error_with_losses()
    ensures { (m : Meaning) (wire : List ℕ) (e : End) (p : MachinePacket) (seen : History) (code : ℕ) (text : List ℕ)
        → IsSeenOf m wire e (Deed.Sent p ∷ seen) → HasSent seen (MachinePacket.Error code text) → p ≡ MachinePacket.Error code text }
{}

/// In lock step no block is sent after a higher one, whatever is missing.
pub fn lock_step_goes_on_with_losses()
    ensures { (m : Meaning) (wire : List ℕ) (e : End) (k higher : ℕ) (seen : History) → windowsize_of m ≡ 1
        → IsSeenOf m wire e (Deed.Sent (MachinePacket.Data k) ∷ seen) → HasSent seen (MachinePacket.Data higher) → higher ≤ k }
{}

/// A client that was seen to send a block or an ACK sends no request after it, whatever is missing.
pub fn the_request_comes_first_with_losses()
    ensures { (m : Meaning) (wire : List ℕ) (e : End) (seen : History) → IsSeenOf m wire e (Deed.Sent MachinePacket.Req ∷ seen)
        → ((k : ℕ) → HasSent seen (MachinePacket.Data k) → ⊥) × ((j : ℕ) → HasSent seen (MachinePacket.Ack j) → ⊥) }
{}

/// A changed block is certain: two payloads of one end that spell one block have the same bytes, whatever is missing. So have
/// two datagrams that its end sent.
pub fn a_changed_block_is_certain()
    ensures noted { (rollover : Option Rollover) (m : Meaning) (wire : List ℕ) (e : End) (noted : List Noted) (one other : Noted) (k : ℕ) (bytes changed : List ℕ)
        → IsNotedOf rollover m wire e noted → Contains noted one → Contains noted other
        → Spells one.payload (Message.Data k bytes) → Spells other.payload (Message.Data k changed) → bytes ≡ changed }
    ensures sent { (header : Header) (datagrams : List Datagram) (one other : Datagram) (k : ℕ) (bytes changed : List ℕ)
        → IsLawfulWithLosses header datagrams → Contains datagrams one → Contains datagrams other → one.dir ≡ Out → other.dir ≡ Out
        → Spells one.payload (Message.Data k bytes) → Spells other.payload (Message.Data k changed) → bytes ≡ changed }
{}

/// What is refused at an end by a rule that stands is certain where the other end is known: whatever is missing, the list up to it is
/// not lawful. So it is of nearly all that the end itself sent, whether the other end is known or not.
pub fn what_is_refused_at_an_end_by_a_rule_that_stands_is_certain()
    ensures known { (header : Header) (later earlier : List Datagram) (d : Datagram) (broken : Rule) → IsRefused header earlier d broken
        → StandsAtEnd broken → KnowsOtherEnd header (d ∷ earlier) → IsCertain header (reverse (later ++ d ∷ earlier)) (length earlier) }
    ensures own { (header : Header) (later earlier : List Datagram) (d : Datagram) (broken : Rule) → IsRefused header earlier d broken
        → StandsOfItsOwn broken → d.dir ≡ Out → IsCertain header (reverse (later ++ d ∷ earlier)) (length earlier) }
{}

/// So is a block that goes back where the window is known, a block of a wrong length or beyond the last number where the
/// block size is, an ACK 0 of a read that asks for nothing, and an OACK of a file that is too long for its blocks: what the
/// end sent itself, and what came to it where the other end is known.
pub fn what_is_refused_by_options_that_are_known_is_certain()
    ensures known { (header : Header) (later earlier : List Datagram) (d : Datagram) (broken : Rule) (asked : RequestParts) (m : Message)
        → IsRefused header earlier d broken → FirstAsked header earlier asked → Spells d.payload m
        → StandsByOptions asked (transfer_of header earlier) m broken → KnowsOtherEnd header (d ∷ earlier)
        → IsCertain header (reverse (later ++ d ∷ earlier)) (length earlier) }
    ensures own { (header : Header) (later earlier : List Datagram) (d : Datagram) (broken : Rule) (asked : RequestParts) (m : Message)
        → IsRefused header earlier d broken → FirstAsked header earlier asked → Spells d.payload m
        → StandsByOptions asked (transfer_of header earlier) m broken → d.dir ≡ Out
        → IsCertain header (reverse (later ++ d ∷ earlier)) (length earlier) }
{}

/// An end deals with one other from one port: that it goes on with two is certain, and so it is that a server goes on with
/// another than asked it first, and that datagrams of one client have two ports there (RFC 1350, section 4).
pub fn an_end_that_deals_with_two_is_certain()
    ensures others { (header : Header) (later earlier : List Datagram) (d other : Datagram) → Contains earlier other → GoesOnWith d → GoesOnWith other
        → peer_of d ≢ peer_of other → IsCertain header (reverse (later ++ d ∷ earlier)) (length earlier) }
    ensures client { (header : Header) (later earlier : List Datagram) (d request : Datagram) → header.named ≡ Server
        → first_of (asks header) earlier ≡ Some request → GoesOnWith d → peer_of d ≢ peer_of request
        → IsCertain header (reverse (later ++ d ∷ earlier)) (length earlier) }
    ensures port { (header : Header) (later earlier : List Datagram) (d other : Datagram) → header.named ≡ Client → Contains earlier other
        → d.local ≢ other.local → IsCertain header (reverse (later ++ d ∷ earlier)) (length earlier) }
{}
