//! Laws of the definitions in `specs/`. Each is the contract of a function that does nothing.

ghost use Rattle.std.specs.Prelude.{◌≡◌, ◌≢◌, not, ℕ, Bool, List, ◌++◌, reverse, Some};
ghost use Rattle.tftp_packet.specs.Hosts.{Datagram, Header, PeerId, peer_of, same_peer};
ghost use Rattle.law_model.specs.Model.{Meaning};
ghost use Rattle.law_model.specs.Rules.{comes_in, first_of};
ghost use Rattle.law_end.specs.{IsSeen, IsLawful, Shows, OneEnded, Meant};
ghost use Rattle.audit_spared.specs.Fair.Apart.{without, AreApart, wholly_without, AreUnasked};
ghost use Rattle.audit_spared.specs.Fair.Worked.{at_client, stray, with_stray, without_stray};

/// Of a capture, what passed from some datagram on with peers that are none of the transfer's can be left out: the same
/// run shows what is left. So this is lawful, breaks no rule, and means the same.
pub fn strays_can_be_left_out()
    ensures seen { (h : Header) (m : Meaning) (wire : List ℕ) (out : PeerId → Bool) (old new : List Datagram)
        → AreApart out (old ++ new) → IsSeen h m wire (old ++ new) → IsSeen h m wire (old ++ without h out new) }
    ensures lawful { (h : Header) (out : PeerId → Bool) (old new : List Datagram) → AreApart out (old ++ new)
        → IsLawful h (old ++ new) → IsLawful h (old ++ without h out new) }
    ensures shows { (h : Header) (m : Meaning) (out : PeerId → Bool) (old new : List Datagram) → AreApart out (old ++ new)
        → Shows h m (old ++ new) → Shows h m (old ++ without h out new) }
    ensures rules { (h : Header) (out : PeerId → Bool) (old new : List Datagram) → AreApart out (old ++ new)
        → OneEnded h (reverse (old ++ new)) → OneEnded h (reverse (old ++ without h out new)) }
    ensures meant { (h : Header) (m : Meaning) (out : PeerId → Bool) (old new : List Datagram) → AreApart out (old ++ new)
        → Meant h (reverse (old ++ new)) m → Meant h (reverse (old ++ without h out new)) m }
{}

/// Where the client asked none of these peers, nothing that passed with them is left.
pub fn unasked_strays_can_be_left_out_wholly()
    ensures lawful { (h : Header) (out : PeerId → Bool) (old new : List Datagram) → AreApart out (old ++ new)
        → AreUnasked h out new → IsLawful h (old ++ new) → IsLawful h (old ++ wholly_without out new) }
    ensures shows { (h : Header) (m : Meaning) (out : PeerId → Bool) (old new : List Datagram) → AreApart out (old ++ new)
        → AreUnasked h out new → Shows h m (old ++ new) → Shows h m (old ++ wholly_without out new) }
{}

/// So what passed with one peer can be left out, where it is not the peer from which the first datagram came.
pub fn one_stray_peer_can_be_left_out()
    ensures lawful { (h : Header) (peer : PeerId) (datagrams : List Datagram)
        → ((d : Datagram) → first_of comes_in (reverse datagrams) ≡ Some d → peer_of d ≢ peer)
        → IsLawful h datagrams → IsLawful h (without h (same_peer peer) datagrams) }
    ensures shows { (h : Header) (m : Meaning) (peer : PeerId) (datagrams : List Datagram)
        → ((d : Datagram) → first_of comes_in (reverse datagrams) ≡ Some d → peer_of d ≢ peer)
        → Shows h m datagrams → Shows h m (without h (same_peer peer) datagrams) }
{}

/// And what a lawful capture begins with is lawful without them.
pub fn begun_without_strays_is_lawful()
    ensures { (h : Header) (out : PeerId → Bool) (datagrams more : List Datagram) → AreApart out datagrams
        → IsLawful h (datagrams ++ more) → IsLawful h (without h out datagrams) }
{}

/// Five datagrams of a read, two of them a stray's: it was not the first to send, and without it three are left. The
/// server was the first.
pub fn one_stray_of_a_read_is_left_out()
    ensures apart { AreApart (same_peer stray) with_stray }
    ensures kept { without at_client (same_peer stray) with_stray ≡ without_stray }
    ensures server { AreApart (λ p. not (same_peer stray p)) with_stray → ⊥ }
{}
