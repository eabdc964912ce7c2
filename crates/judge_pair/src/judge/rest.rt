ghost use Rattle.std.specs.Prelude.{◌≡◌, ◌+◌, ◌^◌, ◌<◌, ◌≤◌, ℕ, List, [], ◌∷◌, length, reverse, true, Option, None, Some, is_some, Err, OnOk, IfErr};
ghost use Rattle.tftp_capture.specs.{datagram_of};
ghost use Rattle.tftp_packet.specs.{Client, End as EndKind, Rollover as RolloverKind, Server};
ghost use Rattle.tftp_packet.specs.Hosts.{Datagram as DatagramParts, Header as HeaderParts};
ghost use Rattle.law_model.specs.Rules.{transfer_of};
ghost use Rattle.law_rollover.specs.{IsTaken, IsUnrolled};
ghost use Rattle.law_model.specs.Model.Roles.{other_end};
ghost use Rattle.tftp_judge.specs.{Refuses, TakesForJoin, IsVerdict, Refusal as RefusalKind};
ghost use Rattle.law_pair.specs.{Capture, IsLawfulTo, IsPairVerdict};
ghost use Rattle.judge_pair.specs.Judge.Merging.{IsWaitFor, with_held};
ghost use Rattle.judge_pair.specs.Judge.Kept.{CountsOn, IsNumbered, IsSideAfter};
ghost use Rattle.judge_pair.specs.Judge.Rest.{IsLeftAfter, IsRestAfter, left_at};
ghost use Rattle.judge_pair.specs.Judge.Verdicts.{AreCarried, AreCountsOf, IsReadOf, IsWhyWaiting};

use crate::counts::{Carried, Counts};
use crate::judge::matched::Matched;
use crate::judge::side::Side;
use crate::judge::waiting::Wait;
use std::alloc::Global;
use std::marker::Model;
use tftp_capture::Datagram;
use tftp_ends::blocks::Delivered;
use tftp_judge::{Meaning, Refusal};
use tftp_packet::End;
use tftp_packet::rounds::Rollover;

/// What is left of one capture: its end, and how many of its datagrams are merged.
#[derive(Drop)]
pub struct Left<D: Delivered + Drop> {
    side: Side<D>,
    merged: u64,
}

impl<D: Delivered + Drop> Model for Left<D> {
    ghost use Rattle.std.specs.Coded.{codes};
    ghost use Rattle.tftp_ends.specs.StatesKept.{sender_code, receiver_code};
    ghost use Rattle.tftp_packet.specs.Owned.{options_code, parts_code};
    ghost use Rattle.judge_pair.specs.Judge.Rest.{Left};

    ghost Value = { Left };

    ghost coded = { Prim.hlevel (codes, sender_code, receiver_code, options_code, parts_code) };

    ghost view = { λ l. record { side = l.side; merged = l.merged } };
}

impl<D: Delivered + Drop> Left<D> {
    /// What is left of an end once it goes no further.
    pub fn begin(side: Side<D>) -> Self
        ensures side { result.side ≡ side }
        ensures merged { (part : List DatagramParts) → side.judge.fed ≡ length (with_held side.held part) → result.merged ≡ length part }
    {
        let merged = side.merged();
        Left { side, merged }
    }

    /// Why a datagram of this end waits, where the other end has read all that it is to.
    fn why(&self, other: &Self) -> Option<Wait>
        ensures { (h : HeaderParts) (read : List DatagramParts) → IsSideAfter other.now.side h read
            → IsWaitFor self.now.side.held (transfer_of h read) result }
    {
        self.side.why(&other.side)
    }

    /// Takes the next datagram of a capture in which one waited, whose numbers begin again or do not.
    fn feed(
        &mut self,
        alloc: Global,
        rollover: Option<Rollover>,
        datagram: &Datagram,
    ) -> Result<(), Refusal>
        requires few { self.old.side.judge.fed < 2 ^ 40 }
        requires short { length datagram.now.payload ≤ 65527 }
        requires waited { is_some self.old.side.held ≡ true }
        requires numbered { (r : RolloverKind) → rollover ≡ Some r → IsNumbered self.old.side }
        ensures accepts { (held : Option DatagramParts) (part early : List DatagramParts) (h : HeaderParts) (read : List DatagramParts) (d : DatagramParts)
            → IsLeftAfter self.old held part early h read → IsTaken rollover (transfer_of h read) (datagram_of datagram.now) d
            → OnOk result (IsLeftAfter self.new held part early h (d ∷ read)) }
        ensures refuses { (held : Option DatagramParts) (part early : List DatagramParts) (h : HeaderParts) (read : List DatagramParts) (d : DatagramParts)
            → IsLeftAfter self.old held part early h read → IsTaken rollover (transfer_of h read) (datagram_of datagram.now) d
            → self.old.side.judge.refused ≡ None → IfErr result (Refuses h read d) }
        ensures stays { (held : Option DatagramParts) (part early : List DatagramParts) (h : HeaderParts) (read : List DatagramParts)
            → IsLeftAfter self.old held part early h read → IfErr result (λ refusal. IsLeftAfter self.new held part early h read) }
        ensures keeps { IfErr result (λ refusal. self.new.side.judge.refused ≡ Some refusal) }
        ensures goes_on { self.old.side.judge.refused ≡ None → OnOk result (self.new.side.judge.refused ≡ None) }
        ensures waited { self.new.side.held ≡ self.old.side.held }
        ensures counts { OnOk result (self.new.side.judge.fed ≡ self.old.side.judge.fed + 1) }
        ensures counting { rollover ≡ None → CountsOn self.old.side.counts self.new.side.counts (datagram_of datagram.now) }
        ensures counting_block { (h : HeaderParts) (read : List DatagramParts) (d : DatagramParts) → IsSideAfter self.old.side h read
            → IsTaken rollover (transfer_of h read) (datagram_of datagram.now) d → CountsOn self.old.side.counts self.new.side.counts d }
        ensures numbered { IsNumbered self.old.side → IsNumbered self.new.side }
    {
        self.side.feed(alloc, rollover, datagram)?;
        Ok(())
    }
}

/// Two captures of which neither goes further: where one waited, what is left of it is judged alone.
#[derive(Drop)]
pub struct PairRest<D: Delivered + Drop> {
    client: Left<D>,
    server: Left<D>,
}

impl<D: Delivered + Drop> Model for PairRest<D> {
    ghost use Rattle.std.specs.Coded.{codes};
    ghost use Rattle.tftp_ends.specs.StatesKept.{sender_code, receiver_code};
    ghost use Rattle.tftp_packet.specs.Owned.{options_code, parts_code};
    ghost use Rattle.judge_pair.specs.Judge.Rest.{Rest};

    ghost Value = { Rest };

    ghost coded = { Prim.hlevel (codes, sender_code, receiver_code, options_code, parts_code) };

    ghost view = { λ r. record { client = r.client; server = r.server } };
}

/// What there is to say of two captures: of each what there is of it alone, and how far they go together. One run has both
/// exactly if each is lawful and matched to its end.
#[derive(Debug, Drop)]
pub struct PairVerdict {
    /// Of the client's capture alone.
    pub client: Result<Meaning, Refusal>,
    /// Of the server's capture alone.
    pub server: Result<Meaning, Refusal>,
    /// How far the two go together, as far as each is lawful.
    pub matched: Matched,
}

impl<D: Delivered + Drop> PairRest<D> {
    /// Of two captures with what is left of each.
    pub(crate) fn of(client: Left<D>, server: Left<D>) -> Self
        ensures { (result.client ≡ client) × (result.server ≡ server) }
    {
        PairRest { client, server }
    }

    /// Takes the next datagram of a capture in which one waited: Ok exactly if it breaks no rule at that end. It is not
    /// merged.
    pub fn feed(&mut self, alloc: Global, end: End, datagram: &Datagram) -> Result<(), Refusal>
        requires few { (left_at end self.old).side.judge.fed < 2 ^ 40 }
        requires short { length datagram.now.payload ≤ 65527 }
        requires waited { is_some (left_at end self.old).side.held ≡ true }
        ensures client { end ≡ Client → (h k : HeaderParts) (client server : List DatagramParts) → IsRestAfter self.old h client k server
            → OnOk result (IsRestAfter self.new h (datagram_of datagram.now ∷ client) k server) }
        ensures server { end ≡ Server → (h k : HeaderParts) (client server : List DatagramParts) → IsRestAfter self.old h client k server
            → OnOk result (IsRestAfter self.new h client k (datagram_of datagram.now ∷ server)) }
        ensures refuses_client { end ≡ Client → (h k : HeaderParts) (client server : List DatagramParts) → IsRestAfter self.old h client k server
            → self.old.client.side.judge.refused ≡ None → IfErr result (Refuses h client (datagram_of datagram.now)) }
        ensures refuses_server { end ≡ Server → (h k : HeaderParts) (client server : List DatagramParts) → IsRestAfter self.old h client k server
            → self.old.server.side.judge.refused ≡ None → IfErr result (Refuses k server (datagram_of datagram.now)) }
        ensures stays { (h k : HeaderParts) (client server : List DatagramParts) → IsRestAfter self.old h client k server
            → IfErr result (λ refusal. IsRestAfter self.new h client k server) }
        ensures keeps { IfErr result (λ refusal. (left_at end self.new).side.judge.refused ≡ Some refusal) }
        ensures goes_on { (left_at end self.old).side.judge.refused ≡ None → OnOk result ((left_at end self.new).side.judge.refused ≡ None) }
        ensures waited { (left_at end self.new).side.held ≡ (left_at end self.old).side.held }
        ensures counts { OnOk result ((left_at end self.new).side.judge.fed ≡ (left_at end self.old).side.judge.fed + 1) }
        ensures counting { CountsOn (left_at end self.old).side.counts (left_at end self.new).side.counts (datagram_of datagram.now) }
        ensures other { left_at (other_end end) self.new ≡ left_at (other_end end) self.old }
    {
        self.take(alloc, None, end, datagram)
    }

    /// The same where numbers begin again after 65535 (RFC 1350, section 5): a number is taken for the block near the highest that has
    /// passed at that end.
    pub fn feed_numbered(
        &mut self,
        alloc: Global,
        rollover: Rollover,
        end: End,
        datagram: &Datagram,
    ) -> Result<(), Refusal>
        requires few { (left_at end self.old).side.judge.fed < 2 ^ 40 }
        requires short { length datagram.now.payload ≤ 65527 }
        requires waited { is_some (left_at end self.old).side.held ≡ true }
        requires numbered { IsNumbered (left_at end self.old).side }

        // For all that it stands for: it stands for them with this one, with a block in the place of its number.
        ensures client { end ≡ Client → (h k : HeaderParts) (client server : List DatagramParts) (d : DatagramParts) → IsRestAfter self.old h client k server
            → IsUnrolled rollover (transfer_of h client) (datagram_of datagram.now) d → OnOk result (IsRestAfter self.new h (d ∷ client) k server) }
        ensures server { end ≡ Server → (h k : HeaderParts) (client server : List DatagramParts) (d : DatagramParts) → IsRestAfter self.old h client k server
            → IsUnrolled rollover (transfer_of k server) (datagram_of datagram.now) d → OnOk result (IsRestAfter self.new h client k (d ∷ server)) }
        ensures refuses_client { end ≡ Client → (h k : HeaderParts) (client server : List DatagramParts) (d : DatagramParts) → IsRestAfter self.old h client k server
            → IsUnrolled rollover (transfer_of h client) (datagram_of datagram.now) d → self.old.client.side.judge.refused ≡ None → IfErr result (Refuses h client d) }
        ensures refuses_server { end ≡ Server → (h k : HeaderParts) (client server : List DatagramParts) (d : DatagramParts) → IsRestAfter self.old h client k server
            → IsUnrolled rollover (transfer_of k server) (datagram_of datagram.now) d → self.old.server.side.judge.refused ≡ None → IfErr result (Refuses k server d) }

        // And all else as above.
        ensures stays { (h k : HeaderParts) (client server : List DatagramParts) → IsRestAfter self.old h client k server
            → IfErr result (λ refusal. IsRestAfter self.new h client k server) }
        ensures keeps { IfErr result (λ refusal. (left_at end self.new).side.judge.refused ≡ Some refusal) }
        ensures goes_on { (left_at end self.old).side.judge.refused ≡ None → OnOk result ((left_at end self.new).side.judge.refused ≡ None) }
        ensures waited { (left_at end self.new).side.held ≡ (left_at end self.old).side.held }
        ensures counts { OnOk result ((left_at end self.new).side.judge.fed ≡ (left_at end self.old).side.judge.fed + 1) }
        ensures counting_client { end ≡ Client → (h k : HeaderParts) (client server : List DatagramParts) (d : DatagramParts) → IsRestAfter self.old h client k server
            → IsUnrolled rollover (transfer_of h client) (datagram_of datagram.now) d → CountsOn self.old.client.side.counts self.new.client.side.counts d }
        ensures counting_server { end ≡ Server → (h k : HeaderParts) (client server : List DatagramParts) (d : DatagramParts) → IsRestAfter self.old h client k server
            → IsUnrolled rollover (transfer_of k server) (datagram_of datagram.now) d → CountsOn self.old.server.side.counts self.new.server.side.counts d }
        ensures other { left_at (other_end end) self.new ≡ left_at (other_end end) self.old }
        ensures numbered { (e : EndKind) → IsNumbered (left_at e self.old).side → IsNumbered (left_at e self.new).side }
    {
        self.take(alloc, Some(rollover), end, datagram)
    }

    /// Takes the next datagram of a capture in which one waited, whose numbers begin again or do not.
    pub(crate) fn take(
        &mut self,
        alloc: Global,
        rollover: Option<Rollover>,
        end: End,
        datagram: &Datagram,
    ) -> Result<(), Refusal>
        requires few { (left_at end self.old).side.judge.fed < 2 ^ 40 }
        requires short { length datagram.now.payload ≤ 65527 }
        requires waited { is_some (left_at end self.old).side.held ≡ true }
        requires numbered { (r : RolloverKind) → rollover ≡ Some r → IsNumbered (left_at end self.old).side }
        ensures client { end ≡ Client → (h k : HeaderParts) (client server : List DatagramParts) (d : DatagramParts) → IsRestAfter self.old h client k server
            → IsTaken rollover (transfer_of h client) (datagram_of datagram.now) d → OnOk result (IsRestAfter self.new h (d ∷ client) k server) }
        ensures server { end ≡ Server → (h k : HeaderParts) (client server : List DatagramParts) (d : DatagramParts) → IsRestAfter self.old h client k server
            → IsTaken rollover (transfer_of k server) (datagram_of datagram.now) d → OnOk result (IsRestAfter self.new h client k (d ∷ server)) }
        ensures refuses_client { end ≡ Client → (h k : HeaderParts) (client server : List DatagramParts) (d : DatagramParts) → IsRestAfter self.old h client k server
            → IsTaken rollover (transfer_of h client) (datagram_of datagram.now) d → self.old.client.side.judge.refused ≡ None → IfErr result (Refuses h client d) }
        ensures refuses_server { end ≡ Server → (h k : HeaderParts) (client server : List DatagramParts) (d : DatagramParts) → IsRestAfter self.old h client k server
            → IsTaken rollover (transfer_of k server) (datagram_of datagram.now) d → self.old.server.side.judge.refused ≡ None → IfErr result (Refuses k server d) }
        ensures stays { (h k : HeaderParts) (client server : List DatagramParts) → IsRestAfter self.old h client k server
            → IfErr result (λ refusal. IsRestAfter self.new h client k server) }
        ensures keeps { IfErr result (λ refusal. (left_at end self.new).side.judge.refused ≡ Some refusal) }
        ensures goes_on { (left_at end self.old).side.judge.refused ≡ None → OnOk result ((left_at end self.new).side.judge.refused ≡ None) }
        ensures waited { (left_at end self.new).side.held ≡ (left_at end self.old).side.held }
        ensures counts { OnOk result ((left_at end self.new).side.judge.fed ≡ (left_at end self.old).side.judge.fed + 1) }
        ensures counting { rollover ≡ None → CountsOn (left_at end self.old).side.counts (left_at end self.new).side.counts (datagram_of datagram.now) }
        ensures counting_client { end ≡ Client → (h k : HeaderParts) (client server : List DatagramParts) (d : DatagramParts) → IsRestAfter self.old h client k server
            → IsTaken rollover (transfer_of h client) (datagram_of datagram.now) d → CountsOn self.old.client.side.counts self.new.client.side.counts d }
        ensures counting_server { end ≡ Server → (h k : HeaderParts) (client server : List DatagramParts) (d : DatagramParts) → IsRestAfter self.old h client k server
            → IsTaken rollover (transfer_of k server) (datagram_of datagram.now) d → CountsOn self.old.server.side.counts self.new.server.side.counts d }
        ensures other { left_at (other_end end) self.new ≡ left_at (other_end end) self.old }
        ensures numbered { (e : EndKind) → IsNumbered (left_at e self.old).side → IsNumbered (left_at e self.new).side }
    {
        match end {
            End::Client => self.client.feed(alloc, rollover, datagram),
            End::Server => self.server.feed(alloc, rollover, datagram),
        }
    }

    /// Whether a datagram of this end waited, and so more of its capture may be fed.
    #[inline]
    pub fn waited(&self, end: End) -> bool
        ensures { result ≡ is_some (left_at end self.now).side.held }
    {
        match end {
            End::Client => self.client.side.waits(),
            End::Server => self.server.side.waits(),
        }
    }

    /// How many datagrams of this end were accepted.
    #[inline]
    pub fn fed(&self, end: End) -> u64
        ensures { result ≡ (left_at end self.now).side.judge.fed }
    {
        match end {
            End::Client => self.client.side.fed(),
            End::Server => self.server.side.fed(),
        }
    }

    /// The verdict on both, where each was fed as far as it is lawful, or to its end.
    pub fn finish(self, alloc: Global) -> PairVerdict
        ensures numbers { (client server : Capture) (client_read server_read : List DatagramParts)
            → IsRestAfter self client.header client_read server.header server_read
            → IsReadOf client client_read → IsReadOf server server_read
            → IsLawfulTo client (length client_read) → IsLawfulTo server (length server_read)
            → IsPairVerdict client server result.matched.client_lawful result.matched.server_lawful result.matched.client_matched result.matched.server_matched }

        // Why the first datagram of each that is not matched waits for the other capture, as far as that is lawful.
        ensures client_why { (client server : Capture) (client_read server_read : List DatagramParts)
            → IsRestAfter self client.header client_read server.header server_read
            → IsReadOf client client_read → IsReadOf server server_read
            → IsWhyWaiting client result.matched.client_lawful result.matched.client_matched server result.matched.server_lawful result.matched.client_why }
        ensures server_why { (client server : Capture) (client_read server_read : List DatagramParts)
            → IsRestAfter self client.header client_read server.header server_read
            → IsReadOf client client_read → IsReadOf server server_read
            → IsWhyWaiting server result.matched.server_lawful result.matched.server_matched client result.matched.client_lawful result.matched.server_why }

        // How often each packet passed as far as both are lawful, where memory sufficed to count it, and what the network lost and
        // repeated by that.
        ensures client_counted { (client server : Capture) (client_read server_read : List DatagramParts)
            → IsRestAfter self client.header client_read server.header server_read
            → IsReadOf client client_read → AreCountsOf client result.matched.client_lawful result.matched.client_counts }
        ensures server_counted { (client server : Capture) (client_read server_read : List DatagramParts)
            → IsRestAfter self client.header client_read server.header server_read
            → IsReadOf server server_read → AreCountsOf server result.matched.server_lawful result.matched.server_counts }
        ensures counts { result.matched.client_counts ≡ self.client.side.counts × result.matched.server_counts ≡ self.server.side.counts }
        ensures carried { (client server : Capture) (client_read server_read : List DatagramParts)
            → IsRestAfter self client.header client_read server.header server_read
            → IsReadOf client client_read → IsReadOf server server_read
            → AreCarried client result.matched.client_lawful result.matched.client_counts server result.matched.server_lawful result.matched.server_counts result.matched.carried }

        ensures client { (h k : HeaderParts) (client server : List DatagramParts) → IsRestAfter self h client k server → self.client.side.judge.refused ≡ None
            → IsVerdict h (reverse client) result.client }
        ensures server { (h k : HeaderParts) (client server : List DatagramParts) → IsRestAfter self h client k server → self.server.side.judge.refused ≡ None
            → IsVerdict k (reverse server) result.server }

        // Memory is wanting only where the store takes it to join the blocks.
        ensures client_joins { (h k : HeaderParts) (client server : List DatagramParts) (count : ℕ) → IsRestAfter self h client k server
            → self.client.side.judge.refused ≡ None → result.client ≡ Err (RefusalKind.Memory count) → TakesForJoin D.join_takes (transfer_of h client) }
        ensures server_joins { (h k : HeaderParts) (client server : List DatagramParts) (count : ℕ) → IsRestAfter self h client k server
            → self.server.side.judge.refused ≡ None → result.server ≡ Err (RefusalKind.Memory count) → TakesForJoin D.join_takes (transfer_of k server) }
        ensures client_refused { (refusal : RefusalKind) → self.client.side.judge.refused ≡ Some refusal → result.client ≡ Err refusal }
        ensures server_refused { (refusal : RefusalKind) → self.server.side.judge.refused ≡ Some refusal → result.server ≡ Err refusal }
    {
        let PairRest { client, server } = self;
        let client_why = client.why(&server);
        let server_why = server.why(&client);
        let carried = client.side.carried(&server.side);
        let (client_lawful, server_lawful) = (client.side.fed(), server.side.fed());
        let (client_judge, client_counts) = client.side.into_parts();
        let (server_judge, server_counts) = server.side.into_parts();
        PairVerdict {
            client: client_judge.finish(alloc),
            server: server_judge.finish(alloc),
            matched: Matched {
                client_lawful,
                server_lawful,
                client_matched: client.merged,
                server_matched: server.merged,
                client_why,
                server_why,
                client_counts,
                server_counts,
                carried,
            },
        }
    }
}
