ghost use Rattle.std.specs.Prelude.{◌≡◌, ◌+◌, ◌^◌, ◌<◌, ◌≤◌, ℕ, List, [], ◌∷◌, length, false, None, Some, is_some, Err, OnOk, IfErr, IfOk};
ghost use Rattle.tftp_capture.specs.{datagram_of, header_of};
ghost use Rattle.tftp_packet.specs.{Client, End as EndKind, Rollover as RolloverKind, Server};
ghost use Rattle.tftp_packet.specs.Hosts.{Datagram as DatagramParts, Header as HeaderParts};
ghost use Rattle.law_model.specs.Model.Roles.{other_end};
ghost use Rattle.law_model.specs.Rules.{transfer_of};
ghost use Rattle.law_rollover.specs.{IsTaken, IsUnrolled};
ghost use Rattle.law_end.specs.{Passes};
ghost use Rattle.tftp_judge.specs.{Refuses, Refusal as RefusalKind};
ghost use Rattle.judge_pair.specs.Judge.Kept.{CountsOn, HasSame, IsNumbered, IsPairAfter, side_at};
ghost use Rattle.judge_pair.specs.Judge.Flags.{flags_in};
ghost use Rattle.judge_pair.specs.Judge.Rest.{IsRestAfter};

use crate::judge::acks::AckFlags;
use crate::judge::rest::{Left, PairRest};
use crate::judge::side::Side;
use std::alloc::{AllocError, Global};
use std::marker::Model;
use tftp_capture::{Datagram, Header};
use tftp_ends::blocks::Delivered;
use tftp_judge::Refusal;
use tftp_packet::End;
use tftp_packet::rounds::Rollover;

/// The judge of two captures of one transfer, one of each end (RFC 1350, section 2). A datagram that came in is merged once
/// the other end has sent what it says; till then it waits, and no more of its capture is taken. It keeps no list of
/// datagrams: what it keeps are the two judges, 16 KiB of flags and the two datagrams that wait.
#[derive(Drop)]
pub struct PairJudge<D: Delivered + Drop> {
    client: Side<D>,
    server: Side<D>,
}

impl<D: Delivered + Drop> Model for PairJudge<D> {
    ghost use Rattle.std.specs.Coded.{codes};
    ghost use Rattle.tftp_ends.specs.StatesKept.{sender_code, receiver_code};
    ghost use Rattle.tftp_packet.specs.Owned.{options_code, parts_code};
    ghost use Rattle.judge_pair.specs.Judge.Kept.{Pair};

    ghost Value = { Pair };

    ghost coded = { Prim.hlevel (codes, sender_code, receiver_code, options_code, parts_code) };

    ghost view = { λ p. record { client = p.client; server = p.server } };
}

impl<D: Delivered + Drop> PairJudge<D> {
    /// A judge that was fed nothing, of a client's capture and a server's with these headers. Takes no memory.
    pub fn new(alloc: Global, client: &Header, server: &Header) -> Self
        ensures after { IsPairAfter result (header_of client.now) [] (header_of server.now) [] }
        ensures free { (result.client.held ≡ None) × (result.server.held ≡ None) }
        ensures goes_on { (result.client.judge.refused ≡ None) × (result.server.judge.refused ≡ None) }
    {
        PairJudge {
            client: Side::new(alloc, client),
            server: Side::new(alloc, server),
        }
    }

    /// The same of captures whose numbers begin again after 65535 (RFC 1350, section 5): it can be fed by `feed_numbered`. Takes 1 MiB
    /// of flags for each end.
    pub fn new_numbered(alloc: Global, client: &Header, server: &Header) -> Result<Self, AllocError>
        ensures after { IfOk result (λ pair. IsPairAfter pair (header_of client.now) [] (header_of server.now) []) }
        ensures free { IfOk result (λ pair. (pair.client.held ≡ None) × (pair.server.held ≡ None)) }
        ensures goes_on { IfOk result (λ pair. (pair.client.judge.refused ≡ None) × (pair.server.judge.refused ≡ None)) }
        ensures numbered { IfOk result (λ pair. (end : EndKind) → IsNumbered (side_at end pair)) }
    {
        let client = Side::new_numbered(alloc, client)?;
        let server = Side::new_numbered(alloc, server)?;
        Ok(PairJudge { client, server })
    }

    /// The same with these flags of the ACKs of each end, of which none is set.
    pub(crate) fn with_acks(
        alloc: Global,
        client: &Header,
        client_acks: AckFlags,
        server: &Header,
        server_acks: AckFlags,
    ) -> Self
        requires client_none { (j : ℕ) → flags_in client_acks j ≡ false }
        requires server_none { (j : ℕ) → flags_in server_acks j ≡ false }
        ensures after { IsPairAfter result (header_of client.now) [] (header_of server.now) [] }
        ensures free { (result.client.held ≡ None) × (result.server.held ≡ None) }
        ensures goes_on { (result.client.judge.refused ≡ None) × (result.server.judge.refused ≡ None) }
        ensures acks { (result.client.acks ≡ client_acks) × (result.server.acks ≡ server_acks) }
    {
        PairJudge {
            client: Side::of(alloc, client, client_acks),
            server: Side::of(alloc, server, server_acks),
        }
    }

    /// Takes the next datagram that was captured at this end, of which none waits: Ok exactly if it breaks no rule there, as
    /// for one capture. What goes out, and what is no part of the transfer, is merged; what comes in is merged where the other
    /// end has sent what it says, else it waits; and what goes out lets go on what waits for it at the other end. After a
    /// refusal the end answers that one for good, and the other end goes on. In place of a datagram that waits the caller
    /// gets another one's memory.
    pub fn feed(&mut self, alloc: Global, end: End, datagram: &mut Datagram) -> Result<(), Refusal>
        requires few { (side_at end self.old).judge.fed < 2 ^ 40 }
        requires short { length datagram.old.payload ≤ 65527 }
        requires free { (side_at end self.old).held ≡ None }
        ensures client { end ≡ Client → (h k : HeaderParts) (client server : List DatagramParts) → IsPairAfter self.old h client k server
            → OnOk result (Passes h client (datagram_of datagram.old) × IsPairAfter self.new h (datagram_of datagram.old ∷ client) k server) }
        ensures server { end ≡ Server → (h k : HeaderParts) (client server : List DatagramParts) → IsPairAfter self.old h client k server
            → OnOk result (Passes k server (datagram_of datagram.old) × IsPairAfter self.new h client k (datagram_of datagram.old ∷ server)) }
        ensures refuses_client { end ≡ Client → (h k : HeaderParts) (client server : List DatagramParts) → IsPairAfter self.old h client k server
            → self.old.client.judge.refused ≡ None → IfErr result (Refuses h client (datagram_of datagram.old)) }
        ensures refuses_server { end ≡ Server → (h k : HeaderParts) (client server : List DatagramParts) → IsPairAfter self.old h client k server
            → self.old.server.judge.refused ≡ None → IfErr result (Refuses k server (datagram_of datagram.old)) }

        // A refusal hides nothing: what was merged stays, and the end answers it from then on.
        ensures stays { (h k : HeaderParts) (client server : List DatagramParts) → IsPairAfter self.old h client k server
            → IfErr result (λ refusal. IsPairAfter self.new h client k server) }
        ensures keeps { IfErr result (λ refusal. (side_at end self.new).judge.refused ≡ Some refusal) }
        ensures goes_on { (side_at end self.old).judge.refused ≡ None → OnOk result ((side_at end self.new).judge.refused ≡ None) }
        ensures for_good { (refusal : RefusalKind) → (side_at end self.old).judge.refused ≡ Some refusal → (result ≡ Err refusal) × (self.new ≡ self.old) }

        ensures counts { OnOk result ((side_at end self.new).judge.fed ≡ (side_at end self.old).judge.fed + 1) }
        ensures counting { CountsOn (side_at end self.old).counts (side_at end self.new).counts (datagram_of datagram.old) }

        // Of the other end no more than what waits goes on.
        ensures other { HasSame (side_at (other_end end) self.old) (side_at (other_end end) self.new) }
    {
        self.take(alloc, None, end, datagram)
    }

    /// The same where numbers begin again after 65535 (RFC 1350, section 5, gives them two bytes and says no more): at each end a number
    /// is taken for the block near the highest that has passed there. Merged, counted and asked for is the block, and not its number.
    pub fn feed_numbered(
        &mut self,
        alloc: Global,
        rollover: Rollover,
        end: End,
        datagram: &mut Datagram,
    ) -> Result<(), Refusal>
        requires few { (side_at end self.old).judge.fed < 2 ^ 40 }
        requires short { length datagram.old.payload ≤ 65527 }
        requires free { (side_at end self.old).held ≡ None }
        requires numbered { IsNumbered (side_at end self.old) }

        // For all that it stands for: it stands for them with this one, with a block in the place of its number.
        ensures client { end ≡ Client → (h k : HeaderParts) (client server : List DatagramParts) (d : DatagramParts) → IsPairAfter self.old h client k server
            → IsUnrolled rollover (transfer_of h client) (datagram_of datagram.old) d
            → OnOk result (Passes h client d × IsPairAfter self.new h (d ∷ client) k server) }
        ensures server { end ≡ Server → (h k : HeaderParts) (client server : List DatagramParts) (d : DatagramParts) → IsPairAfter self.old h client k server
            → IsUnrolled rollover (transfer_of k server) (datagram_of datagram.old) d
            → OnOk result (Passes k server d × IsPairAfter self.new h client k (d ∷ server)) }
        ensures refuses_client { end ≡ Client → (h k : HeaderParts) (client server : List DatagramParts) (d : DatagramParts) → IsPairAfter self.old h client k server
            → IsUnrolled rollover (transfer_of h client) (datagram_of datagram.old) d → self.old.client.judge.refused ≡ None → IfErr result (Refuses h client d) }
        ensures refuses_server { end ≡ Server → (h k : HeaderParts) (client server : List DatagramParts) (d : DatagramParts) → IsPairAfter self.old h client k server
            → IsUnrolled rollover (transfer_of k server) (datagram_of datagram.old) d → self.old.server.judge.refused ≡ None → IfErr result (Refuses k server d) }
        ensures unrolls_client { (h k : HeaderParts) (client server : List DatagramParts) → IsPairAfter self.old h client k server
            → (d : DatagramParts) × IsUnrolled rollover (transfer_of h client) (datagram_of datagram.old) d }
        ensures unrolls_server { (h k : HeaderParts) (client server : List DatagramParts) → IsPairAfter self.old h client k server
            → (d : DatagramParts) × IsUnrolled rollover (transfer_of k server) (datagram_of datagram.old) d }

        // And all else as above.
        ensures stays { (h k : HeaderParts) (client server : List DatagramParts) → IsPairAfter self.old h client k server
            → IfErr result (λ refusal. IsPairAfter self.new h client k server) }
        ensures keeps { IfErr result (λ refusal. (side_at end self.new).judge.refused ≡ Some refusal) }
        ensures goes_on { (side_at end self.old).judge.refused ≡ None → OnOk result ((side_at end self.new).judge.refused ≡ None) }
        ensures for_good { (refusal : RefusalKind) → (side_at end self.old).judge.refused ≡ Some refusal → (result ≡ Err refusal) × (self.new ≡ self.old) }

        ensures counts { OnOk result ((side_at end self.new).judge.fed ≡ (side_at end self.old).judge.fed + 1) }
        ensures counting_client { end ≡ Client → (h k : HeaderParts) (client server : List DatagramParts) (d : DatagramParts) → IsPairAfter self.old h client k server
            → IsUnrolled rollover (transfer_of h client) (datagram_of datagram.old) d → CountsOn self.old.client.counts self.new.client.counts d }
        ensures counting_server { end ≡ Server → (h k : HeaderParts) (client server : List DatagramParts) (d : DatagramParts) → IsPairAfter self.old h client k server
            → IsUnrolled rollover (transfer_of k server) (datagram_of datagram.old) d → CountsOn self.old.server.counts self.new.server.counts d }
        ensures other { HasSame (side_at (other_end end) self.old) (side_at (other_end end) self.new) }
        ensures numbered { (e : EndKind) → IsNumbered (side_at e self.old) → IsNumbered (side_at e self.new) }
    {
        self.take(alloc, Some(rollover), end, datagram)
    }

    /// Takes the next datagram, whose numbers begin again or do not.
    pub(crate) fn take(
        &mut self,
        alloc: Global,
        rollover: Option<Rollover>,
        end: End,
        datagram: &mut Datagram,
    ) -> Result<(), Refusal>
        requires few { (side_at end self.old).judge.fed < 2 ^ 40 }
        requires short { length datagram.old.payload ≤ 65527 }
        requires free { (side_at end self.old).held ≡ None }
        requires numbered { (r : RolloverKind) → rollover ≡ Some r → IsNumbered (side_at end self.old) }
        ensures client { end ≡ Client → (h k : HeaderParts) (client server : List DatagramParts) (d : DatagramParts) → IsPairAfter self.old h client k server
            → IsTaken rollover (transfer_of h client) (datagram_of datagram.old) d
            → OnOk result (Passes h client d × IsPairAfter self.new h (d ∷ client) k server) }
        ensures server { end ≡ Server → (h k : HeaderParts) (client server : List DatagramParts) (d : DatagramParts) → IsPairAfter self.old h client k server
            → IsTaken rollover (transfer_of k server) (datagram_of datagram.old) d
            → OnOk result (Passes k server d × IsPairAfter self.new h client k (d ∷ server)) }
        ensures refuses_client { end ≡ Client → (h k : HeaderParts) (client server : List DatagramParts) (d : DatagramParts) → IsPairAfter self.old h client k server
            → IsTaken rollover (transfer_of h client) (datagram_of datagram.old) d → self.old.client.judge.refused ≡ None → IfErr result (Refuses h client d) }
        ensures refuses_server { end ≡ Server → (h k : HeaderParts) (client server : List DatagramParts) (d : DatagramParts) → IsPairAfter self.old h client k server
            → IsTaken rollover (transfer_of k server) (datagram_of datagram.old) d → self.old.server.judge.refused ≡ None → IfErr result (Refuses k server d) }
        ensures stays { (h k : HeaderParts) (client server : List DatagramParts) → IsPairAfter self.old h client k server
            → IfErr result (λ refusal. IsPairAfter self.new h client k server) }
        ensures keeps { IfErr result (λ refusal. (side_at end self.new).judge.refused ≡ Some refusal) }
        ensures goes_on { (side_at end self.old).judge.refused ≡ None → OnOk result ((side_at end self.new).judge.refused ≡ None) }
        ensures for_good { (refusal : RefusalKind) → (side_at end self.old).judge.refused ≡ Some refusal → (result ≡ Err refusal) × (self.new ≡ self.old) }

        ensures counts { OnOk result ((side_at end self.new).judge.fed ≡ (side_at end self.old).judge.fed + 1) }
        ensures counting { rollover ≡ None → CountsOn (side_at end self.old).counts (side_at end self.new).counts (datagram_of datagram.old) }
        ensures counting_client { end ≡ Client → (h k : HeaderParts) (client server : List DatagramParts) (d : DatagramParts) → IsPairAfter self.old h client k server
            → IsTaken rollover (transfer_of h client) (datagram_of datagram.old) d → CountsOn self.old.client.counts self.new.client.counts d }
        ensures counting_server { end ≡ Server → (h k : HeaderParts) (client server : List DatagramParts) (d : DatagramParts) → IsPairAfter self.old h client k server
            → IsTaken rollover (transfer_of k server) (datagram_of datagram.old) d → CountsOn self.old.server.counts self.new.server.counts d }
        ensures other { HasSame (side_at (other_end end) self.old) (side_at (other_end end) self.new) }
        ensures numbered { (e : EndKind) → IsNumbered (side_at e self.old) → IsNumbered (side_at e self.new) }
    {
        match end {
            End::Client => self
                .client
                .take(alloc, rollover, &mut self.server, datagram),
            End::Server => self
                .server
                .take(alloc, rollover, &mut self.client, datagram),
        }
    }

    /// Whether the last datagram of this end waits for what the other end sends. Then no more of its capture may be fed.
    #[inline]
    pub fn waits(&self, end: End) -> bool
        ensures { result ≡ is_some (side_at end self.now).held }
    {
        match end {
            End::Client => self.client.waits(),
            End::Server => self.server.waits(),
        }
    }

    /// How many datagrams of this end were accepted.
    #[inline]
    pub fn fed(&self, end: End) -> u64
        ensures { result ≡ (side_at end self.now).judge.fed }
    {
        match end {
            End::Client => self.client.fed(),
            End::Server => self.server.fed(),
        }
    }

    /// How many datagrams of this end are merged: all that were accepted, but the one that waits.
    #[inline]
    pub fn merged(&self, end: End) -> u64
        ensures client { end ≡ Client → (h k : HeaderParts) (client server : List DatagramParts) → (after : IsPairAfter self.now h client k server)
            → result ≡ length after.merged.part }
        ensures server { end ≡ Server → (h k : HeaderParts) (client server : List DatagramParts) → (after : IsPairAfter self.now h client k server)
            → result ≡ length after.merged.other_part }
    {
        match end {
            End::Client => self.client.merged(),
            End::Server => self.server.merged(),
        }
    }

    /// What is left once neither goes further: of each one waits, or it was fed to its end or refused.
    pub fn rest(self) -> PairRest<D>
        ensures after { (h k : HeaderParts) (client server : List DatagramParts) → IsPairAfter self h client k server → IsRestAfter result h client k server }
        ensures client { result.client.side ≡ self.client }
        ensures server { result.server.side ≡ self.server }
    {
        PairRest::of(Left::begin(self.client), Left::begin(self.server))
    }
}
