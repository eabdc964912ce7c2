ghost use Rattle.std.specs.Prelude.{◌≡◌, ◌≢◌, ◌&&◌, not, ℕ, false, List, [], ◌∷◌, Option, Some, None, is_some, option_map, Ok, Err, OnOk, OnErr};
ghost use Rattle.tftp_packet.specs.{opcode_of};
ghost use Rattle.tftp_packet.specs.Hosts.{Datagram, Header, same_peer};
ghost use Rattle.tftp_packet.specs.{Rollover};
ghost use Rattle.law_model.specs.Rules.Ports as definitions;
ghost use Rattle.tftp_ends.specs.Known.{
  StandsFor,
  NotesStrays,
  HasNumbers,
  HasNoRequest,
  IsNewStray,
  among_all,
  answer_of,
  datagram_as,
  is_noted,
  peer_as,
};

use crate::route::Route;
use crate::strays::Strays;
use law_model::rules::PortRule;
use std::alloc::{AllocError, Global};
use std::convert::From;
use std::marker::Model;
use tftp_packet::End;
use tftp_packet::hosts::{Dir, Host, Peer};

/// Why a datagram is none of the transfer, nor a stray.
#[derive(Clone, Copy, Debug, PartialEq, Eq)]
pub enum PortFault {
    /// The first rule of ports and hosts that it breaks; of what answers a stray it is only seen that it is no ERROR.
    Broken(PortRule),
    /// No memory to note where a stray came from.
    Memory,
}

impl From<AllocError> for PortFault {
    ghost use Rattle.tftp_ends.specs.declared.ports.PortFault.{PortFault};

    ghost from_gives = { λ _ fault. fault ≡ PortFault.Memory };

    fn from(_error: AllocError) -> Self {
        PortFault::Memory
    }
}

/// The two sides of a datagram: a port at the named end, and the other side.
#[derive(Clone, Copy)]
struct Sides {
    local: u16,
    peer: Peer,
}

/// A datagram, as far as its route goes. The host is borrowed, since it has many bytes and is kept of few datagrams.
#[derive(Clone, Copy)]
struct Seen<'a> {
    dir: Dir,
    local: u16,
    host: &'a Host,
    remote: u16,
    opcode: u16,
}

impl Seen<'_> {
    /// Whether it is between the named end and this peer.
    #[inline(always)]
    fn is_with(&self, peer: &Peer) -> bool
        ensures { result ≡ same_peer (peer_as self.now) peer.now }
    {
        self.remote == peer.port && *self.host == peer.host
    }

    /// The other side.
    fn peer(&self) -> Peer
        ensures { result ≡ peer_as self.now }
    {
        Peer {
            host: *self.host,
            port: self.remote,
        }
    }

    /// Both sides.
    fn sides(&self) -> Sides
        ensures { result ≡ record { local = self.now.local; peer = peer_as self.now } }
    {
        Sides {
            local: self.local,
            peer: self.peer(),
        }
    }

    fn begins_request(&self) -> bool
        ensures { (payload : List ℕ) → opcode_of payload ≡ self.now.opcode
            → result ≡ definitions.begins_request (datagram_as self.now payload) }
    {
        matches!(self.opcode, 1 | 2)
    }

    fn begins_error(&self) -> bool
        ensures { (payload : List ℕ) → opcode_of payload ≡ self.now.opcode
            → result ≡ definitions.begins_error (datagram_as self.now payload) }
    {
        self.opcode == 5
    }

    fn is_from_client(&self, named: End) -> bool
        ensures { (payload : List ℕ) → result ≡ definitions.is_from_client named (datagram_as self.now payload) }
    {
        matches!(
            (named, self.dir),
            (End::Client, Dir::Out) | (End::Server, Dir::In)
        )
    }

    fn port_of_server(&self, named: End) -> u16
        ensures { (payload : List ℕ) → result ≡ definitions.port_of_server named (datagram_as self.now payload) }
    {
        match named {
            End::Client => self.remote,
            End::Server => self.local,
        }
    }
}

/// Which datagrams belong to a transfer, by their ports and the other host (RFC 1350, section 4). It keeps the ids that
/// the first datagrams fixed, and where strays came from.
#[derive(Drop)]
pub struct Ports {
    named: End,
    service: u16,
    /// Of the first request.
    asked: Option<Sides>,
    /// Of the first datagram from the server's side.
    answered: Option<Sides>,
    strays: Strays,
}

impl Model for Ports {
    ghost use Rattle.std.specs.Prelude.{None};
    ghost use Rattle.tftp_ends.specs.Known.{KnownIds};

    ghost Value = { KnownIds };

    ghost view = { λ p. record {
      header = record { named = p.named; service = p.service; rollover = None };
      asked = p.asked;
      answered = p.answered;
      strays = p.strays;
    } };
}

impl Ports {
    /// The ports of a transfer that nothing has passed of. Takes no memory.
    pub fn new(alloc: Global, end: End, service: u16) -> Self
        ensures { (rollover : Option Rollover) → StandsFor result (record { named = end; service = service; rollover = rollover }) [] }
    {
        Ports {
            named: end,
            service,
            asked: None,
            answered: None,
            strays: Strays::new(alloc),
        }
    }

    /// Where a datagram belongs after those that have passed, or why it may not pass. Of its payload the opcode alone is
    /// known. Takes memory only for a stray from where none has come.
    pub fn class(
        &mut self,
        dir: Dir,
        local: u16,
        host: &Host,
        remote: u16,
        opcode: u16,
    ) -> Result<Route, PortFault>
        ensures answer { (h : Header) (earlier : List Datagram) (d : Datagram) → StandsFor self.old h earlier
            → HasNumbers d dir local host.now remote opcode
            → result ≢ Err PortFault.Memory → result ≡ answer_of (definitions.route_of h earlier d) }
        ensures memory { (h : Header) (earlier : List Datagram) (d : Datagram) → StandsFor self.old h earlier
            → HasNumbers d dir local host.now remote opcode
            → result ≡ Err PortFault.Memory → IsNewStray h earlier d }
        ensures passes { (h : Header) (earlier : List Datagram) (d : Datagram) → StandsFor self.old h earlier
            → HasNumbers d dir local host.now remote opcode
            → OnOk result ((HasNoRequest h earlier d → ⊥) → StandsFor self.new h (d ∷ earlier)) }
        ensures waits { self.old.asked ≡ None → result ≡ Ok Route.Peer → self.new ≡ self.old }
        ensures err { OnErr result (self.new ≡ self.old) }
    {
        let seen = Seen {
            dir,
            local,
            host,
            remote,
            opcode,
        };
        let route = self.route(&seen)?;
        self.keep(&seen, route)?;
        Ok(route)
    }

    /// Keeps what a datagram of this route fixes, or that it is a stray.
    fn keep(&mut self, seen: &Seen, route: Route) -> Result<(), AllocError>
        ensures stands { (h : Header) (earlier : List Datagram) (payload : List ℕ) → StandsFor self.old h earlier
            → among_all route ≡ definitions.route_of h earlier (datagram_as seen.now payload)
            → OnOk result ((HasNoRequest h earlier (datagram_as seen.now payload) → ⊥) → StandsFor self.new h (datagram_as seen.now payload ∷ earlier)) }
        ensures absent { OnErr result ((route ≡ Route.Stray) × (is_noted (peer_as seen.now) self.old.strays ≡ false)) }
        ensures waits { self.old.asked ≡ None → route ≡ Route.Peer → self.new ≡ self.old }
        ensures err { OnErr result (self.new ≡ self.old) }
    {
        match route {
            Route::Request if self.asked.is_none() => self.asked = Some(seen.sides()),
            Route::Peer if self.is_first_answer(seen) => self.answered = Some(seen.sides()),
            Route::Request | Route::Peer => {}
            Route::Stray => self.strays.note(seen.peer())?,
            Route::StrayAnswer => {}
        }
        Ok(())
    }

    /// Whether a datagram that goes this way is the first from the server's side, after a first request.
    fn is_first_answer(&self, seen: &Seen<'_>) -> bool
        ensures { (payload : List ℕ) → result ≡ (is_some self.now.asked && not (is_some self.now.answered)
            && not (definitions.is_from_client self.now.header.named (datagram_as seen.now payload))) }
    {
        self.asked.is_some() && self.answered.is_none() && !seen.is_from_client(self.named)
    }

    /// Where a datagram belongs.
    fn route(&self, seen: &Seen<'_>) -> Result<Route, PortFault>
        ensures { (h : Header) (earlier : List Datagram) (payload : List ℕ) → StandsFor self.now h earlier
            → opcode_of payload ≡ seen.now.opcode
            → result ≡ answer_of (definitions.route_of h earlier (datagram_as seen.now payload)) }
    {
        match &self.asked {
            None => self.route_before(seen),
            Some(first) => match self.named {
                End::Client => self.route_at_client(first, seen),
                End::Server => self.route_at_server(first, seen),
            },
        }
    }

    /// Where it belongs before the first request.
    fn route_before(&self, seen: &Seen<'_>) -> Result<Route, PortFault>
        ensures { (payload : List ℕ) → opcode_of payload ≡ seen.now.opcode
            → result ≡ answer_of (definitions.route_before self.now.header (datagram_as seen.now payload)) }
    {
        if !seen.is_from_client(self.named) || !seen.begins_request() {
            Ok(Route::Peer)
        } else if seen.port_of_server(self.named) == self.service {
            Ok(Route::Request)
        } else {
            Err(PortFault::Broken(PortRule::Wrong))
        }
    }

    /// Where it belongs at a client, after its first request.
    fn route_at_client(&self, first: &Sides, seen: &Seen<'_>) -> Result<Route, PortFault>
        ensures { (earlier : List Datagram) (payload : List ℕ) → opcode_of payload ≡ seen.now.opcode
            → NotesStrays self.now.strays (option_map (λ s. s.peer) self.now.answered) earlier
            → result ≡ answer_of (definitions.route_at_client first.now.local first.now.peer (option_map (λ s. s.peer) self.now.answered) earlier
            (datagram_as seen.now payload)) }
    {
        if seen.local != first.local {
            return Err(PortFault::Broken(PortRule::Foreign));
        }
        let is_request = seen.begins_request();
        match (seen.dir, &self.answered) {
            (Dir::Out, _) if is_request && seen.is_with(&first.peer) => Ok(Route::Request),
            (Dir::Out, _) if is_request => Err(PortFault::Broken(PortRule::Wrong)),
            (Dir::Out, None) => Err(PortFault::Broken(PortRule::Wrong)),
            (Dir::Out, Some(answer)) => self.route_out(&answer.peer, seen),
            (Dir::In, Some(answer)) if !seen.is_with(&answer.peer) => Ok(Route::Stray),
            (Dir::In, _) => Ok(Route::Peer),
        }
    }

    /// Where it belongs at a server, after its client's first request.
    fn route_at_server(&self, first: &Sides, seen: &Seen<'_>) -> Result<Route, PortFault>
        ensures { (earlier : List Datagram) (payload : List ℕ) → opcode_of payload ≡ seen.now.opcode
            → NotesStrays self.now.strays (Some first.now.peer) earlier
            → result ≡ answer_of (definitions.route_at_server self.now.header first.now.peer (option_map (λ s. s.local) self.now.answered) earlier
            (datagram_as seen.now payload)) }
    {
        let client = &first.peer;
        let is_request = seen.begins_request();
        let is_to_service = is_request && seen.local == self.service;
        match (&self.answered, seen.dir) {
            (None, Dir::Out) if seen.is_with(client) => Ok(Route::Peer),
            (None, Dir::Out) => Err(PortFault::Broken(PortRule::Wrong)),
            (None, Dir::In) => self.route_to_service(client, seen),
            (Some(own), Dir::Out) if seen.local != own.local => Err(PortFault::Broken(
                PortRule::Foreign,
            )),
            (Some(_), Dir::Out) => self.route_out(client, seen),
            (Some(own), Dir::In) if seen.local != own.local || is_to_service => {
                self.route_to_service(client, seen)
            }
            (Some(_), Dir::In) if !seen.is_with(client) => Ok(Route::Stray),
            (Some(_), Dir::In) if is_request => Err(PortFault::Broken(PortRule::Wrong)),
            (Some(_), Dir::In) => Ok(Route::Peer),
        }
    }

    /// What comes in at the service port of a server that has not answered, or answers from another port.
    fn route_to_service(&self, client: &Peer, seen: &Seen<'_>) -> Result<Route, PortFault>
        ensures { (payload : List ℕ) → opcode_of payload ≡ seen.now.opcode
            → result ≡ answer_of (definitions.route_to_service self.now.header client.now (datagram_as seen.now payload)) }
    {
        if seen.local != self.service || !seen.is_with(client) {
            Err(PortFault::Broken(PortRule::Foreign))
        } else if seen.begins_request() {
            Ok(Route::Request)
        } else {
            Err(PortFault::Broken(PortRule::Wrong))
        }
    }

    /// What goes out from the end's own port: to the other end, or in answer to a stray.
    fn route_out(&self, other: &Peer, seen: &Seen<'_>) -> Result<Route, PortFault>
        ensures { (earlier : List Datagram) (payload : List ℕ) → opcode_of payload ≡ seen.now.opcode
            → NotesStrays self.now.strays (Some other.now) earlier
            → result ≡ answer_of (definitions.route_out other.now earlier (datagram_as seen.now payload)) }
    {
        if seen.is_with(other) {
            Ok(Route::Peer)
        } else if !self.strays.have(seen.peer()) {
            Err(PortFault::Broken(PortRule::Wrong))
        } else if seen.begins_error() {
            Ok(Route::StrayAnswer)
        } else {
            Err(PortFault::Broken(PortRule::BadAnswer))
        }
    }
}
