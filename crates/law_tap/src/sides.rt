ghost use Rattle.std.specs.Prelude.{◌≡◌, ℕ, List};
ghost use Rattle.tftp_packet.specs.{opcode_of};
ghost use Rattle.law_tap.specs.TapCapture.{TapDatagram};
ghost use Rattle.law_tap.specs.LossyRules.{lossy_astray, lossy_route};
ghost use Rattle.law_tap.specs.TapRoutes.{asks_in, ends_in, has_gone, route_astray, route_from_client, route_from_server, route_from_elsewhere, tap_route};

use crate::route::TapRoute;
use std::marker::Model;
use tftp_packet::hosts::Peer;
use tftp_packet::rounds::Rollover;

/// The sides of one transfer, as a tap is told them: who asks, where, and who goes on with it (RFC 1350, section 4).
#[derive(Clone, Copy)]
pub struct Sides {
    /// The client's side.
    pub client: Peer,
    /// Where the client sends its requests.
    pub asked: Peer,
    /// Where the server goes on.
    pub server: Peer,
    /// What comes after block 65535, where anything does.
    pub rollover: Option<Rollover>,
}

impl Model for Sides {
    ghost use Rattle.law_tap.specs.TapCapture.{TapSides};

    ghost Value = { TapSides };

    ghost view = { λ s. record { client = s.client; asked = s.asked; server = s.server; rollover = s.rollover } };

    ghost inverse = { λ v. record { client = v.client; asked = v.asked; server = v.server; rollover = v.rollover } };
}

/// A datagram that passes, as far as its route goes: its two sides, the opcode of its payload, and whether anything has gone
/// the other way between its sides.
#[derive(Clone, Copy)]
pub struct Passing {
    /// Where it comes from.
    pub source: Peer,
    /// Where it goes.
    pub destination: Peer,
    /// Its first two bytes, as a number, and 0 where it has none (RFC 1350, section 5).
    pub opcode: u16,
    /// Whether something has gone from its destination to its source.
    pub answers: bool,
}

impl Passing {
    fn asks(&self) -> bool
        ensures { (payload : List ℕ) → opcode_of payload ≡ self.now.opcode → result ≡ asks_in payload }
    {
        matches!(self.opcode, 1 | 2)
    }

    fn ends(&self) -> bool
        ensures { (payload : List ℕ) → opcode_of payload ≡ self.now.opcode → result ≡ ends_in payload }
    {
        self.opcode == 5
    }

    /// What an end sends to neither the other end nor where it asks.
    fn astray(&self) -> TapRoute
        ensures { (earlier : List TapDatagram) (payload : List ℕ) → opcode_of payload ≡ self.now.opcode
            → has_gone self.now.destination self.now.source earlier ≡ self.now.answers
            → result ≡ route_astray earlier (record { source = self.now.source; destination = self.now.destination; payload = payload }) }
    {
        if !self.answers {
            TapRoute::WrongPort
        } else if self.ends() {
            TapRoute::StrayAnswer
        } else {
            TapRoute::NoStrayAnswer
        }
    }
}

impl Sides {
    /// Where a datagram belongs that passes between the ends (RFC 1350, section 4), where it is known whether something has gone
    /// from the server to the client.
    pub fn route(&self, passing: &Passing, answered: bool) -> TapRoute
        ensures { (earlier : List TapDatagram) (payload : List ℕ) → opcode_of payload ≡ passing.now.opcode
            → has_gone passing.now.destination passing.now.source earlier ≡ passing.now.answers
            → has_gone self.now.server self.now.client earlier ≡ answered
            → result ≡ tap_route self.now earlier (record { source = passing.now.source; destination = passing.now.destination; payload = payload }) }
    {
        if passing.source == self.client {
            self.from_client(passing, answered)
        } else if passing.source == self.server {
            self.from_server(passing)
        } else {
            self.from_elsewhere(passing)
        }
    }

    /// Where a datagram belongs that passes between the ends, whatever was missed: then anything may have gone the other way (RFC 1350,
    /// section 4).
    pub fn route_with_losses(&self, source: Peer, destination: Peer, opcode: u16) -> TapRoute
        ensures { (payload : List ℕ) → opcode_of payload ≡ opcode
            → result ≡ lossy_route self.now (record { source = source; destination = destination; payload = payload }) }
    {
        let passing = Passing {
            source,
            destination,
            opcode,
            answers: true,
        };
        if source == self.client {
            if passing.asks() {
                if destination == self.asked {
                    TapRoute::Request
                } else {
                    TapRoute::WrongPort
                }
            } else if destination == self.server {
                TapRoute::FromClient
            } else {
                self.astray_with_losses(&passing)
            }
        } else if source == self.server {
            if destination == self.client {
                TapRoute::FromServer
            } else {
                self.astray_with_losses(&passing)
            }
        } else {
            self.from_elsewhere(&passing)
        }
    }

    /// What an end sends to neither the other end nor where it asks, whatever was missed.
    fn astray_with_losses(&self, passing: &Passing) -> TapRoute
        ensures { (payload : List ℕ) → opcode_of payload ≡ passing.now.opcode
            → result ≡ lossy_astray self.now (record { source = passing.now.source; destination = passing.now.destination; payload = payload }) }
    {
        if passing.destination == self.client || passing.destination == self.server {
            TapRoute::WrongPort
        } else if passing.ends() {
            TapRoute::StrayAnswer
        } else {
            TapRoute::WrongPort
        }
    }

    fn from_client(&self, passing: &Passing, answered: bool) -> TapRoute
        ensures { (earlier : List TapDatagram) (payload : List ℕ) → opcode_of payload ≡ passing.now.opcode
            → has_gone passing.now.destination passing.now.source earlier ≡ passing.now.answers
            → has_gone self.now.server self.now.client earlier ≡ answered
            → result ≡ route_from_client self.now earlier (record { source = passing.now.source; destination = passing.now.destination; payload = payload }) }
    {
        if passing.asks() {
            if passing.destination == self.asked {
                TapRoute::Request
            } else {
                TapRoute::WrongPort
            }
        } else if passing.destination == self.server {
            if answered {
                TapRoute::FromClient
            } else {
                TapRoute::WrongPort
            }
        } else {
            passing.astray()
        }
    }

    fn from_server(&self, passing: &Passing) -> TapRoute
        ensures { (earlier : List TapDatagram) (payload : List ℕ) → opcode_of payload ≡ passing.now.opcode
            → has_gone passing.now.destination passing.now.source earlier ≡ passing.now.answers
            → result ≡ route_from_server self.now earlier (record { source = passing.now.source; destination = passing.now.destination; payload = payload }) }
    {
        if passing.destination == self.client {
            TapRoute::FromServer
        } else {
            passing.astray()
        }
    }

    fn from_elsewhere(&self, passing: &Passing) -> TapRoute
        ensures { (payload : List ℕ) → opcode_of payload ≡ passing.now.opcode
            → result ≡ route_from_elsewhere self.now (record { source = passing.now.source; destination = passing.now.destination; payload = payload }) }
    {
        if passing.destination == self.client {
            TapRoute::Stray
        } else if passing.destination == self.server {
            if self.server.port == self.asked.port && passing.asks() {
                TapRoute::ForeignPort
            } else {
                TapRoute::Stray
            }
        } else {
            TapRoute::ForeignPort
        }
    }
}
