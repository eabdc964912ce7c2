//! The two ends of one transfer, and which datagrams each of them saw.

ghost use Rattle.std.specs.Prelude.{◌≡◌, ◌∷◌, ℕ, List, [], false};
ghost use Rattle.law_model.specs.Rules.{or_this};
ghost use Rattle.audit_flows.specs.Lines.{Placed, Recorded, is_of};
ghost use Rattle.audit_flows.specs.Transfers.Views.{is_about, opened_it, comes, goes_on, goes_to_asked, server_of, has_host, has_port, is_end, is_server, is_at_server};
ghost use Rattle.audit_flows.specs.Transfers.Kept.{AreEndsAfter};
ghost use Rattle.audit_flows.specs.Transfers.Settled.{is_settled};

use crate::lines::{Endpoint, Place, Transfer};
use tftp_packet::opcode;

/// Whom a transfer's client asked, who answered it, and with whom it went on, by the datagrams that have been noted.
#[derive(Clone, Copy, Debug)]
pub struct TransferEnds {
    number: u64,
    asked: Option<Endpoint>,
    answered: Option<Endpoint>,
    went_on: Option<Endpoint>,
}

impl TransferEnds {
    /// Of the transfer with this number, before any datagram.
    pub fn new(number: u64) -> Self
        ensures stands { AreEndsAfter result [] }
        ensures number { result.number ≡ number }
    {
        TransferEnds {
            number,
            asked: None,
            answered: None,
            went_on: None,
        }
    }

    /// Notes one datagram, of this transfer or of another, which belongs there.
    pub fn note(&mut self, place: &Place, source: Endpoint, target: Endpoint, payload: &[u8])
        ensures stands { (p : Placed) (older : List Placed) → AreEndsAfter self.old older → place.now ≡ p.place
            → p.datagram.source ≡ source → p.datagram.target ≡ target → p.datagram.payload ≡ payload.now
            → AreEndsAfter self.new (p ∷ older) }
        ensures others { (p : Placed) → place.now ≡ p.place → is_of self.old.number p ≡ false → self.new ≡ self.old }
        ensures number { self.new.number ≡ self.old.number }
    {
        let (opens, comes, goes_on) = (
            self.is_opened(place),
            self.comes(place, target),
            self.goes_on(place, source, payload),
        );
        self.asked = first(self.asked, opens, target);
        self.answered = first(self.answered, comes, source);
        self.went_on = first(self.went_on, goes_on, target);
    }

    fn is_opened(&self, place: &Place) -> bool
        ensures { (p : Placed) → place.now ≡ p.place → result ≡ opened_it self.now.number p }
    {
        match place {
            Place::Opens(transfer) => transfer.number == self.number,
            _ => false,
        }
    }

    /// Whether it came to the client.
    fn comes(&self, place: &Place, target: Endpoint) -> bool
        ensures { (p : Placed) → place.now ≡ p.place → p.datagram.target ≡ target → result ≡ comes self.now.number p }
    {
        match place {
            Place::Talks(transfer) => transfer.number == self.number && target == transfer.client,
            _ => false,
        }
    }

    /// Whether the client sent it, and it is no request and no ERROR.
    fn goes_on(&self, place: &Place, source: Endpoint, payload: &[u8]) -> bool
        ensures { (p : Placed) → place.now ≡ p.place → p.datagram.source ≡ source → p.datagram.payload ≡ payload.now
            → result ≡ goes_on self.now.number p }
    {
        match place {
            Place::Talks(transfer) => {
                let is_own = transfer.number == self.number && source == transfer.client;
                is_own && opcode(payload) != 5
            }
            _ => false,
        }
    }

    /// With whom the client went on, or else who sent it something first: the server, once all datagrams are noted.
    pub fn server(&self) -> Option<Endpoint>
        ensures { (placed : List Placed) → AreEndsAfter self.now placed → result ≡ server_of self.now.number placed }
    {
        match self.went_on {
            Some(end) => Some(end),
            None => self.answered,
        }
    }

    /// Whether all three are known, so that no later datagram changes who the server is.
    pub fn is_settled(&self) -> bool
        ensures { (placed : List Placed) → AreEndsAfter self.now placed → result ≡ is_settled self.now.number placed }
    {
        self.asked.is_some() && self.answered.is_some() && self.went_on.is_some()
    }

    /// Whether a datagram that belongs there is of the transfer at its client, or passed beside its server: no other is of
    /// either view.
    pub fn is_about(&self, place: &Place) -> bool
        ensures { (p : Placed) → place.now ≡ p.place → result ≡ is_about self.now.number p }
    {
        match place {
            Place::Opens(transfer) => transfer.number == self.number,
            Place::Repeats(transfer) => transfer.number == self.number,
            Place::Talks(transfer) => transfer.number == self.number,
            Place::Beside(transfer) => transfer.number == self.number,
            Place::Apart(_) => false,
            Place::Nowhere => false,
        }
    }

    /// Whether a datagram that belongs there is of the client's view.
    pub fn is_at_client(&self, place: &Place) -> bool
        ensures { (p : Placed) → place.now ≡ p.place → result ≡ is_of self.now.number p }
    {
        place.is_of(self.number)
    }

    /// Whether a datagram that belongs there is of the server's view, once all datagrams are noted.
    pub fn is_at_server(&self, place: &Place, source: Endpoint, target: Endpoint) -> bool
        ensures { (placed : List Placed) (p : Placed) → AreEndsAfter self.now placed → place.now ≡ p.place
            → p.datagram.source ≡ source → p.datagram.target ≡ target → result ≡ is_at_server self.now.number placed p }
    {
        match place {
            Place::Opens(transfer) => transfer.number == self.number,
            Place::Repeats(transfer) => transfer.number == self.number,
            Place::Talks(transfer) => {
                let is_asked = goes_to_asked(transfer, source, target);
                let is_server = self.is_server(transfer.peer(source, target));
                transfer.number == self.number && (is_server || is_asked)
            }
            Place::Beside(transfer) => {
                let server = self.server();
                transfer.number == self.number && (is_end(source, server) || is_end(target, server))
            }
            Place::Apart(_) => false,
            Place::Nowhere => false,
        }
    }

    /// Whether it has the server's port, at a host that was asked, that answered, or that the client went on with.
    fn is_server(&self, end: Endpoint) -> bool
        ensures { (placed : List Placed) → AreEndsAfter self.now placed → result ≡ is_server self.now.number placed end }
    {
        let answers = has_host(end, self.answered) || has_host(end, self.went_on);
        has_port(end, self.server()) && (has_host(end, self.asked) || answers)
    }
}

/// Whether the client sent it to where it had asked.
fn goes_to_asked(transfer: &Transfer, source: Endpoint, target: Endpoint) -> bool
    ensures { (d : Recorded) → d.source ≡ source → d.target ≡ target → result ≡ goes_to_asked transfer.now d }
{
    source == transfer.client && target == transfer.asked
}

/// The first end that was noted, after one datagram more.
fn first(known: Option<Endpoint>, is_one: bool, end: Endpoint) -> Option<Endpoint>
    ensures { result ≡ or_this known is_one end }
{
    match known {
        Some(end) => Some(end),
        None => { if is_one { Some(end) } else { None } }
    }
}

fn has_host(end: Endpoint, other: Option<Endpoint>) -> bool
    ensures { result ≡ has_host end other }
{
    match other {
        None => false,
        Some(other) => end.address == other.address,
    }
}

fn has_port(end: Endpoint, other: Option<Endpoint>) -> bool
    ensures { result ≡ has_port end other }
{
    match other {
        None => false,
        Some(other) => end.port == other.port,
    }
}

fn is_end(end: Endpoint, other: Option<Endpoint>) -> bool
    ensures { result ≡ is_end end other }
{
    match other {
        None => false,
        Some(other) => end == other,
    }
}
