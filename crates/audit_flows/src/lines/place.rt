//! Where a datagram of a recording belongs.

ghost use Rattle.std.specs.Prelude.{◌≡◌};
ghost use Rattle.audit_flows.specs.Lines.Places.{Placed, is_of, transfer_of};
ghost use Rattle.audit_flows.specs.Lines.Recording.{Recorded, begins_write, has_window, other_of};

use crate::lines::endpoint::Endpoint;
use crate::lines::kind::has_window;
use tftp_packet::opcode;

/// A transfer: one read or write (RFC 1350, section 1).
#[derive(Clone, Copy, Debug, PartialEq, Eq)]
pub struct Transfer {
    /// How many datagrams of the recording came before the request that opened it.
    pub number: u64,
    /// The endpoint that asked.
    pub client: Endpoint,
    /// The endpoint that was asked.
    pub asked: Endpoint,
    /// Its request is a write (RFC 1350, section 5).
    pub writes: bool,
    /// Its request names the option of windows (RFC 7440, section 3).
    pub has_window: bool,
}

impl Transfer {
    /// The transfer that a request opens, before which so many datagrams came.
    pub fn opened(number: u64, client: Endpoint, asked: Endpoint, payload: &[u8]) -> Self
        ensures { result ≡ record { number = number; client = client; asked = asked; writes = begins_write payload.now; has_window = has_window payload.now } }
    {
        Transfer {
            number,
            client,
            asked,
            writes: opcode(payload) == 2,
            has_window: has_window(payload),
        }
    }

    /// The end of a datagram that is not the client's.
    pub fn peer(&self, source: Endpoint, target: Endpoint) -> Endpoint
        ensures { (d : Recorded) → d.source ≡ source → d.target ≡ target → result ≡ other_of self.now.client d }
    {
        if source == self.client {
            target
        } else {
            source
        }
    }
}

/// Where a datagram belongs: in one place.
#[derive(Clone, Copy, Debug, PartialEq, Eq)]
pub enum Place {
    /// A request that opened the transfer.
    Opens(Transfer),
    /// The transfer's request again.
    Repeats(Transfer),
    /// Between the transfer's client and another endpoint.
    Talks(Transfer),
    /// Between this client and one with which it has no transfer.
    Apart(Endpoint),
    /// Between the transfer's server and another than its client.
    Beside(Transfer),
    /// Of no transfer.
    Nowhere,
}

impl Place {
    /// The transfer that the datagram is of at its client, if it is of one.
    pub fn transfer(&self) -> Option<Transfer>
        ensures { result ≡ transfer_of self.now }
    {
        match self {
            Place::Opens(transfer) => Some(*transfer),
            Place::Repeats(transfer) => Some(*transfer),
            Place::Talks(transfer) => Some(*transfer),
            _ => None,
        }
    }

    /// Whether the datagram is of the transfer with this number at its client.
    pub fn is_of(&self, number: u64) -> bool
        ensures { (p : Placed) → self.now ≡ p.place → result ≡ is_of number p }
    {
        match self.transfer() {
            None => false,
            Some(transfer) => transfer.number == number,
        }
    }
}
