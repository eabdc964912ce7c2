//! What is looked at of a datagram.

ghost use Rattle.std.specs.Prelude.{◌≡◌, ◌==◌, ◌||◌, ℕ, List, drop, position, true};
ghost use Rattle.tftp_packet.specs.{Message, RequestParts, Spells, meaning, opcode_of};
ghost use Rattle.audit_flows.specs.Lines.Kept.{kind_of, other_end};
ghost use Rattle.audit_flows.specs.Lines.Recording.{asked_part, has_window, is_block, passes_in, refuses};

use crate::lines::endpoint::Endpoint;
use tftp_packet::{Packet, opcode, read_packet};

/// What is looked at of a payload (RFC 1350, section 5; RFC 2347).
#[derive(Clone, Copy)]
pub struct Kind {
    /// Its opcode is that of RRQ or WRQ.
    pub begins_request: bool,
    /// Its opcode is that of ERROR.
    pub begins_error: bool,
    /// Its opcode is one of TFTP's: 1 to 6.
    pub begins_packet: bool,
    /// It begins as ERROR 5 does, "Unknown transfer ID".
    pub begins_unknown_id: bool,
    /// It is an ERROR that may refuse a request: neither ERROR 0 nor ERROR 5.
    pub refuses: bool,
    /// It is ACK 0, and nothing more.
    pub is_ack_0: bool,
    /// It begins as DATA 1 does.
    pub is_data_1: bool,
    /// A server may send it first: OACK, ERROR, ACK 0 or DATA 1.
    pub is_answer: bool,
    /// Its opcode is that of OACK.
    pub begins_oack: bool,
    /// It is DATA with a number from 1.
    pub is_block: bool,
    /// It is an ACK, and nothing more.
    pub is_ack: bool,
    /// The number of the block or the ACK, and 0 of anything else.
    pub number: u16,
}

/// A datagram's ends, and what is looked at of its payload.
#[derive(Clone, Copy)]
pub struct Seen {
    /// Where it came from.
    pub source: Endpoint,
    /// Where it went.
    pub target: Endpoint,
    /// In nanoseconds.
    pub time: u64,
    /// Of its payload.
    pub kind: Kind,
}

/// The end of a datagram that is not this client's.
pub fn other_end(client: &Endpoint, seen: &Seen) -> Endpoint
    ensures { result ≡ other_end client.now seen.now }
{
    if seen.source == *client {
        seen.target
    } else {
        seen.source
    }
}

const ACK_0: [u8; 4] = [0, 4, 0, 0];

const DATA_1: [u8; 4] = [0, 3, 0, 1];

const ERROR_5: [u8; 4] = [0, 5, 0, 5];

fn is_request_code(opcode: u16) -> bool
    ensures { result ≡ ((opcode == 1) || (opcode == 2)) }
{
    opcode == 1 || opcode == 2
}

/// OACK or ERROR.
fn is_answer_code(opcode: u16) -> bool
    ensures { result ≡ ((opcode == 6) || (opcode == 5)) }
{
    opcode == 6 || opcode == 5
}

impl Kind {
    /// Of this payload, which may be of any length and spell nothing.
    pub fn new(payload: &[u8]) -> Self
        ensures { result ≡ kind_of payload.now }
    {
        let is_ack_0 = payload == ACK_0.as_slice();
        let is_data_1 = payload.starts_with(DATA_1.as_slice());
        let is_block = is_block(payload);
        let is_ack = opcode(payload) == 4 && payload.len() == 4;
        Kind {
            begins_request: is_request_code(opcode(payload)),
            begins_error: opcode(payload) == 5,
            begins_packet: opcode(payload) >= 1 && opcode(payload) <= 6,
            begins_unknown_id: payload.starts_with(ERROR_5.as_slice()),
            refuses: refuses(payload),
            is_ack_0,
            is_data_1,
            is_answer: is_answer_code(opcode(payload)) || is_ack_0 || is_data_1,
            begins_oack: opcode(payload) == 6,
            is_block,
            is_ack,
            number: if is_block || is_ack {
                second(payload)
            } else {
                0
            },
        }
    }

    /// Whether this end of such a transfer sends it, if it is no request (RFC 1350, section 2; RFC 2347).
    pub fn passes_in(&self, writes: bool, is_client: bool) -> bool
        ensures { (payload : List ℕ) → self.now ≡ kind_of payload → result ≡ passes_in writes is_client payload }
    {
        let sends_blocks = if writes { is_client } else { !is_client };
        (self.is_block && sends_blocks)
            || (self.is_ack && !sends_blocks)
            || (self.begins_oack && !is_client)
            || self.begins_error
    }
}

/// The number in the two bytes behind the opcode, or 0 where there are none.
fn second(payload: &[u8]) -> u16
    ensures { result ≡ opcode_of (drop 2 payload.now) }
{
    match payload.get(2..) {
        Some(rest) => opcode(rest),
        None => 0,
    }
}

/// Whether it is an ERROR that may refuse a request: neither ERROR 0 nor ERROR 5.
fn refuses(payload: &[u8]) -> bool
    ensures { result ≡ refuses payload.now }
{
    opcode(payload) == 5 && second(payload) != 0 && second(payload) != 5
}

fn is_block(payload: &[u8]) -> bool
    ensures { result ≡ is_block payload.now }
{
    opcode(payload) == 3 && second(payload) >= 1
}

/// Whether one of its strings is the name of the option of windows, in letters of any case (RFC 7440, section 3).
pub(crate) fn has_window(payload: &[u8]) -> bool
    ensures { result ≡ has_window payload.now }
{
    payload
        .split(|byte| *byte == 0)
        .any(|word| word.eq_ignore_ascii_case(b"windowsize"))
}

/// Of a request its side and the name of its file: what stands before the zero that ends the name (RFC 1350, section 5).
pub(crate) fn asked_part(payload: &[u8]) -> &[u8]
    ensures { result.now ≡ asked_part payload.now }
{
    let Some(rest) = payload.get(2..) else {
        return payload;
    };
    match zero_in(rest) {
        Some(length) => &payload[..length + 2],
        None => payload,
    }
}

/// Where the first zero stands.
fn zero_in(bytes: &[u8]) -> Option<usize>
    ensures { result ≡ position (λ b. b == 0) bytes.now }
{
    bytes.iter().position(|byte| *byte == 0)
}

/// Whether the payload spells a request from its first byte to its last (RFC 1350, section 5; RFC 2347).
pub fn spells_request(payload: &[u8]) -> bool
    ensures yes { result ≡ true → (r : RequestParts) × Spells payload.now (Message.Request r) }
    ensures no { (r : RequestParts) → Spells payload.now (Message.Request r) → result ≡ true }
{
    match read_packet(payload) {
        Ok(packet) => is_request(&packet),
        Err(_) => false,
    }
}

fn is_request(packet: &Packet<'_>) -> bool
    ensures yes { result ≡ true → (r : RequestParts) × (meaning packet.now ≡ Message.Request r) }
    ensures no { (r : RequestParts) → meaning packet.now ≡ Message.Request r → result ≡ true }
{
    match packet {
        Packet::Request(_) => true,
        Packet::Data { .. } => false,
        Packet::Ack { .. } => false,
        Packet::Error { .. } => false,
        Packet::Oack(_) => false,
    }
}
