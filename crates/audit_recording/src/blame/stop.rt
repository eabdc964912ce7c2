//! The ERRORs that end transfers (RFC 1350, section 7).

ghost use Rattle.std.specs.Prelude.{◌≡◌, ◌==◌, ℕ, List, option_map, position};
ghost use Rattle.audit_recording.specs.Endings.Told.{error_in, sender_at, up_to_zero};

use audit_flows::lines::{Endpoint, Transfer};
use tftp_packet::End;

/// An ERROR that one end of a transfer sent to the other.
#[derive(Drop)]
pub struct Stop {
    /// Who sent it.
    pub role: End,
    /// Its frame, from 1.
    pub frame: u64,
    /// Its code.
    pub code: u16,
    /// Its message, without the zero byte.
    pub message: Vec<u8>,
}

/// The code and the message of an ERROR (RFC 1350, section 5), also of one without the zero byte that ends its message.
pub fn error_in(payload: &[u8]) -> Option<(u16, &[u8])>
    ensures { option_map (λ e. (e.0, e.1.now)) result ≡ error_in payload.now }
{
    match payload {
        [0, 5, high, low, text @ ..] => {
            Some((u16::from_be_bytes([*high, *low]), up_to_zero(text)))
        }
        _ => None,
    }
}

/// What stands before the first zero byte, or all where there is none.
fn up_to_zero(text: &[u8]) -> &[u8]
    ensures { result.now ≡ up_to_zero text.now }
{
    match zero_in(text) {
        Some(end) => &text[..end],
        None => text,
    }
}

/// Where the first zero byte stands.
fn zero_in(text: &[u8]) -> Option<usize>
    ensures { result ≡ position (λ b. b == 0) text.now }
{
    text.iter().position(|byte| *byte == 0)
}

/// Which end of a transfer sends from this endpoint, if one does: the client, or else the server.
pub fn sender_at(transfer: &Transfer, source: Endpoint) -> End
    ensures { result ≡ sender_at transfer.now source }
{
    if source == transfer.client {
        End::Client
    } else {
        End::Server
    }
}
