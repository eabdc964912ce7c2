//! The ERROR of each end (RFC 1350, section 7).

ghost use Rattle.std.specs.Prelude.{◌≡◌, None, IfOk, OnErr};
ghost use Rattle.tftp_packet.specs.{End as Who};
ghost use Rattle.judge_tap.specs.Said.{IsErrorPut, error_of};

use std::alloc::{AllocError, Global};
use std::marker::Model;
use tftp_packet::{Bytes, End};

/// An ERROR that was recorded (RFC 1350, section 5).
#[derive(Drop)]
pub struct SaidError {
    code: u16,
    message: Bytes,
}

impl Model for SaidError {
    ghost use Rattle.judge_tap.specs.Said.{SaidError};

    ghost Value = { SaidError };

    ghost view = { λ e. (e.code, e.message) };
}

/// The first ERROR of each end that was recorded.
#[derive(Drop)]
pub struct SaidErrors {
    client: Option<SaidError>,
    server: Option<SaidError>,
}

impl Model for SaidErrors {
    ghost use Rattle.judge_tap.specs.Said.{SaidErrors};

    ghost Value = { SaidErrors };

    ghost view = { λ e. record { client = e.client; server = e.server } };
}

impl SaidErrors {
    /// No ERROR.
    pub fn none() -> Self
        ensures { (e : Who) → error_of result e ≡ None }
    {
        SaidErrors {
            client: None,
            server: None,
        }
    }

    /// Keeps an ERROR of an end that is its first, and says whether it is the one that is kept. Takes memory for the first one alone.
    pub fn put(
        &mut self,
        alloc: Global,
        end: End,
        code: u16,
        message: &[u8],
    ) -> Result<bool, AllocError>
        ensures ok { IfOk result (λ same. IsErrorPut (error_of self.old end) (code, message.now) (error_of self.new end) same) }
        ensures others { (e : Who) → (e ≡ end → ⊥) → error_of self.new e ≡ error_of self.old e }
        ensures absent { OnErr result (error_of self.old end ≡ None) }
    {
        match end {
            End::Client => put_first(alloc, &mut self.client, code, message),
            End::Server => put_first(alloc, &mut self.server, code, message),
        }
    }
}

/// Keeps an ERROR where none is kept, and says whether it is the one that is kept.
fn put_first(
    alloc: Global,
    kept: &mut Option<SaidError>,
    code: u16,
    message: &[u8],
) -> Result<bool, AllocError>
    ensures ok { IfOk result (λ same. IsErrorPut kept.old (code, message.now) kept.new same) }
    ensures absent { OnErr result (kept.old ≡ None) }
{
    match kept {
        Some(first) => Ok(first.code == code && first.message.as_slice() == message),
        None => {
            let bytes = Vec::from_slice(alloc, message)?;
            *kept = Some(SaidError {
                code,
                message: Bytes::of(bytes),
            });
            Ok(true)
        }
    }
}
