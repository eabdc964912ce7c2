//! The first ERROR of an end (RFC 1350, section 7).

ghost use Rattle.std.specs.Prelude.{◌≡◌, ◌↔◌, IsTrue, IfOk};

use crate::seen::Marks;
use std::alloc::{AllocError, Global};
use std::marker::Model;
use tftp_packet::Bytes;

/// The first ERROR of an end, and what had passed before it.
#[derive(Drop)]
pub struct StoppedEnd {
    code: u16,
    message: Bytes,
    before: Marks,
}

impl Model for StoppedEnd {
    ghost use Rattle.judge_tap.specs.TapSeen.{Stopped};

    ghost Value = { Stopped };

    ghost view = { λ e. record { code = e.code; text = e.message; before = e.before } };
}

impl StoppedEnd {
    /// Of an end that sends this, after what has passed. Takes memory for the message.
    pub fn by(alloc: Global, code: u16, message: &[u8], before: Marks) -> Result<Self, AllocError>
        ensures { IfOk result (λ stopped. stopped ≡ record { code = code; text = message.now; before = before }) }
    {
        let mut bytes = Vec::new(alloc);
        bytes.extend_from_slice(message)?;
        Ok(StoppedEnd {
            code,
            message: Bytes::of(bytes),
            before,
        })
    }

    /// Whether this is that ERROR again (RFC 1350, section 5).
    pub fn is(&self, code: u16, message: &[u8]) -> bool
        ensures { IsTrue result ↔ ((code ≡ self.now.code) × (message.now ≡ self.now.text)) }
    {
        code == self.code && message == self.message.as_slice()
    }

    /// What had passed before it.
    #[inline]
    pub fn before(&self) -> Marks
        ensures { result ≡ self.now.before }
    {
        self.before
    }
}
