//! A capture text in memory.

ghost use Rattle.std.specs.Prelude.{◌≡◌, IfErr, IfOk, IfSome, true};
ghost use Rattle.tftp_match.specs.Captures.{IsFirstPayload};
ghost use Rattle.tftp_match.specs.Unread.{IsHeldFault, IsTextFault};

use crate::texts::{LackFault, Text, Texts};
use crate::unread::UnreadFault;
use audit_recording::session::Asked;
use net_streams::streams::Latched;
use std::alloc::Global;
use std::io::Read;
use tftp_capture::{CaptureFault, CaptureReader, Datagram};

/// A capture text in memory.
#[derive(Drop)]
pub struct Held {
    bytes: Vec<u8>,
    /// The payload of its first datagram, where that was wanted; without one nothing.
    request: Vec<u8>,
}

impl Held {
    /// All that a reader gives, and the payload of its first datagram, where that is wanted.
    pub fn read<R: Read + Drop>(
        alloc: Global,
        mut reader: R,
        wants_request: bool,
    ) -> Result<Self, UnreadFault>
        ensures bytes { IfOk result (λ held. IfSome (R.Read.remaining reader) (λ text. held.bytes.items ≡ text)) }
        ensures request { wants_request ≡ true → IfOk result (λ held. IsFirstPayload held.bytes.items held.request.items) }
        ensures why { IfErr result (IsHeldFault wants_request (R.Read.remaining reader)) }
    {
        let mut bytes = Vec::new(alloc);
        reader.read_to_end(&mut bytes)?;
        let request = if wants_request {
            first_payload(alloc, bytes.as_slice())?
        } else {
            Vec::new(alloc)
        };
        Ok(Held { bytes, request })
    }

    /// What its one transfer was asked for.
    pub fn asked(&self) -> Asked<'_>
        ensures number { result.number ≡ 1 }
        ensures payload { result.payload.now ≡ self.now.request.items }
    {
        Asked {
            number: 1,
            payload: self.request.as_slice(),
        }
    }
}

/// The payload of a text's first datagram; without one nothing.
fn first_payload(alloc: Global, text: &[u8]) -> Result<Vec<u8>, CaptureFault>
    ensures payload { IfOk result (λ payload. IsFirstPayload text.now payload.items) }
    ensures why { IfErr result (IsTextFault text.now) }
{
    let mut reader = Latched::new(text);
    let mut capture = CaptureReader::begin(alloc, &mut reader)?;
    let mut datagram = Datagram::empty(alloc);
    if capture.next_into(&mut reader, &mut datagram)? {
        Ok(datagram.payload.into_vec())
    } else {
        Ok(Vec::new(alloc))
    }
}

impl Texts for Held {
    ghost is_text = { λ t _ bytes. bytes ≡ t.bytes.items };

    ghost is_lack = { λ _ _ _. ⊥ };

    // it has one alone
    fn text(&self, _alloc: Global, _number: u64) -> Result<Text<'_>, LackFault> {
        Ok(Text::Kept(self.bytes.as_slice()))
    }
}
