//! What is to be written, by its parts.

ghost use Rattle.std.specs.Prelude.{◌≡◌, codes};
ghost use Rattle.law_model.specs.Model.{option_or};

use crate::wire_blocks::WireBlocks;
use std::alloc::{AllocError, Global};
use std::marker::Model;
use tftp_judge::FileBytes;
use tftp_packet::{Options, Request, Side, Value, write_oack, write_request};

/// A transfer that can be written, and the number of the blocks of its wire.
#[derive(Drop)]
pub(crate) struct Transfer<'a> {
    request: &'a Request,
    agreed: &'a Options,
    file: &'a FileBytes,
    blocks: u32,
}

impl<'a> Model for Transfer<'a> {
    ghost use Rattle.law_model.specs.Model.Meanings.{Meaning};
    ghost use Rattle.tftp_normal.specs.Transfer.{meaning_in, IsToBeWritten};
    ghost use Rattle.law_end.specs.Owned.{meaning_code};

    ghost Value = { Meaning };

    ghost coded = { meaning_code };

    ghost view = { λ transfer. meaning_in transfer };

    ghost invariant = { λ transfer. IsToBeWritten transfer };
}

impl<'a> Transfer<'a> {
    ghost use Rattle.std.specs.Prelude.{◌≡◌, ◌≢◌, ◌↔◌, ◌+◌, ◌^◌, ◌≤◌, min, length, IfOk, IsTrue};
    ghost use Rattle.std.specs.FinMap as map;
    ghost use Rattle.tftp_packet.specs.Messages.{Message};
    ghost use Rattle.tftp_packet.specs.Canonical.{canonical};
    ghost use Rattle.law_model.specs.Model.Meanings.{request_of, blksize_of, windowsize_of};
    ghost use Rattle.law_end.specs.Owned.{meaning_from};
    ghost use Rattle.law_end.specs.Writable.{blocks_of, CanBeNumbered};
    ghost use Rattle.law_end.specs.Fitting.{written_wire};
    ghost use Rattle.tftp_judge.specs.{file_in, IsCanonical};
    ghost use Rattle.tftp_normal.specs.Normal.{normal_count};

    /// Takes the parts, and no memory.
    pub(crate) fn of(
        request: &'a Request,
        agreed: &'a Options,
        file: &'a FileBytes,
        blocks: u32,
    ) -> Self
        requires can { CanBeNumbered (meaning_from (request.now, (agreed.now, file_in request.now.mode file.now))) }
        requires counted { blocks ≡ blocks_of (meaning_from (request.now, (agreed.now, file_in request.now.mode file.now))) }
        requires canonical { IsCanonical request.now.mode file.now }
        ensures { result ≡ meaning_from (request.now, (agreed.now, file_in request.now.mode file.now)) }
    {
        Transfer {
            request,
            agreed,
            file,
            blocks,
        }
    }

    /// Which way the file goes.
    pub(crate) fn side(&self) -> Side
        ensures { result ≡ self.now.side }
    {
        self.request.side()
    }

    /// The whole wire of the file. Where that is the one which came, nothing is spelled anew.
    pub(crate) fn wire(&self) -> WireBlocks<'a>
        ensures { result ≡ written_wire self.now.mode self.now.file }
    {
        match self.file {
            FileBytes::File(bytes) => WireBlocks::new(self.request.mode(), bytes.as_slice()),
            FileBytes::Wire(wire) => WireBlocks::as_it_is(wire.as_slice()),
        }
    }

    /// How many blocks the wire has.
    pub(crate) fn blocks(&self) -> u32
        ensures count { result ≡ blocks_of self.now }
        ensures few { normal_count self.now ≤ 2 ^ 24 + 1 }
    {
        self.blocks
    }

    /// Whether nothing is agreed.
    pub(crate) fn is_plain(&self) -> bool
        ensures { IsTrue result ↔ (map.len self.now.agreed ≡ 0) }
    {
        self.agreed.is_empty()
    }

    /// How many bytes a block has that is not the last (RFC 2348).
    pub(crate) fn block_size(&self) -> u16
        ensures size { result ≡ blksize_of self.now }
        ensures most { result ≤ 65464 }
    {
        match self.agreed.get(b"blksize") {
            Some(Value::Num(size)) => *size as u16,
            _ => 512,
        }
    }

    /// How many blocks a window has that is not the last (RFC 7440).
    pub(crate) fn window_size(&self) -> u64
        ensures size { result ≡ windowsize_of self.now }
        ensures some { 1 ≤ result }
    {
        window_size_of(self.agreed)
    }

    /// The last block of the window after an acknowledged block.
    pub(crate) fn window_end(&self, acked: u32) -> u32
        requires { acked ≤ blocks_of self.now }
        ensures { result ≡ min (acked + windowsize_of self.now) (blocks_of self.now) }
    {
        let left = u64::from(self.blocks() - acked);
        acked + left.min(self.window_size()) as u32
    }

    /// The bytes of the request.
    pub(crate) fn request_payload(&self, alloc: Global) -> Result<Vec<u8>, AllocError>
        ensures bytes { IfOk result (λ payload. payload.items ≡ canonical (Message.Request (request_of self.now))) }
        ensures short { IfOk result (λ payload. length payload.items ≤ 65527) }
    {
        write_request(alloc, self.request)
    }

    /// The bytes of the OACK (RFC 2347).
    pub(crate) fn oack_payload(&self, alloc: Global) -> Result<Vec<u8>, AllocError>
        ensures bytes { IfOk result (λ payload. payload.items ≡ canonical (Message.Oack self.now.agreed)) }
        ensures short { IfOk result (λ payload. map.len self.now.agreed ≢ 0 → length payload.items ≤ 65527) }
    {
        write_oack(alloc, self.agreed)
    }
}

/// How many blocks a window has that is not the last, where this is agreed (RFC 7440).
pub(crate) fn window_size_of(agreed: &Options) -> u64
    ensures { result ≡ option_or 1 agreed.now (codes "windowsize") }
{
    match agreed.get(b"windowsize") {
        Some(Value::Num(size)) => *size,
        _ => 1,
    }
}
