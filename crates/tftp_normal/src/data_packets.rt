//! The DATA packets of a wire, one after another.

use crate::wire_blocks::WireBlocks;
use std::alloc::{AllocError, Global};
use std::marker::Model;

/// How many bytes stand before the block: the opcode and the block's number (RFC 1350, section 5).
const HEAD: usize = 4;

/// These bytes for block 0, as one number, so that they are stored at once.
const DATA: u32 = 3 << 16;

/// DATA packets in turn, each by its head and its block. A block lies in the file, or where its bytes are spelled anew in a
/// buffer, in which each takes the place of the one before it.
#[derive(Drop)]
pub(crate) struct DataPackets<'a> {
    blocks: WireBlocks<'a>,
    head: [u8; HEAD],
    in_file: Option<&'a [u8]>,
    buffer: Vec<u8>,
    len: usize,
}

impl<'a> Model for DataPackets<'a> {
    ghost use Rattle.tftp_normal.specs.Transfer.{DataState, state_of, HasRoom};

    ghost Value = { DataState };

    ghost view = { λ packets. state_of packets };

    ghost invariant = { λ packets. HasRoom packets };
}

impl<'a> DataPackets<'a> {
    ghost use Rattle.std.specs.Prelude.{◌≡◌, ◌≤◌, ◌++◌, length, take, drop, IfOk};
    ghost use Rattle.tftp_packet.specs.Messages.{Message};
    ghost use Rattle.tftp_packet.specs.Canonical.{canonical};

    /// Before the first packet of a wire. It takes the memory for one block.
    pub(crate) fn new(alloc: Global, blocks: WireBlocks<'a>, size: u16) -> Result<Self, AllocError>
        requires { size ≤ 65464 }
        ensures left { IfOk result (λ packets. packets.left ≡ blocks.entry) }
        ensures size { IfOk result (λ packets. packets.size ≡ size) }
    {
        let buffer = vec![in alloc; 0u8; size as usize]?;
        Ok(DataPackets {
            blocks,
            head: [0; HEAD],
            in_file: None,
            buffer,
            len: 0,
        })
    }

    /// Goes to the packet of the next block (RFC 1350, section 5).
    pub(crate) fn fill(&mut self, number: u16)
        ensures packet { self.new.head ++ self.new.block ≡ canonical (Message.Data number (take self.old.size self.old.left)) }
        ensures left { self.new.left ≡ drop self.old.size self.old.left }
        ensures size { self.new.size ≡ self.old.size }
    {
        self.head = (DATA + u32::from(number)).to_be_bytes();
        self.in_file = self.blocks.split_block(self.buffer.len());
        if self.in_file.is_none() {
            self.len = self.blocks.fill(self.buffer.as_mut_slice());
        }
    }

    /// The opcode and the number of the block that it went to last.
    pub(crate) fn head(&self) -> &[u8]
        ensures head { result.now ≡ self.now.head }
        ensures size { length result.now ≡ 4 }
    {
        &self.head
    }

    /// The block that it went to last.
    pub(crate) fn block(&self) -> &[u8]
        ensures block { result.now ≡ self.now.block }
        ensures short { length result.now ≤ 65464 }
    {
        match self.in_file {
            Some(block) => block,
            None => &self.buffer.as_slice()[..self.len],
        }
    }
}
