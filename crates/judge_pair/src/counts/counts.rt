ghost use Rattle.std.specs.Prelude.{◌≡◌, ◌<◌, ◌≤◌, ℕ, false, List, [], ◌∷◌, Some, IfNone, IfSome, slice_index_or};
ghost use Rattle.tftp_packet.specs.Hosts.{Datagram};
ghost use Rattle.judge_pair.specs.Blocks.{with_block};
ghost use Rattle.judge_pair.specs.declared.counts.packets.CountedPacket.TheVariants.{Data};
ghost use Rattle.judge_pair.specs.Counts.Counts.{Answers, AreCounted, AreLost, AreRepeated, Counted, IsCountOf, TakesRoom, counts_of, number_of, packet_of as packet_number, sent, taken};

use crate::counts::packets::CountedPacket;
use crate::counts::table::Table;
use std::alloc::Global;
use std::marker::Model;
use tftp_packet::hosts::Dir;
use tftp_packet::{ack_of, block_of};

/// How often each packet of a transfer went out at an end, and how often it came in.
#[derive(Debug, Drop)]
pub struct Counts {
    sent: Table,
    taken: Table,
}

impl Model for Counts {
    ghost use Rattle.judge_pair.specs.Counts.Counts.{Counted};

    ghost Value = { Counted };

    ghost view = { λ c. (c.sent, c.taken) };
}

impl Counts {
    /// Where nothing has passed. Takes no memory.
    pub fn new(alloc: Global) -> Self
        ensures { IsCountOf result [] }
    {
        Counts {
            sent: Table::new(alloc),
            taken: Table::new(alloc),
        }
    }

    /// How many copies of a packet went out.
    #[inline]
    pub fn sent(&self, packet: CountedPacket) -> u64
        ensures { (passed : List Datagram) → IsCountOf self.now passed → result ≡ sent (number_of packet) passed }
    {
        self.sent.at(packet.number())
    }

    /// How many copies of a packet came in.
    #[inline]
    pub fn taken(&self, packet: CountedPacket) -> u64
        ensures { (passed : List Datagram) → IsCountOf self.now passed → result ≡ taken (number_of packet) passed }
    {
        self.taken.at(packet.number())
    }

    /// Whether a DATA or an ACK of this block or a later one may have passed. None has where it says no.
    pub fn reaches(&self, block: u32) -> bool
        ensures { (passed : List Datagram) (packet : ℕ) → IsCountOf self.now passed → result ≡ false → number_of (Data block) ≤ packet
            → (sent packet passed ≡ 0) × (taken packet passed ≡ 0) }
    {
        let packet = CountedPacket::Data(block).number();
        self.sent.reaches(packet) || self.taken.reaches(packet)
    }

    /// At least how many copies of what went out here did not come in at the other end. None where they are 2^64 or more.
    pub(crate) fn lost(&self, to: &Counts) -> Option<u64>
        ensures { (sender receiver : List Datagram) → IsCountOf self.now sender → IsCountOf to.now receiver → Answers (AreLost sender receiver) result }
    {
        self.sent.surplus(&to.taken)
    }

    /// At least how many copies of it were made on the way to the other end. None where they are 2^64 or more.
    pub(crate) fn repeated(&self, to: &Counts) -> Option<u64>
        ensures { (sender receiver : List Datagram) → IsCountOf self.now sender → IsCountOf to.now receiver → Answers (AreRepeated sender receiver) result }
    {
        to.taken.surplus(&self.sent)
    }

    /// Counts a datagram of the transfer, the next one that passes. None where nothing was counted any more, memory is
    /// wanting, or the packet passed 2^64 times.
    pub fn note(counts: Option<Self>, dir: Dir, payload: &[u8]) -> Option<Self>
        ensures counted { (passed : List Datagram) (d : Datagram) → d.dir ≡ dir → d.payload ≡ payload.now → AreCounted counts passed
            → AreCounted result (d ∷ passed) }
        ensures wanting { (c : Counted) → counts ≡ Some c → IfNone result (TakesRoom (counts_of dir c) (packet_number payload.now)) }
    {
        Counts::note_block(counts, dir, payload, None)
    }

    /// The same of a payload that was read by this block: it is counted by the block, and not by its number.
    pub fn note_block(
        counts: Option<Self>,
        dir: Dir,
        payload: &[u8],
        block: Option<u32>,
    ) -> Option<Self>
        requires low { IfSome block (λ block. block < 8421376) }
        ensures counted { (passed : List Datagram) (d : Datagram) → d.dir ≡ dir → d.payload ≡ with_block block payload.now → AreCounted counts passed
            → AreCounted result (d ∷ passed) }
        ensures wanting { (c : Counted) → counts ≡ Some c
            → IfNone result (TakesRoom (counts_of dir c) (packet_number (with_block block payload.now))) }
    {
        let mut counts = counts?;
        let packet = packet_of(payload, block);
        match dir {
            Dir::Out => counts.sent.note(packet)?,
            Dir::In => counts.taken.note(packet)?,
        }
        Some(counts)
    }
}

/// The number of the packet that a payload is a copy of, where it was read by this block.
fn packet_of(payload: &[u8], block: Option<u32>) -> usize
    requires low { IfSome block (λ block. block < 8421376) }
    ensures number { result ≡ packet_number (with_block block payload.now) }
    ensures few { result < 33685504 }
{
    let Some(block) = block else {
        return packet_by_number(payload);
    };
    if let Some(_) = block_of(payload) {
        return 4 * block as usize + 1;
    }
    if let Some(_) = ack_of(payload) {
        return 4 * block as usize + 2;
    }
    packet_by_number(payload)
}

/// The number of the packet that a payload is a copy of, by its number.
fn packet_by_number(payload: &[u8]) -> usize
    ensures number { result ≡ packet_number payload.now }
    ensures few { result < 33685504 }
{
    let block = 256 * usize::from(byte_at(payload, 2)) + usize::from(byte_at(payload, 3));
    match byte_at(payload, 1) {
        3 => 4 * block + 1,
        4 => 4 * block + 2,
        5 => 3,
        _ => 0,
    }
}

/// A byte of a payload, or 0 behind its end.
fn byte_at(payload: &[u8], place: usize) -> u8
    ensures { result ≡ slice_index_or payload.now place 0 }
{
    match payload.get(place) {
        Some(byte) => *byte,
        None => 0,
    }
}
