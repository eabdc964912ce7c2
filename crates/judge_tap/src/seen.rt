//! What has passed, as far as an ACK and a block are judged by it.

ghost use Rattle.std.specs.Prelude.{◌≡◌, ℕ, ◌+◌, ◌<◌, ◌≤◌, List, [], ◌∷◌, true, false, OnOk, OnErr};
ghost use Rattle.tftp_packet.specs.{Message, meaning, Spells};
ghost use Rattle.law_tap.specs.{TapDatagram as Parts, HasKind, IsBlock};
ghost use Rattle.judge_tap.specs.TapSeen.{AreSeen, IsNewBlock, has_number};

use std::alloc::{AllocError, Global};
use std::collections::BTreeSet;
use std::marker::Model;
use tftp_packet::Packet;

/// What has passed of a transfer.
#[derive(Clone, Copy)]
pub struct Marks {
    /// Each block from 1 to this one has passed, and the next one has not.
    pub front: u32,
    /// Some block has passed.
    pub block: bool,
    /// An OACK has passed (RFC 2347).
    pub oack: bool,
    /// An OACK or an ACK 0 has passed.
    pub reply: bool,
}

/// What has passed of a transfer, and which blocks above the front.
#[derive(Drop)]
pub struct Seen {
    marks: Marks,
    above: BTreeSet<u32>,
}

impl Model for Seen {
    ghost use Rattle.judge_tap.specs.TapSeen.{Seen};

    ghost Value = { Seen };

    ghost view = { λ s. record { marks = s.marks; above = s.above.keys } };
}

impl Seen {
    /// Before anything has passed. Takes no memory.
    pub fn nothing(alloc: Global) -> Self
        ensures { AreSeen result [] }
    {
        Seen {
            marks: Marks {
                front: 0,
                block: false,
                oack: false,
                reply: false,
            },
            above: BTreeSet::new(alloc),
        }
    }

    /// What has passed.
    #[inline]
    pub fn marks(&self) -> Marks
        ensures { result ≡ self.now.marks }
    {
        self.marks
    }

    /// Notes a packet that passes. Takes memory only for a block that is not the next one.
    pub fn note(&mut self, packet: &Packet<'_>) -> Result<(), AllocError>
        ensures ok { (passed : List Parts) (d : Parts) → AreSeen self.old passed → Spells d.payload (meaning packet.now)
            → OnOk result (AreSeen self.new (d ∷ passed)) }
        ensures absent { (passed : List Parts) → AreSeen self.old passed → OnErr result (IsNewBlock passed (meaning packet.now)) }
    {
        match packet {
            Packet::Data { block, .. } => self.note_block(*block)?,
            Packet::Oack(_) => {
                self.marks.oack = true;
                self.marks.reply = true;
            }
            Packet::Ack { block } => {
                if *block == 0 {
                    self.marks.reply = true;
                }
            }
            Packet::Request(_) => {}
            Packet::Error { .. } => {}
        }
        Ok(())
    }

    /// Notes a block that passes.
    fn note_block(&mut self, number: u32) -> Result<(), AllocError>
        ensures ok { (passed : List Parts) (d : Parts) (bytes : List ℕ) → AreSeen self.old passed → Spells d.payload (Message.Data number bytes)
            → OnOk result (AreSeen self.new (d ∷ passed)) }
        ensures absent { (passed : List Parts) → AreSeen self.old passed → OnErr result (HasKind (IsBlock number) passed → ⊥) }
    {
        let front = self.marks.front;
        self.marks.block = true;
        if number <= front {
            return Ok(());
        }
        if number - front > 1 {
            self.above.insert(number)?;
            return Ok(());
        }
        self.marks.front = front_after(&self.above, number);
        Ok(())
    }
}

/// The highest number such that all from the one after `from` to it are in the set.
fn front_after(above: &BTreeSet<u32>, from: u32) -> u32
    ensures within { from ≤ result }
    ensures held { (k : ℕ) → from < k → k ≤ result → has_number k above.now.keys ≡ true }
    ensures next { result < 4294967295 → has_number (result + 1) above.now.keys ≡ false }
{
    let mut front = from;
    while front < u32::MAX && above.contains(&(front + 1)) {
        front += 1;
    }
    front
}
