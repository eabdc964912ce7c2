ghost use Rattle.std.specs.Prelude.{◌≡◌, ◌+◌, ◌<◌, ◌≤◌, ◌==◌, ℕ, [], if◌then◌else◌, length, nat_lt, slice_index_or, IfErr, IfNone, OnOk, OnSome};
ghost use Rattle.judge_pair.specs.Counts.Counts.{Answers, IsSurplus, TakesRoom};

use std::alloc::{AllocError, Global};
use std::marker::Model;

/// How many numbers of packets there are: four for each block that is near one of 8,388,607 or less.
const PACKETS: usize = 33_685_504;

/// How often each packet passed, by its number.
#[derive(Debug, Drop)]
pub struct Table {
    counts: Vec<u64>,
}

impl Model for Table {
    ghost use Rattle.std.specs.Prelude.{List, ℕ};

    ghost Value = { List ℕ };

    ghost view = { λ t. t.counts.items };
}

impl Table {
    /// Of no packet. Takes no memory.
    pub fn new(alloc: Global) -> Self
        ensures { result ≡ [] }
    {
        Table {
            counts: Vec::new(alloc),
        }
    }

    /// How often a packet passed.
    #[inline]
    pub fn at(&self, packet: usize) -> u64
        ensures { result ≡ slice_index_or self.now packet 0 }
    {
        match self.counts.get(packet) {
            Some(count) => *count,
            None => 0,
        }
    }

    /// Whether this packet or one with a higher number has a place. One that has none never passed.
    pub fn reaches(&self, packet: usize) -> bool
        ensures { result ≡ nat_lt packet (length self.now) }
    {
        packet < self.counts.len()
    }

    /// By how much this is above another, of all packets together. None where that is 2^64 or more.
    pub fn surplus(&self, other: &Table) -> Option<u64>
        ensures { Answers (IsSurplus (λ packet. slice_index_or self.now packet 0) (λ packet. slice_index_or other.now packet 0)) result }
    {
        let mut count: u64 = 0;
        for packet in 0..self.counts.len().min(PACKETS) {
            let surplus = self.at(packet).saturating_sub(other.at(packet));
            count = count.checked_add(surplus)?;
        }
        Some(count)
    }

    /// Counts a packet once more. None where memory runs out, or where it passed 2^64 times; then the table is of no use.
    pub fn note(&mut self, packet: usize) -> Option<()>
        requires { packet < 33685504 }
        ensures counted { OnSome result ((other : ℕ) → slice_index_or self.new other 0 ≡ slice_index_or self.old other 0 + (if packet == other then 1 else 0)) }
        ensures wanting { IfNone result (TakesRoom self.old packet) }
    {
        self.reach(packet).ok()?;
        let count = self.at(packet).checked_add(1)?;
        self.counts[packet] = count;
        Some(())
    }

    /// Makes room for the count of a packet.
    fn reach(&mut self, packet: usize) -> Result<(), AllocError>
        requires { packet < 33685504 }
        ensures same { OnOk result ((other : ℕ) → slice_index_or self.new other 0 ≡ slice_index_or self.old other 0) }
        ensures reached { OnOk result (packet < length self.new) }
        ensures wanting { IfErr result (λ _. length self.old ≤ packet) }
    {
        if self.counts.len() <= packet {
            self.counts.resize(packet + 1, 0)?;
        }
        Ok(())
    }
}
