ghost use Rattle.std.specs.Prelude.{◌≡◌, ◌<◌, ◌≤◌, ◌↔◌, ◌∷◌, [], ℕ, List, length, take, vec_capacity, IsTrue, IfOk, OnOk, OnErr};
ghost use Rattle.std.specs.List.{Any, slice_get};
ghost use Rattle.std.specs.VecDeque.{deque_len, deque_capacity};
ghost use Rattle.net_udp.specs.Copies.Copies.{Packet, AreNear, AreOne, IsCopy};
ghost use Rattle.net_udp.specs.Copies.Recently.{StandsFor, shown};
ghost use Rattle.net_udp.specs.declared.copies.recent.Held.{Held};

use crate::copies::interface::Interface;
use std::alloc::{AllocError, Global};
use std::collections::VecDeque;
use std::marker::Model;
use std::mem;

/// How many packets are held. A host hands a packet on to its other interfaces before it turns to many others, so that its
/// copy stands next to it or a few frames behind; and a packet is compared with each that is held.
const MOST_HELD: usize = 16;

/// The most nanoseconds between a packet and its copy.
const NEAR: u64 = 1_000_000;

/// A packet that is held.
#[derive(Drop)]
struct Held {
    interface: Interface,
    time: Option<u64>,
    bytes: Vec<u8>,
}

impl Held {
    /// Whether it is one with a packet.
    fn is_one_with(&self, interface: Interface, time: Option<u64>, bytes: &[u8]) -> bool
        ensures { IsTrue result ↔ AreOne (record { interface = interface; time = time; bytes = bytes.now }) (shown self.now) }
    {
        interface != self.interface && are_near(time, self.time) && self.bytes.as_slice() == bytes
    }
}

/// Whether both times are known, and near.
#[inline]
fn are_near(time: Option<u64>, other: Option<u64>) -> bool
    ensures { IsTrue result ↔ AreNear time other }
{
    match (time, other) {
        (Some(time), Some(other)) => time.abs_diff(other) <= NEAR,
        _ => false,
    }
}

/// The last 16 packets of a recording, by which copies are told. Their bytes stand in memory that is used again: at most 17
/// times that of the longest packet.
#[derive(Drop)]
pub struct Recent {
    held: VecDeque<Held>,
    spare: Vec<u8>,
}

impl Model for Recent {
    ghost use Rattle.std.specs.Prelude.{◌≤◌, map, vec_capacity};
    ghost use Rattle.std.specs.VecDeque.{deque_len, deque_capacity};
    ghost use Rattle.net_udp.specs.Copies.Recently.{RecentState, shown};

    ghost Value = { RecentState };

    ghost view = { λ r. record { held = map shown r.held.items; room = vec_capacity r.spare } };

    ghost invariant = { λ r. (deque_len r.held ≤ 16) × (16 ≤ deque_capacity r.held) };
}

impl Recent {
    /// No packet has come.
    pub fn new(alloc: Global) -> Result<Self, AllocError>
        ensures { IfOk result (λ recent. StandsFor recent []) }
    {
        Ok(Recent {
            held: VecDeque::with_capacity(alloc, MOST_HELD)?,
            spare: Vec::new(alloc),
        })
    }

    /// Whether a packet is the copy of one of the 16 before it: the same bytes, from the IP header on, at another interface,
    /// at times no more than 1 ms apart. A packet without a time is none. The time counts nanoseconds. From now on it is held,
    /// copy or not.
    pub fn take(
        &mut self,
        alloc: Global,
        interface: Interface,
        time: Option<u64>,
        bytes: &[u8],
    ) -> Result<bool, AllocError>
        ensures copy { IfOk result (λ copy. (came : List Packet) → StandsFor self.old came → IsTrue copy ↔ IsCopy came (record { interface = interface; time = time; bytes = bytes.now })) }
        ensures held { IfOk result (λ copy. (came : List Packet) → StandsFor self.old came → StandsFor self.new (record { interface = interface; time = time; bytes = bytes.now } ∷ came)) }
        ensures err { OnErr result (self.new ≡ self.old) }
        ensures wants { OnErr result (self.old.room < length bytes.now) }
    {
        let copy = self.has_one_with(interface, time, bytes);
        self.hold(alloc, interface, time, bytes)?;
        Ok(copy)
    }

    /// Whether a packet that is held is one with it.
    fn has_one_with(&self, interface: Interface, time: Option<u64>, bytes: &[u8]) -> bool
        ensures { IsTrue result ↔ Any (AreOne (record { interface = interface; time = time; bytes = bytes.now })) self.now.held }
    {
        self.held
            .iter()
            .any(|held| held.is_one_with(interface, time, bytes))
    }

    /// Holds a packet, in place of the oldest where there are 16.
    fn hold(
        &mut self,
        alloc: Global,
        interface: Interface,
        time: Option<u64>,
        bytes: &[u8],
    ) -> Result<(), AllocError>
        ensures held { OnOk result ((came : List Packet) → StandsFor self.old came → StandsFor self.new (record { interface = interface; time = time; bytes = bytes.now } ∷ came)) }
        ensures err { OnErr result (self.new ≡ self.old) }
        ensures wants { OnErr result (self.old.room < length bytes.now) }
    {
        self.spare.clear();
        self.spare.reserve_exact(bytes.len())?;
        self.spare.extend_from_slice(bytes)?;
        let next = memory_of_oldest(alloc, &mut self.held);
        self.held.push_front_reserved(Held {
            interface,
            time,
            bytes: mem::replace(&mut self.spare, next),
        });
        Ok(())
    }
}

/// Memory for a packet more: that of the oldest where there are 16, which is let go.
fn memory_of_oldest(alloc: Global, held: &mut VecDeque<Held>) -> Vec<u8>
    requires { deque_len held.old ≤ 16 }
    ensures items { held.new.items ≡ take 15 held.old.items }
    ensures room { (h : Held) → slice_get held.old.items 15 ≡ Some h → length h.bytes.items ≤ vec_capacity result }
    ensures capacity { deque_capacity held.new ≡ deque_capacity held.old }
{
    if held.len() < MOST_HELD {
        return Vec::new(alloc);
    }
    match held.pop_back() {
        Some(oldest) => oldest.bytes,
        None => Vec::new(alloc),
    }
}
