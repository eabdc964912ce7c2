//! Which frames are not there whole, by the hosts between which they went.

ghost use Rattle.std.specs.Prelude.{◌≡◌, ◌∷◌, ◌⊎◌, ℕ, List, [], MatchBool, None, OnOk, Some, option_map};
ghost use Rattle.audit_flows.specs.Lines.{same_address};
ghost use Rattle.audit_recording.specs.Losses.Noted.{Event, IsAfterAll, IsAsked, IsFirst, IsMissingOf, IsTold, Since, waiting_at};
ghost use Rattle.audit_recording.specs.Losses.Noted.Event.{Asks, Finds, GivesUp, Loses, Waits};
ghost use Rattle.audit_recording.specs.Losses.Kept.{AreLosses, Changes, HasAskedIn, HasLost, HasWaited, LosesMore, StandFor, host_end, kept_of, of_host, waits_at};
ghost use Rattle.audit_recording.specs.Session.Over.{IsWaitingAt};

use crate::blame::{Missing, least};
use crate::session::host_losses::HostLosses;
use audit_flows::lines::{Address, Endpoint};
use audit_views::parties::address_of;
use std::alloc::{AllocError, Global};
use std::collections::BTreeMap;
use std::net::IpAddr;

/// The hosts of a frame, where its IP header is there.
type Hosts = Option<(IpAddr, IpAddr)>;

/// A datagram of a transfer comes at most so long after the one before it, in nanoseconds: 300 s, after which its client's
/// line is silent.
pub(crate) const SILENCE: u64 = 300_000_000_000;

/// A fragment waits for others of its packet at most so long, in nanoseconds: 30 s (RFC 791, section 3.2, has 15 s; RFC 8200,
/// section 4.5, 60 s).
pub(crate) const WAIT: u64 = 30_000_000_000;

/// Frames that may have been datagrams of UDP, or parts of such, and can't be read.
#[derive(Drop)]
pub struct Losses {
    /// Those of each host, which stands as an endpoint of port 0.
    of_hosts: BTreeMap<Endpoint, HostLosses>,
    /// Those of which no host is known.
    of_unknown: HostLosses,
    /// Frames that wait for others of their packets, and may be lost yet.
    waiting: BTreeMap<u64, Waiting>,
}

/// A frame that waits for others of its packet.
#[derive(Clone, Copy)]
struct Waiting {
    hosts: Hosts,
    /// When it passed, in nanoseconds.
    time: u64,
}

/// The stretch of a recording that a transfer takes.
#[derive(Clone, Copy)]
pub struct Stretch {
    /// Its client's host.
    pub client: Address,
    /// The frame of its request, from 1.
    pub first: u64,
    /// The frame of its last datagram at the client.
    pub last: u64,
    /// The greatest time of these, in nanoseconds since 1970.
    pub last_time: u64,
}

impl Losses {
    /// Nothing was lost.
    pub fn new(alloc: Global) -> Self
        ensures { AreLosses result [] }
    {
        Losses {
            of_hosts: BTreeMap::new(alloc),
            of_unknown: HostLosses::new(alloc),
            waiting: BTreeMap::new(alloc),
        }
    }

    /// Notes that a client of this host asked, in that frame: what is lost from then on may be of its transfer. After an error
    /// they stand for nothing, here and below.
    pub fn ask(&mut self, alloc: Global, host: Address, frame: u64) -> Result<(), AllocError>
        ensures { (history : List Event) → AreLosses self.old history → IsAfterAll frame history
            → OnOk result (AreLosses self.new (Asks host frame ∷ history)) }
    {
        self.of_unknown.ask(frame);
        ask_at(&mut self.of_hosts, alloc, host, frame)
    }

    /// Notes a frame that waits for others of its packet.
    pub fn wait(
        &mut self,
        alloc: Global,
        frame: u64,
        hosts: Hosts,
        time: u64,
    ) -> Result<(), AllocError>
        ensures { (history : List Event) → AreLosses self.old history
            → OnOk result (AreLosses self.new (Waits (record { frame = frame; hosts = hosts; time = time }) ∷ history)) }
    {
        self.end_wait(frame);
        match hosts {
            Some((source, target)) => {
                let (source, target) = (address_of(source), address_of(target));
                wait_at(&mut self.of_hosts, alloc, source, frame, time)?;
                wait_at(&mut self.of_hosts, alloc, target, frame, time)?;
            }
            None => self.of_unknown.wait(frame, time)?,
        }
        self.waiting.insert(frame, Waiting { hosts, time })?;
        Ok(())
    }

    /// Notes a frame whose packet is there whole, or is none that may have been a datagram. Where it has waited too long by
    /// the clock, it stays lost to the transfers of its hosts, which may have been told.
    pub fn find(&mut self, alloc: Global, frame: u64, clock: u64) -> Result<(), AllocError>
        ensures { (history : List Event) → AreLosses self.old history → OnOk result (AreLosses self.new (Finds frame clock ∷ history)) }
    {
        let Some(found) = self.end_wait(frame) else {
            return Ok(());
        };
        if clock > found.time.saturating_add(WAIT) {
            return self.put(alloc, frame, found.hosts, found.time);
        }
        Ok(())
    }

    /// Notes a frame that has waited in vain.
    pub fn give_up(&mut self, alloc: Global, frame: u64) -> Result<(), AllocError>
        ensures { (history : List Event) → AreLosses self.old history → OnOk result (AreLosses self.new (GivesUp frame ∷ history)) }
    {
        match self.end_wait(frame) {
            Some(lost) => self.put(alloc, frame, lost.hosts, lost.time),
            None => Ok(()),
        }
    }

    /// Notes a frame that is lost.
    pub fn lose(
        &mut self,
        alloc: Global,
        frame: u64,
        hosts: Hosts,
        time: u64,
    ) -> Result<(), AllocError>
        ensures { (history : List Event) → AreLosses self.old history
            → OnOk result (AreLosses self.new (Loses (record { frame = frame; hosts = hosts; time = time }) ∷ history)) }
    {
        self.put(alloc, frame, hosts, time)
    }

    /// The frame waits no longer.
    fn end_wait(&mut self, frame: u64) -> Option<Waiting>
        ensures was { (history : List Event) → AreLosses self.old history → result ≡ option_map kept_of (waiting_at frame history) }
        ensures stands { (history : List Event) → AreLosses self.old history → StandFor self.new history (GivesUp frame ∷ history) }
    {
        let ended = self.waiting.remove(&frame)?;
        match ended.hosts {
            Some((source, target)) => {
                end_wait_at(&mut self.of_hosts, address_of(source), frame);
                end_wait_at(&mut self.of_hosts, address_of(target), frame);
            }
            None => self.of_unknown.end_wait(frame),
        }
        Some(ended)
    }

    /// Puts a frame that is lost where those of its hosts are.
    fn put(&mut self, alloc: Global, frame: u64, hosts: Hosts, time: u64) -> Result<(), AllocError>
        ensures { (before after waiting : List Event) → StandFor self.old before waiting
            → LosesMore (record { frame = frame; hosts = hosts; time = time }) before after → OnOk result (StandFor self.new after waiting) }
    {
        match hosts {
            Some((source, target)) => {
                lose_at(&mut self.of_hosts, alloc, address_of(source), frame, time)?;
                lose_at(&mut self.of_hosts, alloc, address_of(target), frame, time)
            }
            None => self.of_unknown.lose(frame, time),
        }
    }

    /// Whether a frame waits that may be of this host: that of an unknown one may be.
    pub fn is_waiting(&self, host: Address) -> bool
        ensures { (history : List Event) → AreLosses self.now history
            → MatchBool result (IsWaitingAt host history) (IsWaitingAt host history → ⊥) }
    {
        self.is_waiting_there(host) || self.of_unknown.is_waiting()
    }

    /// Whether a frame waits that is known to be of this host.
    fn is_waiting_there(&self, host: Address) -> bool
        ensures { MatchBool result
            ((n : ℕ) × (time : ℕ) × (waits_at (of_host self.now.of_hosts host) n ≡ Some time))
            ((n : ℕ) → waits_at (of_host self.now.of_hosts host) n ≡ None) }
    {
        match self.of_hosts.get(&key_of(host)) {
            Some(losses) => losses.is_waiting(),
            None => false,
        }
    }

    /// The frames that may have been of a transfer's client; what still waits may be lost.
    pub fn of(&self, stretch: &Stretch) -> Missing
        ensures first { (history : List Event) → AreLosses self.now history → IsFirst (IsMissingOf stretch.now.client history) result.first }
        ensures within { (history : List Event) → AreLosses self.now history → IsAsked (λ host. same_address host stretch.now.client) stretch.now.first history
            → IsTold (Since (IsMissingOf stretch.now.client history) stretch.now) stretch.now result.within }
    {
        let unknown = &self.of_unknown;
        match self.of_hosts.get(&key_of(stretch.client)) {
            Some(losses) => Missing {
                first: least(losses.first(), unknown.first()),
                within: least(losses.first_since(stretch), unknown.first_since(stretch)),
            },
            None => Missing {
                first: unknown.first(),
                within: unknown.first_since(stretch),
            },
        }
    }
}

/// A host as an endpoint of port 0, which no datagram has.
pub(crate) fn key_of(address: Address) -> Endpoint
    ensures { result ≡ host_end address }
{
    Endpoint { address, port: 0 }
}

/// Notes a request of a client at a host.
fn ask_at(
    hosts: &mut BTreeMap<Endpoint, HostLosses>,
    alloc: Global,
    host: Address,
    frame: u64,
) -> Result<(), AllocError>
    ensures { OnOk result (Changes hosts.old hosts.new host (λ old new. HasAskedIn old new frame)) }
{
    let key = key_of(host);
    match hosts.get_mut(&key) {
        Some(losses) => {
            losses.ask(frame);
            Ok(())
        }
        None => {
            let mut losses = HostLosses::new(alloc);
            losses.ask(frame);
            hosts.insert(key, losses)?;
            Ok(())
        }
    }
}

/// Notes a frame of a host that waits.
fn wait_at(
    hosts: &mut BTreeMap<Endpoint, HostLosses>,
    alloc: Global,
    host: Address,
    frame: u64,
    time: u64,
) -> Result<(), AllocError>
    ensures { OnOk result (Changes hosts.old hosts.new host (λ old new. HasWaited old new frame (Some time))) }
{
    let key = key_of(host);
    match hosts.get_mut(&key) {
        Some(losses) => losses.wait(frame, time),
        None => {
            let mut losses = HostLosses::new(alloc);
            losses.wait(frame, time)?;
            hosts.insert(key, losses)?;
            Ok(())
        }
    }
}

/// Notes that a frame of a host waits no longer.
fn end_wait_at(hosts: &mut BTreeMap<Endpoint, HostLosses>, host: Address, frame: u64)
    ensures { Changes hosts.old hosts.new host (λ old new. HasWaited old new frame None) }
{
    match hosts.get_mut(&key_of(host)) {
        Some(losses) => losses.end_wait(frame),
        None => {}
    }
}

/// Notes a frame of a host that is lost.
fn lose_at(
    hosts: &mut BTreeMap<Endpoint, HostLosses>,
    alloc: Global,
    host: Address,
    frame: u64,
    time: u64,
) -> Result<(), AllocError>
    ensures { OnOk result (Changes hosts.old hosts.new host (λ old new. HasLost old new frame time)) }
{
    let key = key_of(host);
    match hosts.get_mut(&key) {
        Some(losses) => losses.lose(frame, time),
        None => {
            let mut losses = HostLosses::new(alloc);
            losses.lose(frame, time)?;
            hosts.insert(key, losses)?;
            Ok(())
        }
    }
}
