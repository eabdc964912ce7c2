//! What is to be told of a recording as a whole.

ghost use Rattle.std.specs.Prelude.{◌≡◌, ◌≤◌, ◌<◌, ◌&&◌, ◌∷◌, ◌++◌, ◌⊎◌, [], ℕ, IfOk, IsSome, List, MatchBool, MatchOption, None, Option, OnOk, Some, false, is_none, map, nat_le, option_map, string_bytes, true};
ghost use Rattle.std.specs.declared.net.ip_addr.IpAddr.{IpAddr as Host};
ghost use Rattle.net_udp.specs.declared.frames.unread.UnreadHeader.{UnreadHeader as Header};
ghost use Rattle.audit_flows.specs.Lines.{same_address};
ghost use Rattle.audit_recording.specs.Losses.Noted.{IsAsked, IsFirst, IsMissingOf, IsTold, MayMiss, Since, longest_wait};
ghost use Rattle.audit_recording.specs.Losses.Noted.Event.{Asks, Waits};
ghost use Rattle.audit_recording.specs.Reasons.Clock.{IsClockAfter};
ghost use Rattle.audit_recording.specs.Session.Lines.{aside_lines, fault_lines, lines_told, lost_lines, ports_text};
ghost use Rattle.audit_recording.specs.Session.Noted.{AreHostsOf, AreNotesOf, IsHeaderOf, Noticed, finding, frames_in, giving_up, going, going_back, leaving, leaving_aside, losing, lost_frames, may_be_datagram, nothing_noticed, noting, others, passing_by, stretch_of, told_in, unread_in};
ghost use Rattle.audit_recording.specs.Session.Over.{IsPast, IsWaitingAt};
ghost use Rattle.audit_recording.specs.Session.Recording.{reached_by, setting_aside};
ghost use Rattle.audit_recording.specs.Session.Strays.{asked_ports, stray_of};
ghost use Rattle.audit_recording.specs.Session.Told.{AreKindsOf, Told, is_nil};

use crate::blame::{Missing, Passing, Trail};
use crate::session::asked::note_asked;
use crate::session::begun::Begun;
use crate::session::behind::Behind;
use crate::session::clock::Clock;
use crate::session::discards::Discards;
use crate::session::frames::put_numbers;
use crate::session::kinds::Kinds;
use crate::session::losses::{Losses, SILENCE, Stretch, WAIT};
use crate::session::missing::{fault_line, put_dropped};
use audit_flows::lines::{Endpoint, Place};
use net_pcap::PcapFault;
use net_udp::fragments::Fragments;
use net_udp::frames::{FrameFault, UdpFault};
use net_udp::recording::{Event, LeftOut};
use std::alloc::{AllocError, Global};

/// What is to be told of a recording.
pub struct Notes {
    /// Frames of which something is told, by what is told.
    kinds: Kinds,
    /// Those that are lost, and stand behind a header that is not read.
    behind: Behind,
    /// Those that are lost, by their hosts.
    losses: Losses,
    /// Datagrams that their hosts discarded.
    pub(crate) discards: Discards,
    /// Datagrams of no transfer that look like one that goes on.
    begun: Begun,
    /// Ports at which one of these looks like a request.
    asked: Vec<u64>,
    /// Why it was read no further.
    pub(crate) fault: Option<PcapFault>,
    pub(crate) clock: Clock,
    /// Whether the recorder may still tell that it lost packets: as long as a recording in blocks is read.
    pub may_lose: bool,
    /// How many packets the recorder lost, as far as it has told that.
    pub dropped: u64,
}

impl Drop for Notes {
    // written out, since the prover takes a derived one apart again wherever a value is let go
    fn drop(self) {
        let Notes {
            kinds: _,
            behind: _,
            losses: _,
            discards: _,
            begun: _,
            asked: _,
            fault: _,
            clock: _,
            may_lose: _,
            dropped: _,
        } = self;
    }
}

impl Notes {
    /// Nothing was read.
    pub(crate) fn new(alloc: Global) -> Self
        ensures stands { AreNotesOf result nothing_noticed }
        ensures fault { result.fault ≡ None }
    {
        Notes {
            kinds: Kinds::new(alloc),
            behind: Behind::new(alloc),
            losses: Losses::new(alloc),
            discards: Discards::new(alloc),
            begun: Begun::new(alloc),
            asked: Vec::new(alloc),
            fault: None,
            clock: Clock::new(),
            may_lose: false,
            dropped: 0,
        }
    }

    /// Notes a datagram's time. After an error they stand for nothing, here and below.
    pub(crate) fn pass(&mut self, passing: &Passing<'_>) -> Result<(), AllocError>
        ensures stands { (s : Noticed) → AreNotesOf self.old s → OnOk result (AreNotesOf self.new (passing_by passing.now s)) }
        ensures fault { self.new.fault ≡ self.old.fault }
    {
        match passing.time {
            Some(time) => self.pass_at(passing.frame, time),
            None => Ok(()),
        }
    }

    /// Notes a datagram's time.
    fn pass_at(&mut self, frame: u64, time: u64) -> Result<(), AllocError>
        ensures clock { (times : List ℕ) → IsClockAfter self.old.clock times → IsClockAfter self.new.clock (time ∷ times) }
        ensures kinds { (times : List ℕ) (t : Told) → IsClockAfter self.old.clock times → AreKindsOf self.old.kinds t
            → OnOk result (AreKindsOf self.new.kinds (record t { backwards = going_back frame (Some time) times t.backwards })) }
        ensures losses { self.new.losses ≡ self.old.losses }
        ensures discards { self.new.discards ≡ self.old.discards }
        ensures behind { self.new.behind ≡ self.old.behind }
        ensures begun { self.new.begun ≡ self.old.begun }
        ensures asked { self.new.asked ≡ self.old.asked }
        ensures fault { self.new.fault ≡ self.old.fault }
    {
        if self.clock.pass(time) {
            self.kinds.backwards.add(frame)?;
        }
        Ok(())
    }

    /// Notes a client's request, in that frame, which opens a transfer.
    pub(crate) fn ask(&mut self, alloc: Global, trail: &Trail) -> Result<(), AllocError>
        ensures stands { (s : Noticed) → AreNotesOf self.old s → s.last < trail.now.first
            → OnOk result (AreNotesOf self.new (noting (Asks trail.now.transfer.client.address trail.now.first) trail.now.first s)) }
        ensures fault { self.new.fault ≡ self.old.fault }
    {
        let host = trail.transfer.client.address;
        self.losses.ask(alloc, host, trail.first)
    }

    /// Notes a frame that waits for others of its packet.
    pub(crate) fn wait(&mut self, alloc: Global, event: &Event) -> Result<(), AllocError>
        ensures stands { (s : Noticed) → AreNotesOf self.old s → s.last ≤ event.now.frame.number
            → OnOk result ((hosts : Option (Host × Host)) × AreHostsOf event.now hosts
            × AreNotesOf self.new (noting (Waits (unread_in self.old.clock.reached event.now hosts s.times)) event.now.frame.number s)) }
        ensures fault { self.new.fault ≡ self.old.fault }
    {
        let time = self.clock.moment_of(event.time());
        self.losses.wait(alloc, event.number(), event.hosts(), time)
    }

    /// Notes frames for which no others are missing any more.
    pub(crate) fn find(&mut self, alloc: Global, frames: &[u64]) -> Result<(), AllocError>
        ensures stands { (s : Noticed) → AreNotesOf self.old s → OnOk result (AreNotesOf self.new (finding self.old.clock.reached frames.now s)) }
        ensures fault { self.new.fault ≡ self.old.fault }
    {
        for frame in frames {
            self.losses.find(alloc, *frame, self.clock.reached)?;
        }
        Ok(())
    }

    /// Notes frames that waited for others in vain.
    pub(crate) fn lose(&mut self, alloc: Global, frames: &[u64]) -> Result<(), AllocError>
        ensures stands { (s : Noticed) → AreNotesOf self.old s → OnOk result (AreNotesOf self.new (giving_up frames.now s)) }
        ensures clock { self.new.clock ≡ self.old.clock }
        ensures fault { self.new.fault ≡ self.old.fault }
    {
        for frame in frames {
            self.kinds.lost.add(*frame)?;
            self.losses.give_up(alloc, *frame)?;
        }
        Ok(())
    }

    /// Notes a frame that can't be read, and those that share its fate, of which it may be one.
    fn lose_with(&mut self, alloc: Global, event: &Event) -> Result<(), AllocError>
        ensures stands { (s : Noticed) → AreNotesOf self.old s → s.last ≤ event.now.frame.number
            → OnOk result ((hosts : Option (Host × Host)) × (header : Option Header) × AreHostsOf event.now hosts × IsHeaderOf event.now header
            × AreNotesOf self.new (losing self.old.clock.reached event.now hosts header s)) }
        ensures fault { self.new.fault ≡ self.old.fault }
    {
        let frame = event.number();
        self.lose_others(alloc, event.sharers(), frame)?;
        self.kinds.lost.add(frame)?;
        self.behind.note(alloc, event.unread_header(), frame)?;
        let time = self.clock.moment_of(event.time());
        self.losses.lose(alloc, frame, event.hosts(), time)
    }

    /// Notes frames that waited in vain, but for this one.
    fn lose_others(&mut self, alloc: Global, frames: &[u64], frame: u64) -> Result<(), AllocError>
        ensures stands { (s : Noticed) → AreNotesOf self.old s → OnOk result (AreNotesOf self.new (giving_up (others frame frames.now) s)) }
        ensures clock { self.new.clock ≡ self.old.clock }
        ensures fault { self.new.fault ≡ self.old.fault }
    {
        for other in frames {
            self.lose_other(alloc, *other, frame)?;
        }
        Ok(())
    }

    /// Notes a frame that waited in vain, unless it is this one.
    fn lose_other(&mut self, alloc: Global, other: u64, frame: u64) -> Result<(), AllocError>
        ensures stands { (s : Noticed) → AreNotesOf self.old s → OnOk result (AreNotesOf self.new (giving_up (others frame (other ∷ [])) s)) }
        ensures clock { self.new.clock ≡ self.old.clock }
        ensures fault { self.new.fault ≡ self.old.fault }
    {
        if other == frame {
            return Ok(());
        }
        self.lose(alloc, &[other])
    }

    /// Notes fragments that were let go.
    pub(crate) fn lose_all(
        &mut self,
        alloc: Global,
        mut fragments: Fragments,
    ) -> Result<(), AllocError>
        ensures stands { (s : Noticed) → AreNotesOf self.old s → OnOk result (AreNotesOf self.new (giving_up (frames_in fragments) s)) }
        ensures fault { self.new.fault ≡ self.old.fault }
    {
        while let Some((_, frames)) = fragments.let_go_any() {
            self.lose(alloc, frames.as_slice())?;
        }
        Ok(())
    }

    /// Notes a frame that is left out, and those that share its fate.
    pub(crate) fn leave(
        &mut self,
        alloc: Global,
        why: LeftOut,
        event: &Event,
    ) -> Result<(), AllocError>
        ensures none { (s : Noticed) → AreNotesOf self.old s → may_be_datagram why ≡ false
            → OnOk result (AreNotesOf self.new (leaving self.old.clock.reached why event.now s)) }
        ensures lost { (s : Noticed) → AreNotesOf self.old s → may_be_datagram why ≡ true → s.last ≤ event.now.frame.number
            → OnOk result ((hosts : Option (Host × Host)) × (header : Option Header) × AreHostsOf event.now hosts × IsHeaderOf event.now header
            × AreNotesOf self.new (losing self.old.clock.reached event.now hosts header s)) }
        ensures fault { self.new.fault ≡ self.old.fault }
    {
        match why {
            LeftOut::Copy => self.kinds.copies.add(event.number()),
            LeftOut::Frame(FrameFault::Link) => self.kinds.other_links.add(event.number()),
            LeftOut::Frame(FrameFault::Network | FrameFault::Protocol) => {
                self.find(alloc, event.sharers())
            }
            LeftOut::Udp(UdpFault::Port) => self.find(alloc, event.sharers()),
            _ => self.lose_with(alloc, event),
        }
    }

    /// Notes a datagram that its host discarded, and is left out.
    pub(crate) fn discard(
        &mut self,
        source: Endpoint,
        target: Endpoint,
        frame: u64,
        time: u64,
    ) -> Result<(), AllocError>
        ensures stands { (s : Noticed) → AreNotesOf self.old s
            → OnOk result (AreNotesOf self.new (going (record { source = source; target = target; frame = frame; time = time }) s)) }
        ensures fault { self.new.fault ≡ self.old.fault }
    {
        self.discards.note(source, target, frame, time)?;
        self.kinds.discarded.add(frame)
    }

    /// Notes a datagram that is about no transfer.
    pub(crate) fn set_aside(
        &mut self,
        place: &Place,
        passing: &Passing<'_>,
    ) -> Result<(), AllocError>
        ensures stands { (s : Noticed) → AreNotesOf self.old s → OnOk result (AreNotesOf self.new (setting_aside place.now (stray_of passing.now) s)) }
        ensures fault { self.new.fault ≡ self.old.fault }
    {
        match place {
            Place::Opens(_) | Place::Repeats(_) | Place::Talks(_) | Place::Beside(_) => Ok(()),
            Place::Apart(_) | Place::Nowhere => self.leave_out(passing),
        }
    }

    /// Notes a datagram of no transfer.
    pub(crate) fn leave_out(&mut self, passing: &Passing<'_>) -> Result<(), AllocError>
        ensures stands { (s : Noticed) → AreNotesOf self.old s → OnOk result (AreNotesOf self.new (leaving_aside (stray_of passing.now) s)) }
        ensures fault { self.new.fault ≡ self.old.fault }
    {
        note_asked(&mut self.asked, passing)?;
        self.begun.note(passing)?;
        self.kinds.of_none.add(passing.frame)
    }

    /// The frames that may have been of a transfer's client, and are not there whole.
    pub(crate) fn missing_of(&self, trail: &Trail) -> Missing
        ensures first { (s : Noticed) → AreNotesOf self.now s → IsFirst (IsMissingOf trail.now.transfer.client.address s.events) result.first }
        ensures within { (s : Noticed) → AreNotesOf self.now s → IsAsked (λ host. same_address host trail.now.transfer.client.address) trail.now.first s.events
            → IsTold (Since (IsMissingOf trail.now.transfer.client.address s.events) (stretch_of trail.now)) (stretch_of trail.now) result.within }
    {
        self.losses.of(&Stretch {
            client: trail.transfer.client.address,
            first: trail.first,
            last: trail.last,
            last_time: trail.last_time,
        })
    }

    /// Whether datagrams of a transfer's client may be missing.
    pub(crate) fn may_lack(&self, trail: &Trail) -> bool
        ensures none { (s : Noticed) → AreNotesOf self.now s → result ≡ false
            → (self.now.fault ≡ None) × ((n time : ℕ) → IsMissingOf trail.now.transfer.client.address s.events n time → trail.now.last < n) }
        ensures some { (s : Noticed) → AreNotesOf self.now s → IsAsked (λ host. same_address host trail.now.transfer.client.address) trail.now.first s.events → result ≡ true
            → IsSome self.now.fault ⊎ MayMiss (stretch_of trail.now) s.events }
    {
        let missing = self.missing_of(trail);
        if self.fault.is_some() {
            return true;
        }
        is_up_to(missing.first, trail.last) || missing.within.is_some()
    }

    /// Whether the recording went on for more than 300 s after a transfer, and for 30 s more where a fragment waits that may be
    /// of it: then nothing that comes later changes what is missing of it.
    pub(crate) fn is_past(&self, trail: &Trail) -> bool
        ensures { (s : Noticed) → AreNotesOf self.now s
            → MatchBool result (IsPast (stretch_of trail.now) (reached_by s.times) s.events) (IsPast (stretch_of trail.now) (reached_by s.times) s.events → ⊥) }
    {
        let silent = trail.last_time.saturating_add(SILENCE);
        self.clock.reached > silent.saturating_add(self.wait_for(trail))
    }

    /// How much longer is to be waited for what may be of a transfer, in nanoseconds.
    fn wait_for(&self, trail: &Trail) -> u64
        ensures { (s : Noticed) → AreNotesOf self.now s
            → (IsWaitingAt trail.now.transfer.client.address s.events × (result ≡ longest_wait))
            ⊎ ((IsWaitingAt trail.now.transfer.client.address s.events → ⊥) × (result ≡ 0)) }
    {
        if self.losses.is_waiting(trail.transfer.client.address) {
            return WAIT;
        }
        0
    }

    /// Whether the recording was read to its end and nothing is missing.
    pub fn is_whole(&self) -> bool
        ensures { (s : Noticed) → AreNotesOf self.now s → result ≡ (is_none self.now.fault && is_nil (lost_frames s.events)) }
    {
        self.fault.is_none() && self.kinds.lost.is_none()
    }

    /// What there is to tell, a line each.
    pub fn lines(&self, alloc: Global) -> Result<Vec<String>, AllocError>
        ensures { (s : Noticed) → AreNotesOf self.now s → IfOk result (λ lines. map string_bytes lines.items ≡ lines_told s self.now.dropped self.now.fault) }
    {
        let mut lines = Vec::new(alloc);
        self.kinds.put_left_out(alloc, &mut lines)?;
        self.put_aside(alloc, &mut lines)?;
        self.put_lost(alloc, &mut lines)?;
        self.put_fault(alloc, &mut lines)?;
        Ok(lines)
    }

    /// Adds what there is to tell of what is of no transfer, or out of order.
    fn put_aside(&self, alloc: Global, lines: &mut Vec<String>) -> Result<(), AllocError>
        ensures { (s : Noticed) → AreNotesOf self.now s
            → OnOk result (map string_bytes lines.new.items ≡ map string_bytes lines.old.items ++ aside_lines s) }
    {
        self.kinds.put_of_none(alloc, lines)?;
        self.begun.put(alloc, lines)?;
        self.kinds.put_backwards(alloc, lines)
    }

    /// Adds what there is to tell of what was lost.
    fn put_lost(&self, alloc: Global, lines: &mut Vec<String>) -> Result<(), AllocError>
        ensures { (s : Noticed) → AreNotesOf self.now s
            → OnOk result (map string_bytes lines.new.items ≡ map string_bytes lines.old.items ++ lost_lines s self.now.dropped) }
    {
        self.kinds.put_lost(alloc, lines)?;
        self.behind.put(alloc, lines)?;
        put_dropped(alloc, lines, self.dropped)
    }

    /// Adds where the reading stopped, and why, if it did.
    fn put_fault(&self, alloc: Global, lines: &mut Vec<String>) -> Result<(), AllocError>
        ensures { OnOk result (map string_bytes lines.new.items ≡ map string_bytes lines.old.items ++ fault_lines self.now.fault) }
    {
        match &self.fault {
            Some(fault) => {
                lines.push(fault_line(alloc, fault)?)?;
                Ok(())
            }
            None => Ok(()),
        }
    }

    /// The ports at which something looks like a request, with a space before each; none where nothing does.
    pub fn asked_ports(&self, alloc: Global) -> Result<Option<String>, AllocError>
        ensures { (s : Noticed) → AreNotesOf self.now s → IfOk result (λ ports. option_map string_bytes ports ≡ ports_text (asked_ports s.strays)) }
    {
        if self.asked.is_empty() {
            return Ok(None);
        }
        let mut ports = String::new(alloc);
        put_numbers(&mut ports, self.asked.as_slice())?;
        Ok(Some(ports))
    }
}

/// Whether there is such a frame, and it stands up to that one.
fn is_up_to(frame: Option<u64>, last: u64) -> bool
    ensures { MatchOption frame (result ≡ false) (λ n. result ≡ nat_le n last) }
{
    match frame {
        Some(frame) => frame <= last,
        None => false,
    }
}
