ghost use Rattle.std.specs.Prelude.{◌≡◌, [], None, Option, false, option_map, MatchOption};
ghost use Rattle.std.specs.declared.net.ip_addr.IpAddr.{IpAddr as Host};
ghost use Rattle.net_udp.specs.Fragments.{content_of as put_together};
ghost use Rattle.net_udp.specs.Frames.{HasUnread, IsBetween, TellsUnreachable, shown};
ghost use Rattle.net_udp.specs.declared.frames.unreachable.Unreachable.{Unreachable as UnreachableValue};
ghost use Rattle.net_udp.specs.declared.frames.unread.UnreadHeader.{UnreadHeader as Header};
ghost use Rattle.net_udp.specs.declared.fragments.outcome.Outcome.{Outcome as Became};
ghost use Rattle.net_pcap.specs.{FrameParts, no_frame};
ghost use Rattle.net_udp.specs.Recording.Brought.{nothing_brought};
ghost use Rattle.net_udp.specs.Recording.Fates.{content_of, direction_of, IsFate, IsFateBy, IsFateOf, IsSoundFate, Says, sharers};
ghost use Rattle.net_udp.specs.Recording.Alike.{is_doubtful};
ghost use Rattle.net_udp.specs.Recording.Checked.{checksum_told};
ghost use Rattle.net_udp.specs.declared.recording.likeness.Likeness.{Likeness};

use crate::fragments::{Content, Fragments, Outcome};
use crate::frames::{
    Checksum, Direction as LinkDirection, FrameFault, IpPacket, UdpFault, Unreachable,
    UnreadHeader, read_frame, read_hosts, read_udp, read_unreachable, unread_header,
};
use crate::recording::brought::Brought;
use crate::recording::fate::{Datagram, Fate, LeftOut};
use crate::recording::likeness::Likeness;
use crate::recording::sent::Sent;
use net_pcap::{Direction, Frame};
use std::alloc::Global;
use std::marker::Model;
use std::mem;
use std::net::IpAddr;

/// A frame of a recording, what became of it, and of which frames it decided; to be filled by a reader, in its memory.
pub struct Event {
    pub(crate) frame: Frame,
    pub(crate) likeness: Likeness,
    pub(crate) brought: Brought,
    pub(crate) sent: Option<Sent>,
    pub(crate) is_discarded: bool,
}

impl Drop for Event {
    // written out, since the prover takes a derived one apart again wherever a value is let go
    fn drop(self) {
        let Event {
            frame: _,
            likeness: _,
            brought: _,
            sent: _,
            is_discarded: _,
        } = self;
    }
}

impl Model for Event {
    ghost use Rattle.net_udp.specs.Recording.History.{EventState};

    ghost Value = { EventState };

    ghost view = { λ e. record { frame = e.frame; likeness = e.likeness; brought = e.brought; sent = e.sent; is_discarded = e.is_discarded } };
}

impl Event {
    /// No frame yet; it takes no memory.
    pub fn empty(alloc: Global) -> Self
        ensures number { result.frame.number ≡ 0 }
        ensures parts { result.frame.parts ≡ no_frame }
        ensures likeness { result.likeness ≡ Likeness.New }
        ensures brought { result.brought ≡ nothing_brought }
        ensures sent { result.sent ≡ None }
        ensures discarded { result.is_discarded ≡ false }
    {
        Event {
            frame: Frame::empty(alloc),
            likeness: Likeness::New,
            brought: Brought::nothing(alloc),
            sent: None,
            is_discarded: false,
        }
    }

    /// Sets whether the frame is a copy, what it did, what it tells of who sent its datagram, and whether that one's host
    /// discarded it.
    #[inline]
    pub(crate) fn bring(
        &mut self,
        likeness: Likeness,
        brought: Brought,
        sent: Option<Sent>,
        is_discarded: bool,
    )
        ensures frame { self.new.frame ≡ self.old.frame }
        ensures likeness { self.new.likeness ≡ likeness }
        ensures brought { self.new.brought ≡ brought }
        ensures sent { self.new.sent ≡ sent }
        ensures discarded { self.new.is_discarded ≡ is_discarded }
    {
        self.likeness = likeness;
        self.brought = brought;
        self.sent = sent;
        self.is_discarded = is_discarded;
    }

    /// The frame's number in the recording, the first being 1.
    #[inline]
    pub fn number(&self) -> u64
        ensures { result ≡ self.now.frame.number }
    {
        self.frame.number()
    }

    /// When the frame was recorded, in nanoseconds since 1970; none where the recording does not say, or where 64 bits
    /// can't count them.
    #[inline]
    pub fn time(&self) -> Option<u64>
        ensures { result ≡ self.now.frame.parts.time }
    {
        self.frame.time()
    }

    /// Whether the frame was received with an error of its link, as a wrong checksum of Ethernet: the host that got it discarded
    /// it. It is not left out for that (draft-ietf-opsawg-pcapng, section 4.3.1).
    #[inline]
    pub fn has_error(&self) -> bool
        ensures { result ≡ self.now.frame.parts.damaged }
    {
        self.frame.is_damaged()
    }

    /// What became of the frame. A datagram borrows its payload from the frame, or from the packet that was put together.
    #[inline]
    pub fn fate(&self) -> Fate<'_>
        ensures is { IsFateOf self.now.frame.parts self.now.likeness self.now.brought.outcome self.now.is_discarded result }
        ensures sound { IsSoundFate result }
    {
        match self.likeness {
            Likeness::New | Likeness::Doubtful => {
                let fate = fate_of(&self.frame, self.brought.outcome());
                left_by(self.is_discarded, fate)
            }
            Likeness::Copy => Fate::Left(LeftOut::Copy),
        }
    }

    /// What the checksums say of the datagram that the frame is, or that it made whole: the datagram's own, over all its bytes,
    /// and that of the frame's IPv4 header. Of any other frame, and of a copy, it is Absent (RFC 768; RFC 791, section 3.1; RFC
    /// 8200, section 8.1).
    #[inline]
    pub fn checksum(&self) -> Checksum
        ensures { result ≡ checksum_told self.now.sent }
    {
        match self.sent {
            Some(sent) => sent.checksum,
            None => Checksum::Absent,
        }
    }

    /// The hosts between which the frame's IP packet went, its sender first, also where the frame is left out or is a fragment
    /// alone; none where it has no whole IP header (RFC 791, section 3.1; RFC 8200, section 3), nor where an extension header is cut
    /// or not read, since one of routing may lead on to another host (RFC 8200, section 4.4).
    #[inline]
    pub fn hosts(&self) -> Option<(IpAddr, IpAddr)>
        ensures { MatchOption result
            ((source target : Host) → IsBetween self.now.frame.parts.link self.now.frame.parts.bytes source target → ⊥)
            (λ hosts. IsBetween self.now.frame.parts.link self.now.frame.parts.bytes hosts.0 hosts.1) }
    {
        read_hosts(self.frame.link(), self.frame.bytes())
    }

    /// The header at which the reading of the frame ends, though a datagram may stand behind it, as MACsec (IEEE 802.1AE); none where
    /// it ends for another reason, or a datagram is read. Of what was put together of fragments nothing is told.
    #[inline]
    pub fn unread_header(&self) -> Option<UnreadHeader>
        ensures { MatchOption result
            ((u : Header) → HasUnread self.now.frame.parts.link self.now.frame.parts.bytes u → ⊥)
            (λ u. HasUnread self.now.frame.parts.link self.now.frame.parts.bytes u) }
    {
        unread_header(self.frame.link(), self.frame.bytes())
    }

    /// What the frame tells of a UDP datagram that did not arrive, in an ICMP message that is no fragment (RFC 792; RFC 4443, section
    /// 3.1); none where it tells nothing. Of copies it is told too.
    #[inline]
    pub fn unreachable(&self) -> Option<Unreachable>
        ensures { MatchOption result
            ((u : UnreachableValue) → TellsUnreachable self.now.frame.parts.link self.now.frame.parts.bytes u → ⊥)
            (λ u. TellsUnreachable self.now.frame.parts.link self.now.frame.parts.bytes u) }
    {
        read_unreachable(self.frame.link(), self.frame.bytes())
    }

    /// Whether the frame is a copy of a frame before it, recorded at another interface, or what its sender repeated: its packet
    /// has no identification, which would tell. It is not left out for that. Of what comes twice at one interface nothing is
    /// told: all frames of a classic recording are of one, but those of Linux cooked, version 2, whose header names it.
    #[inline]
    pub fn is_doubtful(&self) -> bool
        ensures { result ≡ is_doubtful self.now.likeness }
    {
        self.likeness.is_doubtful()
    }

    /// The frames that waited until now and share its fate: those of the parts of a packet that it made whole, its own the
    /// last, or those of the fragments of which and it no packet is put together.
    #[inline]
    pub fn sharers(&self) -> &[u64]
        ensures { result.now ≡ sharers self.now.brought.outcome }
    {
        match &self.brought.outcome {
            Some(Outcome::Whole { frames, .. }) => frames.as_slice(),
            Some(Outcome::Apart(frames)) => frames.as_slice(),
            _ => &[],
        }
    }

    /// The frames that are left out since they had waited for others of their packet for more than 30 s.
    #[inline]
    pub fn old(&self) -> &[u64]
        ensures { result.now ≡ self.now.brought.old }
    {
        self.brought.old.as_slice()
    }

    /// Hands out the fragments that are left out since more than 64 MB would have waited with the frame.
    #[inline]
    pub fn take_ousted(&mut self, alloc: Global) -> Fragments
        ensures value { result ≡ self.old.brought.ousted }
        ensures gone { self.new.brought.ousted ≡ [] }
        ensures old { self.new.brought.old ≡ self.old.brought.old }
        ensures outcome { self.new.brought.outcome ≡ self.old.brought.outcome }
        ensures frame { self.new.frame ≡ self.old.frame }
        ensures likeness { self.new.likeness ≡ self.old.likeness }
        ensures sent { self.new.sent ≡ self.old.sent }
        ensures discarded { self.new.is_discarded ≡ self.old.is_discarded }
    {
        mem::replace(&mut self.brought.ousted, Fragments::new(alloc))
    }
}

/// What became of a frame, by whether its host discarded its datagram, and what became of it else.
#[inline]
fn left_by(is_discarded: bool, fate: Fate<'_>) -> Fate<'_>
    ensures is { (frame : FrameParts) (outcome : Option Became) → IsFate frame outcome fate.entry → IsFateBy is_discarded frame outcome result }
    ensures sound { IsSoundFate fate.entry → IsSoundFate result }
{
    match fate {
        Fate::Datagram(datagram) if is_discarded => Fate::Discarded(datagram),
        fate => fate,
    }
}

/// What became of a frame, by what became of it as a fragment.
#[inline]
fn fate_of<'a>(frame: &'a Frame, outcome: &'a Option<Outcome>) -> Fate<'a>
    ensures is { IsFate frame.now.parts outcome.now result }
    ensures sound { IsSoundFate result }
{
    match outcome {
        None => says(frame, None),
        Some(Outcome::Waits) => Fate::Waits,
        Some(Outcome::Whole { content, .. }) => says(frame, Some(content)),
        Some(Outcome::Apart(_)) => Fate::Left(LeftOut::Apart),
        Some(Outcome::Empty) => Fate::Left(LeftOut::Empty),
        Some(Outcome::TooLong) => Fate::Left(LeftOut::TooLong),
        Some(Outcome::Full) => Fate::Left(LeftOut::Full),
    }
}

/// What a frame says, or the packet of that content which it made whole.
#[inline]
fn says<'a>(frame: &'a Frame, whole: Option<&'a Content>) -> Fate<'a>
    ensures says { Says frame.now.parts (option_map (λ content. put_together content.now) whole.entry) result }
    ensures sound { IsSoundFate result }
{
    let packet = match read_frame(frame.link(), frame.bytes()) {
        Ok(packet) => packet,
        Err(fault) => return Fate::Left(LeftOut::Frame(fault)),
    };
    let (protocol, content) = content_of(whole, &packet);
    match read_udp(protocol, content) {
        Ok(udp) => Fate::Datagram(Datagram {
            direction: direction_of(frame.direction(), packet.direction),
            source: packet.source,
            source_port: udp.source_port,
            target: packet.target,
            target_port: udp.target_port,
            payload: udp.payload,
        }),
        Err(UdpFault::Protocol) => Fate::Left(LeftOut::Frame(FrameFault::Protocol)),
        Err(fault) => Fate::Left(LeftOut::Udp(fault)),
    }
}

/// The content of a packet, with what it begins and its bytes: the one that was put together, or else the packet's own.
#[inline]
pub(crate) fn content_of<'a>(whole: Option<&'a Content>, packet: &IpPacket<'a>) -> (u8, &'a [u8])
    ensures protocol { result.0 ≡ (content_of (shown packet.now) (option_map (λ content. put_together content.now) whole.entry)).protocol }
    ensures bytes { result.1.now ≡ (content_of (shown packet.now) (option_map (λ content. put_together content.now) whole.entry)).bytes }
{
    match whole {
        Some(content) => (content.protocol, content.bytes.as_slice()),
        None => (packet.protocol, packet.content),
    }
}

/// Which way a frame went: what the link says, and where that says nothing, what the recording does.
#[inline]
fn direction_of(recorded: Direction, linked: LinkDirection) -> Direction
    ensures { result ≡ direction_of recorded linked }
{
    match linked {
        LinkDirection::Unknown => recorded,
        LinkDirection::In => Direction::In,
        LinkDirection::Out => Direction::Out,
    }
}
