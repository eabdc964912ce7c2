ghost use Rattle.std.specs.Prelude.{◌≡◌, ◌<◌, ◌∷◌, List, length, IfOk, OnOk, OnErr};
ghost use Rattle.net_udp.specs.Copies.{Packet as Recorded, StandsFor};
ghost use Rattle.net_udp.specs.Frames.{shown};
ghost use Rattle.net_udp.specs.Recording.Alike.{IsLike, interface_of, is_copy, is_doubtful, likeness_by, recorded};

use crate::copies::{Interface, Recent};
use crate::frames::{IpPacket, interface_index};
use net_pcap::Frame;
use std::alloc::{AllocError, Global};

/// Whether a frame's packet is one with a packet that came before.
#[derive(Clone, Copy, Debug, PartialEq, Eq)]
pub(crate) enum Likeness {
    /// It is not, or the frame has no packet.
    New,
    /// It is, and has no identification: a copy, or what its sender repeated.
    Doubtful,
    /// It is, and has an identification: a copy.
    Copy,
}

impl Likeness {
    /// Whether it is a copy.
    #[inline]
    pub(crate) fn is_copy(self) -> bool
        ensures { result ≡ is_copy self }
    {
        match self {
            Likeness::New | Likeness::Doubtful => false,
            Likeness::Copy => true,
        }
    }

    /// Whether it is a copy or a repetition.
    #[inline]
    pub(crate) fn is_doubtful(self) -> bool
        ensures { result ≡ is_doubtful self }
    {
        match self {
            Likeness::New | Likeness::Copy => false,
            Likeness::Doubtful => true,
        }
    }
}

/// Where a frame was recorded.
#[inline]
fn interface_of(frame: &Frame) -> Interface
    ensures { result ≡ interface_of frame.now.parts }
{
    Interface {
        section: frame.section(),
        number: frame.interface(),
        index: interface_index(frame.link(), frame.bytes()),
    }
}

/// Whether the packet of a frame is one with a packet that came before. From now on it is held.
#[inline]
pub(crate) fn likeness_of(
    alloc: Global,
    recent: &mut Recent,
    frame: &Frame,
    packet: &IpPacket<'_>,
) -> Result<Likeness, AllocError>
    ensures like { IfOk result (λ likeness. (came : List Recorded) → StandsFor recent.old came → IsLike came frame.now.parts (shown packet.now) likeness) }
    ensures held { OnOk result ((came : List Recorded) → StandsFor recent.old came → StandsFor recent.new (recorded frame.now.parts (shown packet.now) ∷ came)) }
    ensures wants { OnErr result (recent.old.room < length packet.now.packet.now) }
{
    let is_one = recent.take(alloc, interface_of(frame), frame.time(), packet.packet)?;
    Ok(likeness_by(is_one, packet.is_identified()))
}

/// By whether a packet is one with a packet that came before, and has an identification.
#[inline]
fn likeness_by(is_one: bool, is_identified: bool) -> Likeness
    ensures { result ≡ likeness_by is_one is_identified }
{
    match (is_one, is_identified) {
        (false, _) => Likeness::New,
        (true, false) => Likeness::Doubtful,
        (true, true) => Likeness::Copy,
    }
}
