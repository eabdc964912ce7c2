ghost use Rattle.std.specs.Prelude.{◌≡◌, List, [], IfOk, OnErr, Some, None, false};
ghost use Rattle.net_udp.specs.Fragments.{part_of, SetState, is_long, set_at};
ghost use Rattle.net_udp.specs.Recording.Brought.{key_protocol, may_overlap, nothing_brought, LetsGoOld, Takes, TakesPart, WantsPart};
ghost use Rattle.net_udp.specs.Recording.History.{WantsNext};
ghost use Rattle.net_udp.specs.Recording.Alike.{Comes, is_copy};
ghost use Rattle.net_udp.specs.Copies.{Packet as Recorded, StandsFor};

use crate::copies::Recent;
use crate::fragments::{Fragments, Key, Outcome, Part};
use crate::frames::read_frame;
use crate::recording::likeness::{Likeness, likeness_of};
use net_pcap::Frame;
use std::alloc::{AllocError, Global};
use std::marker::Model;
use std::mem;
use std::net::IpAddr;

/// What a frame did among the fragments that wait.
#[derive(Drop)]
pub(crate) struct Brought {
    /// The frames that were let go since they had waited too long for it.
    pub(crate) old: Vec<u64>,
    /// The fragments that were let go since there was no room for it beside them.
    pub(crate) ousted: Fragments,
    /// What became of it as a fragment; none where it is no fragment.
    pub(crate) outcome: Option<Outcome>,
}

impl Model for Brought {
    ghost use Rattle.net_udp.specs.Recording.Brought.{BroughtState};

    ghost Value = { BroughtState };

    ghost view = { λ b. record { old = b.old.items; ousted = b.ousted; outcome = b.outcome } };
}

impl Brought {
    /// It was no fragment. Takes no memory.
    #[inline]
    pub(crate) fn nothing(alloc: Global) -> Self
        ensures { result ≡ nothing_brought }
    {
        Brought {
            old: Vec::new(alloc),
            ousted: Fragments::new(alloc),
            outcome: None,
        }
    }

    /// What became of it as a fragment; none where it is no fragment.
    #[inline]
    pub(crate) fn outcome(&self) -> &Option<Outcome>
        ensures { result.now ≡ self.now.outcome }
    {
        &self.outcome
    }
}

/// Takes a frame: its packet is held, and where it is a fragment, and no copy, it comes to those that wait.
#[inline]
pub(crate) fn take_frame(
    alloc: Global,
    recent: &mut Recent,
    waiting: &mut Fragments,
    frame: &Frame,
) -> Result<(Likeness, Brought), AllocError>
    ensures comes { IfOk result (λ taken. (before : List Recorded) → StandsFor recent.old before → (came : List Recorded) × Comes before frame.now.parts taken.0 came × StandsFor recent.new came) }
    ensures ok { IfOk result (λ taken. Takes (is_copy taken.0) waiting.old frame.now.parts frame.now.number taken.1 waiting.new) }
    ensures wants { OnErr result ((before : List Recorded) → StandsFor recent.old before → WantsNext before waiting.old frame.now.parts frame.now.number) }
{
    let Ok(packet) = read_frame(frame.link(), frame.bytes()) else {
        return Ok((Likeness::New, Brought::nothing(alloc)));
    };
    let likeness = likeness_of(alloc, recent, frame, &packet)?;
    if likeness.is_copy() {
        return Ok((likeness, Brought::nothing(alloc)));
    }
    let Some(fragment) = packet.fragment else {
        return Ok((likeness, Brought::nothing(alloc)));
    };
    let key = Key {
        source: packet.source,
        target: packet.target,
        protocol: key_protocol(packet.source, packet.protocol),
        id: fragment.id,
    };
    let part = Part {
        protocol: packet.protocol,
        place: fragment.place,
        more: fragment.more,
        content: packet.content,
        may_overlap: may_overlap(packet.source),
    };
    let brought = take_part(alloc, waiting, key, &part, frame.time(), frame.number())?;
    Ok((likeness, brought))
}

/// What a packet's protocol has to say of which packet a fragment is.
#[inline]
fn key_protocol(source: IpAddr, protocol: u8) -> Option<u8>
    ensures { result ≡ key_protocol source protocol }
{
    match source {
        IpAddr::V4(_) => Some(protocol),
        IpAddr::V6(_) => None,
    }
}

/// Whether fragments of packets from that host may overlap.
#[inline]
fn may_overlap(source: IpAddr) -> bool
    ensures { result ≡ may_overlap source }
{
    match source {
        IpAddr::V4(_) => true,
        IpAddr::V6(_) => false,
    }
}

/// Lets go what waits under a key and is too old for that time, and answers its frames.
#[inline]
fn let_go_old(alloc: Global, waiting: &mut Fragments, key: Key, time: Option<u64>) -> Vec<u64>
    ensures goes { LetsGoOld key time waiting.old waiting.new result.items }
    ensures young { (s : SetState) → set_at key waiting.new ≡ Some s → is_long s.began time ≡ false }
{
    match waiting.let_go_old(key, time) {
        Some(frames) => frames,
        None => Vec::new(alloc),
    }
}

/// Takes a fragment. Where there is no room for it beside all that waits, that is let go.
fn take_part(
    alloc: Global,
    waiting: &mut Fragments,
    key: Key,
    part: &Part,
    time: Option<u64>,
    frame: u64,
) -> Result<Brought, AllocError>
    ensures ok { IfOk result (λ b. TakesPart key (record { part = part_of part.now; time = time; frame = frame }) waiting.old waiting.new b) }
    ensures wants { OnErr result (WantsPart key (record { part = part_of part.now; time = time; frame = frame }) waiting.old) }
{
    let old = let_go_old(alloc, waiting, key, time);
    let outcome = waiting.put(alloc, key, part, time, frame)?;
    let Outcome::Full = outcome else {
        return Ok(Brought {
            old,
            ousted: Fragments::new(alloc),
            outcome: Some(outcome),
        });
    };
    let ousted = mem::replace(waiting, Fragments::new(alloc));
    let outcome = waiting.put(alloc, key, part, time, frame)?;
    Ok(Brought {
        old,
        ousted,
        outcome: Some(outcome),
    })
}
