ghost use Rattle.std.specs.Prelude.{◌≡◌, option_map};
ghost use Rattle.net_udp.specs.Fragments.{content_of as put_together};
ghost use Rattle.net_udp.specs.Recording.Checked.{IsSent, IsSentBy, IsSentOf};

use crate::fragments::{Content, Outcome};
use crate::frames::{Checksum, read_frame, read_udp};
use crate::recording::event::content_of;
use crate::recording::likeness::Likeness;
use net_pcap::Frame;
use std::net::IpAddr;

/// The host that sent a datagram, and what its checksums say.
#[derive(Clone, Copy, Debug, PartialEq, Eq)]
pub(crate) struct Sent {
    /// The host.
    pub(crate) host: IpAddr,
    /// What they say.
    pub(crate) checksum: Checksum,
}

/// What a frame tells of who sent its datagram; nothing where it is none, or a copy.
#[inline]
pub(crate) fn sent_of(frame: &Frame, likeness: Likeness, outcome: &Option<Outcome>) -> Option<Sent>
    ensures { IsSentOf frame.now.parts likeness outcome.now result }
{
    match likeness {
        Likeness::New | Likeness::Doubtful => sent_in(frame, outcome),
        Likeness::Copy => None,
    }
}

/// What a frame that is no copy tells of who sent its datagram, or that which it made whole; nothing where it is none.
#[inline]
fn sent_in(frame: &Frame, outcome: &Option<Outcome>) -> Option<Sent>
    ensures { IsSent frame.now.parts outcome.now result }
{
    match outcome {
        None => sent_by(frame, None),
        Some(Outcome::Whole { content, .. }) => sent_by(frame, Some(content)),
        Some(_) => None,
    }
}

/// What a frame tells of who sent its datagram, or that of the packet of that content which it made whole.
fn sent_by(frame: &Frame, whole: Option<&Content>) -> Option<Sent>
    ensures { IsSentBy frame.now.parts (option_map (λ content. put_together content.now) whole.entry) result }
{
    let Ok(packet) = read_frame(frame.link(), frame.bytes()) else {
        return None;
    };
    let (protocol, content) = content_of(whole, &packet);
    match read_udp(protocol, content) {
        Ok(_) => Some(Sent {
            host: packet.source,
            checksum: packet.checksum(protocol, content),
        }),
        Err(_) => None,
    }
}
