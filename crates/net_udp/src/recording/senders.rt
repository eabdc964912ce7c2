ghost use Rattle.std.specs.Prelude.{◌≡◌, ◌∷◌, List, [], Option, MatchBool, OnOk, OnErr};
ghost use Rattle.net_udp.specs.Recording.Discards.{IsDiscarded};
ghost use Rattle.net_udp.specs.Recording.Senders.{discarded_by, IsUnknown, Knows, learned, maker_of};
ghost use Rattle.net_udp.specs.declared.recording.sent.Sent.{Sent};

use crate::frames::Checksum;
use crate::recording::sent::Sent;
use std::alloc::{AllocError, Global};
use std::collections::BTreeMap;
use std::marker::Model;
use std::net::IpAddr;

/// Who makes the checksums of what a host sends.
#[derive(Clone, Copy, Debug, PartialEq, Eq)]
pub(crate) enum Maker {
    /// The host: one was right when it was recorded, and none was left to its network card.
    Host,
    /// Its network card, of one at least.
    Card,
}

/// Who makes the checksums of hosts, of those that sent a datagram by which it is known.
#[derive(Drop)]
pub(crate) struct Senders {
    makers: BTreeMap<IpAddr, Maker>,
}

impl Model for Senders {
    ghost use Rattle.net_udp.specs.Recording.Senders.{Makers};

    ghost Value = { Makers };

    ghost view = { λ s. s.makers.entries };
}

impl Senders {
    /// Nothing is known. Takes no memory.
    pub(crate) fn new(alloc: Global) -> Self
        ensures { result ≡ [] }
    {
        Senders {
            makers: BTreeMap::new(alloc),
        }
    }

    /// Whether its host discarded the datagram of which a frame tells that, where these are known by the frames before it.
    #[inline]
    pub(crate) fn discard(&self, sent: Option<Sent>) -> bool
        ensures { (before : List (Option Sent)) → Knows self.now before → MatchBool result (IsDiscarded before sent) (IsDiscarded before sent → ⊥) }
    {
        match sent {
            Some(sent) => discarded_by(sent.checksum, self.maker_of(&sent.host)),
            None => false,
        }
    }

    /// Notes what a frame tells.
    #[inline]
    pub(crate) fn note(&mut self, sent: Option<Sent>) -> Result<(), AllocError>
        ensures knows { OnOk result ((before : List (Option Sent)) → Knows self.old before → Knows self.new (sent ∷ before)) }
        ensures wants { OnErr result ((before : List (Option Sent)) → Knows self.old before → IsUnknown before sent) }
    {
        match sent {
            Some(sent) => self.learn(sent),
            None => Ok(()),
        }
    }

    /// Notes who makes the checksums of a host, if that is not known.
    fn learn(&mut self, sent: Sent) -> Result<(), AllocError>
        ensures knows { OnOk result ((before : List (Option Sent)) → Knows self.old before → Knows self.new (Some sent ∷ before)) }
        ensures wants { OnErr result ((before : List (Option Sent)) → Knows self.old before → IsUnknown before (Some sent)) }
    {
        match learned(sent.checksum, self.maker_of(&sent.host)) {
            Some(maker) => {
                self.makers.insert(sent.host, maker)?;
                Ok(())
            }
            None => Ok(()),
        }
    }

    /// Who makes the checksums of a host, if that is known.
    #[inline]
    fn maker_of(&self, host: &IpAddr) -> Option<Maker>
        ensures { result ≡ maker_of host.now self.now }
    {
        self.makers.get(host).copied()
    }
}

/// Whether a datagram with that checksum was discarded, by who makes those of its sender's host.
#[inline]
fn discarded_by(checksum: Checksum, maker: Option<Maker>) -> bool
    ensures { result ≡ discarded_by checksum maker }
{
    match (checksum, maker) {
        (Checksum::Wrong, Some(Maker::Host)) => true,
        _ => false,
    }
}

/// Who makes the checksums of a host that sent a datagram with that one, if that was not known.
#[inline]
fn learned(checksum: Checksum, maker: Option<Maker>) -> Option<Maker>
    ensures { result ≡ learned checksum maker }
{
    match (checksum, maker) {
        (Checksum::Right, None) => Some(Maker::Host),
        (Checksum::Partial, None | Some(Maker::Host)) => Some(Maker::Card),
        _ => None,
    }
}
