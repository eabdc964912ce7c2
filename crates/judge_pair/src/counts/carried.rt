ghost use Rattle.std.specs.Prelude.{List, IfSome, IfNone};
ghost use Rattle.tftp_packet.specs.Hosts.{Datagram};
ghost use Rattle.judge_pair.specs.Counts.Counts.{AreLostBetween, AreRepeatedBetween, AreTooMany, IsCountOf};

use crate::counts::counts::Counts;

/// What the network between two ends did, both ways, at the least.
#[derive(Clone, Copy, Debug, PartialEq, Eq)]
pub struct Carried {
    /// How many copies of what one end sent did not come to the other.
    pub lost: u64,
    /// How many copies came that no end had sent.
    pub repeated: u64,
}

impl Carried {
    /// What the network did between two ends, of which this has passed. None where a number is 2^64 or more.
    pub fn between(one: &Counts, other: &Counts) -> Option<Carried>
        ensures lost { IfSome result (λ carried. (sent received : List Datagram) → IsCountOf one.now sent → IsCountOf other.now received
            → AreLostBetween sent received carried.lost) }
        ensures repeated { IfSome result (λ carried. (sent received : List Datagram) → IsCountOf one.now sent → IsCountOf other.now received
            → AreRepeatedBetween sent received carried.repeated) }
        ensures none { IfNone result ((sent received : List Datagram) → IsCountOf one.now sent → IsCountOf other.now received → AreTooMany sent received) }
    {
        Some(Carried {
            lost: one.lost(other)?.checked_add(other.lost(one)?)?,
            repeated: one.repeated(other)?.checked_add(other.repeated(one)?)?,
        })
    }
}
