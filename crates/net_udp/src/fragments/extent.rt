ghost use Rattle.std.specs.Prelude.{◌≡◌, ◌≤◌, ◌↔◌, IsTrue};
ghost use Rattle.net_udp.specs.Fragments.Overlaps.{extent_of, Overlap};
ghost use Rattle.net_udp.specs.Fragments.Pieces.{part_of};
ghost use Rattle.net_udp.specs.Fragments.Whole.{end_of};

use crate::fragments::part::Part;

/// Where a fragment's part stands, and the protocol that the fragment names: by these an exact repetition is told from a part
/// that overlaps (RFC 8200, section 4.5).
#[derive(Clone, Copy, Debug, PartialEq, Eq)]
pub(crate) struct Extent {
    /// Where the part begins in the content, in bytes.
    pub(crate) place: u32,
    /// The place behind its last byte.
    pub(crate) end: u32,
    /// The number of the protocol that the fragment names.
    pub(crate) protocol: u8,
}

impl Extent {
    /// That of a part.
    pub(crate) fn of(part: &Part) -> Self
        requires room { end_of (part_of part.now) ≤ 65535 }
        ensures { result ≡ extent_of (part_of part.now) }
    {
        Extent {
            place: part.place,
            end: part.place + part.content.len() as u32,
            protocol: part.protocol,
        }
    }

    /// Whether parts of the two overlap, and neither repeats the other.
    pub(crate) fn overlaps(&self, other: Extent) -> bool
        ensures { IsTrue result ↔ Overlap other self.now }
    {
        other.place < self.end && self.place < other.end && other != *self
    }
}
