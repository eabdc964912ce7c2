//! Frames of which something is told, by what is told.

ghost use Rattle.std.specs.Prelude.{◌≡◌, ◌++◌, OnOk, codes, map, string_bytes};
ghost use Rattle.audit_recording.specs.Session.Lines.{left_out_lines, lines_of};
ghost use Rattle.audit_recording.specs.Session.Told.{AreKindsOf, Told, nothing_told};

use crate::session::frames::Frames;
use std::alloc::{AllocError, Global};

/// The frames of a recording of which something is told, those of each kind together.
#[derive(Drop)]
pub struct Kinds {
    /// Datagrams that were left out as copies.
    pub(crate) copies: Frames,
    /// Datagrams that were left out as discarded.
    pub(crate) discarded: Frames,
    /// Frames whose link type is not known.
    pub(crate) other_links: Frames,
    /// Datagrams of no transfer.
    pub(crate) of_none: Frames,
    /// Datagrams that are older than the one before.
    pub(crate) backwards: Frames,
    /// Frames that may have been datagrams of UDP, or parts of such, and can't be read.
    pub(crate) lost: Frames,
}

impl Kinds {
    /// There is none yet.
    pub(crate) fn new(alloc: Global) -> Self
        ensures { AreKindsOf result nothing_told }
    {
        Kinds {
            copies: Frames::new(alloc),
            discarded: Frames::new(alloc),
            other_links: Frames::new(alloc),
            of_none: Frames::new(alloc),
            backwards: Frames::new(alloc),
            lost: Frames::new(alloc),
        }
    }

    /// Adds the lines of what was left out of what was read.
    pub(crate) fn put_left_out(
        &self,
        alloc: Global,
        lines: &mut Vec<String>,
    ) -> Result<(), AllocError>
        ensures { (t : Told) → AreKindsOf self.now t → OnOk result (map string_bytes lines.new.items ≡ map string_bytes lines.old.items ++ left_out_lines t) }
    {
        self.copies.put(alloc, lines, "left out as copies")?;
        let discarded = "with a wrong checksum, that a host discarded";
        self.discarded.put(alloc, lines, discarded)?;
        self.other_links.put(alloc, lines, "of another link type")
    }

    /// Adds the line of what is of no transfer.
    pub(crate) fn put_of_none(
        &self,
        alloc: Global,
        lines: &mut Vec<String>,
    ) -> Result<(), AllocError>
        ensures { (t : Told) → AreKindsOf self.now t
            → OnOk result (map string_bytes lines.new.items ≡ map string_bytes lines.old.items ++ lines_of t.of_none (codes "of UDP of no transfer")) }
    {
        self.of_none.put(alloc, lines, "of UDP of no transfer")
    }

    /// Adds the line of what is older than the one before.
    pub(crate) fn put_backwards(
        &self,
        alloc: Global,
        lines: &mut Vec<String>,
    ) -> Result<(), AllocError>
        ensures { (t : Told) → AreKindsOf self.now t
            → OnOk result (map string_bytes lines.new.items ≡ map string_bytes lines.old.items ++ lines_of t.backwards (codes "older than the one before; reordercap puts them in order")) }
    {
        let what = "older than the one before; reordercap puts them in order";
        self.backwards.put(alloc, lines, what)
    }

    /// Adds the line of what is not there whole.
    pub(crate) fn put_lost(&self, alloc: Global, lines: &mut Vec<String>) -> Result<(), AllocError>
        ensures { (t : Told) → AreKindsOf self.now t
            → OnOk result (map string_bytes lines.new.items ≡ map string_bytes lines.old.items ++ lines_of t.lost (codes "not there whole, so that datagrams may be missing")) }
    {
        let what = "not there whole, so that datagrams may be missing";
        self.lost.put(alloc, lines, what)
    }
}
