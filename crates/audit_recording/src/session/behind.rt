//! Frames that are left out behind a header that is not read, by its name.

ghost use Rattle.std.specs.Prelude.{◌≡◌, ◌++◌, ◌∷◌, [], IfOk, List, None, OnOk, map, position, string_bytes};
ghost use Rattle.audit_recording.specs.Session.Hidden.{AreBehindOf, Hidden, hiding, same_header};
ghost use Rattle.audit_recording.specs.Session.Lines.{behind_lines, behind_words, kind_lines};

use crate::session::frames::Frames;
use net_udp::frames::UnreadHeader;
use std::alloc::{AllocError, Global};

/// Frames behind one header.
#[derive(Drop)]
struct Kind {
    header: UnreadHeader,
    frames: Frames,
}

/// Frames behind headers that are not read, those of each header together.
#[derive(Drop)]
pub struct Behind {
    kinds: Vec<Kind>,
}

impl Behind {
    /// Nothing was read.
    pub fn new(alloc: Global) -> Self
        ensures { AreBehindOf result [] }
    {
        Behind {
            kinds: Vec::new(alloc),
        }
    }

    /// Notes a frame, if it has such a header. After an error they stand for nothing, here and below.
    pub fn note(
        &mut self,
        alloc: Global,
        header: Option<UnreadHeader>,
        frame: u64,
    ) -> Result<(), AllocError>
        ensures { (hidden : List Hidden) → AreBehindOf self.old hidden → OnOk result (AreBehindOf self.new (hiding header frame hidden)) }
    {
        let Some(header) = header else {
            return Ok(());
        };
        match self.place_of(header) {
            Some(place) => self.kinds[place].frames.add(frame),
            None => self.begin(alloc, header, frame),
        }
    }

    /// Where the frames of a header stand.
    fn place_of(&self, header: UnreadHeader) -> Option<usize>
        ensures { result ≡ position (λ kind. same_header header kind.header) self.now.kinds.items }
    {
        self.kinds.iter().position(|kind| header == kind.header)
    }

    /// Begins with a header.
    fn begin(&mut self, alloc: Global, header: UnreadHeader, frame: u64) -> Result<(), AllocError>
        ensures { (hidden : List Hidden) → AreBehindOf self.old hidden
            → position (λ kind. same_header header kind.header) self.old.kinds.items ≡ None
            → OnOk result (AreBehindOf self.new (record { header = header; frame = frame } ∷ hidden)) }
    {
        let mut frames = Frames::new(alloc);
        frames.add(frame)?;
        self.kinds.push(Kind { header, frames })?;
        Ok(())
    }

    /// Adds a line for each header.
    pub fn put(&self, alloc: Global, lines: &mut Vec<String>) -> Result<(), AllocError>
        ensures { OnOk result (map string_bytes lines.new.items ≡ map string_bytes lines.old.items ++ behind_lines self.now) }
    {
        for kind in self.kinds.iter() {
            kind.put(alloc, lines)?;
        }
        Ok(())
    }
}

impl Kind {
    fn put(&self, alloc: Global, lines: &mut Vec<String>) -> Result<(), AllocError>
        ensures { OnOk result (map string_bytes lines.new.items ≡ map string_bytes lines.old.items ++ kind_lines self.now) }
    {
        let what = words_of(alloc, self.header)?;
        self.frames.put(alloc, lines, what.as_str())
    }
}

/// What is told of frames behind a header.
fn words_of(alloc: Global, header: UnreadHeader) -> Result<String, AllocError>
    ensures { IfOk result (λ what. string_bytes what ≡ behind_words header) }
{
    let mut what = String::from_str(alloc, "behind ")?;
    what.push_str(header.name())?;
    what.push_str(", which is not read")?;
    Ok(what)
}
