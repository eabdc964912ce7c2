//! A capture is a text or a recording, which its first bytes tell.

ghost use Rattle.std.specs.Prelude.{◌≡◌, ◌⊎◌, IfErr, IfOk, List, Option, length, ℕ};
ghost use Rattle.std.specs.Io.KnownBytes.{Consumes, IsAtEnd};
ghost use Rattle.audit_recording.specs.Session.Opened.{IsReadFaultOf, IsReadWhole};
ghost use Rattle.audit_recording.specs.declared.session.kept.Wanted.TheVariants.{All};
ghost use Rattle.tftp_match.specs.Captures.{IsCaptureOf, capture_of};
ghost use Rattle.tftp_match.specs.Unread.{IsFileFault};

use crate::unread::UnreadFault;
use audit_recording::judges::Judging;
use audit_recording::session::{Kept, ReadFault, Session, Wanted, is_recording, read_whole};
use std::alloc::Global;
use std::io::{Chain, Cursor, Read};

/// So many bytes tell a recording.
const HEAD: usize = 4;

/// A reader whose first bytes were read and are read again.
pub type Whole<R> = Chain<Cursor<Vec<u8>>, R>;

/// A capture of which it is known what it is.
#[derive(Drop)]
pub enum Source<R: Read + Drop> {
    /// A text, of which nothing is read yet.
    Text(Whole<R>),
    /// A recording, which is read, with the texts of all its transfers.
    Recording(Session),
}

impl<R: Read + Drop> Source<R> {
    /// The capture that a reader gives; requests go to port 69 and to these ports.
    pub fn begin(alloc: Global, services: &[u16], mut reader: R) -> Result<Self, UnreadFault>
        ensures begun { IfOk result (λ source. IsCaptureOf services.now (R.Read.remaining reader) (capture_of R.Read.remaining source)) }
        ensures why { IfErr result (IsFileFault (R.Read.remaining reader)) }
    {
        let head = head_of(alloc, &mut reader)?;
        let is_text = !is_recording(head.as_slice());
        let whole = Cursor::new(head).chain(reader);
        if is_text {
            return Ok(Source::Text(whole));
        }
        Ok(Source::Recording(session_of(alloc, services, whole)?))
    }
}

/// The first bytes that a reader gives: four, or all where there are fewer.
fn head_of<R: Read>(alloc: Global, reader: &mut R) -> Result<Vec<u8>, UnreadFault>
    ensures head { IfOk result (λ head. Consumes (R.remaining reader.old) (R.remaining reader.new) head.items) }
    ensures all { IfOk result (λ head. (length head.items ≡ 4) ⊎ IsAtEnd (R.remaining reader.new)) }
    ensures why { (file : Option (List ℕ)) → IfErr result (IsFileFault file) }
{
    let mut head = Vec::new(alloc);
    for _ in 0..HEAD {
        let mut byte = [0; 1];
        if reader.read(&mut byte)? == 0 {
            return Ok(head);
        }
        head.push(byte[0])?;
    }
    Ok(head)
}

/// What a recording has.
fn session_of<R: Read + Drop>(
    alloc: Global,
    services: &[u16],
    reader: R,
) -> Result<Session, ReadFault>
    ensures read { IfOk result (λ session. IsReadWhole (R.Read.remaining reader) session services.now) }
    ensures wanted { IfOk result (λ session. session.kept.wanted ≡ All) }
    ensures why { IfErr result (IsReadFaultOf (R.Read.remaining reader)) }
{
    let kept = Kept::new(alloc, Wanted::All);
    let mut session = Session::new(alloc, services, Judging::Nowhere, kept)?;
    read_whole(alloc, reader, &mut session)?;
    Ok(session)
}
