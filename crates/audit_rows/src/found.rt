//! What was found of a transfer at a point where it was judged.

ghost use Rattle.std.specs.Prelude.{◌≡◌};
ghost use Rattle.audit_rows.specs.Viewing.{bytes_in, is_cut_short, is_whole, said_by, stops_early};

use audit_recording::rows::Said;
use judge_tap::TapRefusal;
use tftp_judge::{Meaning, Refusal};

/// What the judge at a point found.
#[derive(Drop)]
pub enum Found {
    /// At an end, by what it saw.
    AtEnd(Result<Meaning, Refusal>),
    /// Between the ends, by what passed there.
    Between(Result<Meaning, TapRefusal>),
}

impl Found {
    /// What is said there; a datagram that is refused is in that frame.
    pub fn said(&self, frame: Option<u64>) -> Said
        ensures { result ≡ said_by self.now frame }
    {
        match self {
            Found::AtEnd(found) => Said::of(found, frame),
            Found::Between(found) => Said::between(found, frame),
        }
    }

    /// Whether it is lawful and stops early (RFC 1350, section 6): an end was to go on.
    pub fn stops_early(&self) -> bool
        ensures { result ≡ stops_early self.now }
    {
        matches!(
            self,
            Found::AtEnd(Err(Refusal::Incomplete(_)))
                | Found::Between(Err(TapRefusal::Incomplete(_)))
        )
    }

    /// Whether it is lawful and stops early, or an ERROR ended it (RFC 1350, section 7).
    pub fn is_cut_short(&self) -> bool
        ensures { result ≡ is_cut_short self.now }
    {
        let is_aborted = matches!(
            self,
            Found::AtEnd(Err(Refusal::Aborted(_, _)))
                | Found::Between(Err(TapRefusal::Aborted(_, _)))
        );
        is_aborted || self.stops_early()
    }

    /// Whether it is a whole transfer.
    pub fn is_whole(&self) -> bool
        ensures { result ≡ is_whole self.now }
    {
        matches!(self, Found::AtEnd(Ok(_)) | Found::Between(Ok(_)))
    }

    /// How many bytes came over, where it is accepted.
    pub fn bytes(&self) -> Option<u64>
        ensures { result ≡ bytes_in self.now }
    {
        match self {
            Found::AtEnd(Ok(meaning)) | Found::Between(Ok(meaning)) => Some(meaning.file_len()),
            _ => None,
        }
    }
}
