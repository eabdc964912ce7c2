//! The capture texts of transfers, and what there is to say of two of them.

ghost use Rattle.std.specs.Prelude.{◌≡◌, ℕ, List, IfErr, IfOk};
ghost use Rattle.audit_recording.specs.declared.session.fault.TextFault.{TextFault};
ghost use Rattle.tftp_match.specs.Choice.{IsSaidOf};
ghost use Rattle.tftp_match.specs.Faults.{IsLack};
ghost use Rattle.tftp_match.specs.Given.{bytes_of};

use audit_recording::session::TextFault;
use judge_pair::match_texts::{PairSaid, judge_pair_by};
use net_streams::streams::Latched;
use std::alloc::Global;
use std::convert::From;
use std::fmt;
use std::io::Read;
use tftp_packet::rounds::Rollover;

/// The capture text of a transfer.
#[derive(Drop)]
pub enum Text<'a> {
    /// One that is kept.
    Kept(&'a [u8]),
    /// One that was written for this.
    Written(Vec<u8>),
}

impl Text<'_> {
    /// Its bytes.
    pub fn as_slice(&self) -> &[u8]
        ensures { result.now ≡ bytes_of self.now }
    {
        match self {
            Text::Kept(bytes) => bytes,
            Text::Written(bytes) => bytes.as_slice(),
        }
    }
}

/// Why there is no text of a transfer.
#[derive(Debug, Drop)]
pub enum LackFault {
    /// The recording has none.
    Text(TextFault),
    /// Memory was refused while it was written.
    Memory,
}

impl fmt::Display for LackFault {
    ghost use Rattle.tftp_match.specs.Given.{lack_words};

    ghost output = { λ fault. lack_words fault };

    fn fmt<W: fmt::Write>(&self, f: &mut fmt::Formatter<W>) -> fmt::Result {
        match self {
            LackFault::Memory | LackFault::Text(TextFault::Alloc(_)) => f.write_str(
                "out of memory",
            ),
            LackFault::Text(TextFault::NotWhole) => f.write_str(
                "nothing is written, since the recording is not whole",
            ),
            LackFault::Text(TextFault::LongName) => f.write_str(
                "the file's name is too long for a text",
            ),
            LackFault::Text(TextFault::NoTransfer(number, count)) => write!(
                f,
                "there is no transfer {number}: the recording has 1 to {count}"
            ),
        }
    }
}

impl From<TextFault> for LackFault {
    ghost use Rattle.std.specs.Prelude.{◌≡◌};
    ghost use Rattle.tftp_match.specs.declared.texts.LackFault.{LackFault};

    ghost from_gives = { λ fault lack. lack ≡ LackFault.Text fault };

    fn from(fault: TextFault) -> Self {
        LackFault::Text(fault)
    }
}

/// The capture texts of the transfers of a capture.
pub trait Texts {
    // Which text the transfer with a number has.
    ghost is_text: { Self → ℕ → List ℕ → Type 0 };

    // Why that transfer has none.
    ghost is_lack: { Self → ℕ → TextFault → Type 0 };

    /// The text of the transfer with this number.
    fn text(&self, alloc: Global, number: u64) -> Result<Text<'_>, LackFault>
        ensures text { IfOk result (λ text. is_text self.now number (bytes_of text)) }
        ensures fault { IfErr result (IsLack (is_lack self.now number)) };
}

/// What there is to say of a text of the client and one of the server, by what comes after block 65535.
pub fn said_of<R: Read + Drop, S: Read + Drop>(
    alloc: Global,
    rollover: Option<Rollover>,
    client: R,
    server: S,
) -> PairSaid
    ensures { IsSaidOf rollover (R.Read.remaining client) (S.Read.remaining server) result }
{
    let mut client = Latched::new(client);
    let mut server = Latched::new(server);
    judge_pair_by(alloc, rollover, &mut client, &mut server)
}
