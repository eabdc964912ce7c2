ghost use Rattle.std.specs.Prelude.{◌↔◌, IsTrue, IfOk, IfErr};
ghost use Rattle.tftp_judge.specs.{IsOfText};
ghost use Rattle.judge_pair.specs.MatchTexts.Said.{AreTogether, IsAllLawful, IsApart, SaysMatched};

use crate::judge::Matched;
use tftp_capture::CaptureFault;
use tftp_judge::{Meaning, Refusal, Verdict};
use tftp_packet::End;

/// Why it is not told how far two captures go together.
#[derive(Clone, Copy, Debug, PartialEq, Eq)]
pub enum Apart {
    /// The text of this end names the other one.
    WrongEnd(End),
    /// A text has a fault before all datagrams, or a read failed, or memory ran out: what is said of the text says which.
    Stopped,
}

/// What there is to say of two capture texts, of a client and a server.
#[derive(Debug)]
pub struct PairSaid {
    /// What there is to say of the client's alone.
    pub client: Result<Meaning, Verdict>,
    /// What there is to say of the server's alone.
    pub server: Result<Meaning, Verdict>,
    /// How far the two go together.
    pub together: Result<Matched, Apart>,
}

impl Drop for PairSaid {
    // written out, since the prover takes a derived one apart again wherever a value is let go
    fn drop(self) {
        let PairSaid {
            client: _,
            server: _,
            together: _,
        } = self;
    }
}

impl PairSaid {
    /// Whether both are lawful to their ends and matched to their ends, so that one run of the two ends has both.
    pub fn is_matched(&self) -> bool
        ensures { IsTrue result ↔ SaysMatched self.now.client self.now.server self.now.together }
    {
        let Ok(matched) = &self.together else {
            return false;
        };
        is_all_lawful(&self.client)
            && is_all_lawful(&self.server)
            && matched.client_matched == matched.client_lawful
            && matched.server_matched == matched.server_lawful
    }
}

/// Whether a text has no fault, and all its datagrams are lawful.
fn is_all_lawful(said: &Result<Meaning, Verdict>) -> bool
    ensures { IsTrue result ↔ IsAllLawful said.now }
{
    match said {
        Ok(_) => true,
        Err(Verdict::Refused(Refusal::Unlawful(..) | Refusal::Memory(_))) => false,
        Err(Verdict::Refused(_)) => true,
        Err(Verdict::Capture(_)) => false,
    }
}

/// Whether something is said of a text, and not of its reader or the memory.
pub fn is_of_text(said: &Result<Meaning, Verdict>) -> bool
    ensures { IsTrue result ↔ IsOfText said.now }
{
    match said {
        Ok(_) => true,
        Err(Verdict::Refused(Refusal::Memory(_))) => false,
        Err(Verdict::Refused(_)) => true,
        Err(Verdict::Capture(CaptureFault::Text(..))) => true,
        Err(Verdict::Capture(_)) => false,
    }
}

/// How far two texts go together, which name these ends, and of which this is said.
pub fn together_of(
    named: End,
    other_named: End,
    client: &Result<Meaning, Verdict>,
    server: &Result<Meaning, Verdict>,
    numbers: Matched,
) -> Result<Matched, Apart>
    ensures ok { IfOk result (AreTogether named other_named client.now server.now numbers) }
    ensures err { IfErr result (IsApart named other_named client.now server.now) }
{
    match named {
        End::Client => {}
        End::Server => return Err(Apart::WrongEnd(End::Client)),
    }
    match other_named {
        End::Server => {}
        End::Client => return Err(Apart::WrongEnd(End::Server)),
    }
    if !is_of_text(client) {
        return Err(Apart::Stopped);
    }
    if !is_of_text(server) {
        return Err(Apart::Stopped);
    }
    Ok(numbers)
}
