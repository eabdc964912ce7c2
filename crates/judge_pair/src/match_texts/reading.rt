ghost use Rattle.std.specs.Prelude.{◌≡◌, ◌<◌, ◌≤◌, ◌^◌, ℕ, List, length, true, false, Option, None, Some};
ghost use Rattle.tftp_capture.specs.{datagram_of};
ghost use Rattle.net_streams.specs.{Standing};
ghost use Rattle.tftp_packet.specs.{Rollover as RolloverKind};
ghost use Rattle.tftp_packet.specs.Hosts.{Datagram as DatagramParts, Header as HeaderParts};
ghost use Rattle.tftp_judge.specs.{IsJudgeAfter, Judge as JudgeParts};
ghost use Rattle.judge_pair.specs.MatchTexts.Reading.{GoesOnAt, IsGiven, IsHalted, said_by};
ghost use Rattle.judge_pair.specs.declared.match_texts.reading.Halt.{Halt as HaltKind};

use net_streams::streams::Latched;
use std::io::Read;
use tftp_capture::{CaptureFault, CaptureReader, Datagram};
use tftp_judge::{Meaning, Refusal, Verdict};

/// Why no more of a text is read.
#[derive(Clone, Copy, Debug, PartialEq, Eq)]
pub enum Halt {
    /// It has ended, without a fault.
    Ended,
    /// Its last datagram was refused.
    Refused,
    /// It has a fault, or a read failed, or memory ran out.
    Fault(CaptureFault),
}

/// A text that is read datagram by datagram, till no more of it is.
#[derive(Drop)]
pub struct Reading {
    pub capture: CaptureReader,
    pub halt: Option<Halt>,
}

impl Reading {
    /// A text of which the header is read.
    pub fn begin(capture: CaptureReader) -> Self
        ensures { result ≡ record { capture = capture; halt = None } }
    {
        Reading {
            capture,
            halt: None,
        }
    }

    /// The next datagram, into what the caller holds; false once no more is read, and then it is kept why.
    pub fn next<R: Read>(&mut self, reader: &mut Latched<R>, datagram: &mut Datagram) -> bool
        requires open { self.old.capture.standing ≡ Standing.Open }
        ensures given { result ≡ true → (rollover : Option RolloverKind) (before : Option (List ℕ)) (h : HeaderParts) (read : List DatagramParts) (judge : JudgeParts)
            → GoesOnAt rollover before (R.remaining reader.old.0) reader.old.1 self.old.capture h read → IsJudgeAfter judge h read
            → IsGiven rollover before (R.remaining reader.new.0) reader.new.1 self.new.capture h read (datagram_of datagram.new) }
        ensures halted { result ≡ false → (rollover : Option RolloverKind) (before : Option (List ℕ)) (h : HeaderParts) (read : List DatagramParts) (judge : JudgeParts)
            → GoesOnAt rollover before (R.remaining reader.old.0) reader.old.1 self.old.capture h read → IsJudgeAfter judge h read
            → (halt : HaltKind) × (self.new.halt ≡ Some halt) × IsHalted rollover before (R.remaining reader.new.0) reader.new.1 halt None h read }
        ensures halts { result ≡ false → (halt : HaltKind) × (self.new.halt ≡ Some halt) }
        ensures goes_on { result ≡ true → self.new.halt ≡ self.old.halt }
        ensures open { result ≡ true → self.new.capture.standing ≡ Standing.Open }
        ensures fits { result ≡ true → length datagram.new.payload ≤ 65527 }
        ensures rises { result ≡ true → self.old.capture.handed < self.new.capture.handed }
        ensures line { self.new.capture.handed ≤ 2 ^ 40 }
    {
        match self.capture.next_into(reader, datagram) {
            Ok(true) => true,
            Ok(false) => {
                self.halt = Some(Halt::Ended);
                false
            }
            Err(fault) => {
                self.halt = Some(Halt::Fault(fault));
                false
            }
        }
    }
}

/// What there is to say of a text of which no more is read, where this is said of its datagrams.
pub fn said_of(halt: Option<Halt>, said: Result<Meaning, Refusal>) -> Result<Meaning, Verdict>
    ensures { (why : HaltKind) → halt ≡ Some why → result ≡ said_by why said }
{
    if let Some(Halt::Fault(fault)) = halt {
        return Err(Verdict::Capture(fault));
    }
    match said {
        Ok(meaning) => Ok(meaning),
        Err(refusal) => Err(Verdict::Refused(refusal)),
    }
}
