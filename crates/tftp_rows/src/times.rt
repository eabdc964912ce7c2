//! How long a transfer took, beside the verdict on it.

ghost use Rattle.std.specs.Prelude.{◌≡◌, ◌++◌, ℕ, List, OnOk, string_bytes};
ghost use Rattle.audit_flows.specs.{Transfer};
ghost use Rattle.audit_recording.specs.Blame.Frames.{Carried};
ghost use Rattle.audit_recording.specs.Blame.Kept.{IsTrailOf};
ghost use Rattle.audit_recording.specs.declared.judges.judging.Judging.{Judging as JudgingKind};
ghost use Rattle.audit_rows.specs.{IsJudgedOf};
ghost use Rattle.audit_rows.specs.Viewing.{bytes_in};
ghost use Rattle.tftp_rows.specs.Times.{AreTimesOf, lasted, rate, repeats_text, silence_text, slow_text, slow_words};

use crate::conclusion::RoleWord;
use audit_recording::blame::{Silence, Trail, Word};
use audit_rows::{Judged, Told};
use std::alloc::AllocError;
use std::fmt;

/// So many nanoseconds are a second: the least time after which an end sends again, where one is agreed on (RFC 2349).
const SECOND: u64 = 1_000_000_000;

/// How a transfer went in time, as it is told.
#[derive(Clone, Copy, Drop)]
pub struct Times {
    /// From its first datagram to its last one, in nanoseconds.
    pub nanoseconds: Option<u64>,
    /// Of the file that came over.
    pub bytes_per_second: Option<u64>,
    /// What each end sent again.
    pub repeats: Repeated,
    /// The longest time in which nothing passed between the ends.
    pub silence: Option<Silence>,
}

/// How many datagrams each end sent again.
#[derive(Clone, Copy, Drop)]
pub struct Repeated {
    /// Those of the client.
    pub client: u64,
    /// Those of the server.
    pub server: u64,
}

/// How a transfer went in time, by what a row says.
pub fn times_told(judged: &Judged, told: &Told<'_>) -> Times
    ensures { (judging : JudgingKind) (x : Transfer) (named : List ℕ) (carried : List Carried) → IsJudgedOf judged.now judging x named carried
        → AreTimesOf result x (bytes_in told.now.view.now.found) named carried }
{
    Times::of(judged.trail(), told.view.found.bytes())
}

/// Nanoseconds, which are shown as seconds with three digits behind the point.
#[derive(Clone, Copy)]
struct Seconds(u64);

impl fmt::Display for Seconds {
    ghost use Rattle.std.specs.Prelude.{Some};
    ghost use Rattle.tftp_rows.specs.Times.{seconds_text};

    ghost output = { λ seconds. Some (seconds_text seconds.0) };

    #[tactic(auto, unfolding(crate::specs::Times::seconds_text))]
    fn fmt<W: fmt::Write>(&self, f: &mut fmt::Formatter<W>) -> fmt::Result {
        let milliseconds = self.0 / 1_000_000;
        let (seconds, tenths) = (milliseconds / 1000, milliseconds / 100 % 10);
        let (hundredths, thousandths) = (milliseconds / 10 % 10, milliseconds % 10);
        write!(f, "{seconds}.{tenths}{hundredths}{thousandths}")
    }
}

impl Times {
    /// How a transfer went, of whose file so many bytes came over, where it is accepted.
    pub fn of(trail: &Trail, bytes: Option<u64>) -> Self
        ensures { (judging : JudgingKind) (x : Transfer) (named : List ℕ) (carried : List Carried) → IsTrailOf trail.now judging x named carried
            → AreTimesOf result x bytes named carried }
    {
        let pace = trail.pace();
        let nanoseconds = lasted(pace.began, trail.last_word());
        Times {
            nanoseconds,
            bytes_per_second: rate(bytes, nanoseconds),
            repeats: Repeated {
                client: pace.client.count,
                server: pace.server.count,
            },
            silence: pace.silence,
        }
    }

    /// Puts how long it took, where nothing passed for a second.
    pub fn put(&self, line: &mut String) -> Result<(), AllocError>
        ensures { OnOk result (string_bytes line.new ≡ string_bytes line.old ++ slow_text self.now) }
    {
        match (self.nanoseconds, self.silence) {
            (Some(nanoseconds), Some(silence)) => {
                if silence.nanoseconds < SECOND {
                    return Ok(());
                }
                self.put_slow(line, nanoseconds, silence)
            }
            _ => Ok(()),
        }
    }

    fn put_slow(
        &self,
        line: &mut String,
        nanoseconds: u64,
        silence: Silence,
    ) -> Result<(), AllocError>
        ensures { OnOk result (string_bytes line.new ≡ string_bytes line.old ++ slow_words self.now nanoseconds silence) }
    {
        put_silence(line, nanoseconds, silence)?;
        self.repeats.put(line)
    }
}

impl Repeated {
    fn put(&self, line: &mut String) -> Result<(), AllocError>
        ensures { OnOk result (string_bytes line.new ≡ string_bytes line.old ++ repeats_text self.now) }
    {
        let (client, server) = (self.client, self.server);
        write!(
            line,
            ", sent again: {client} of the client, {server} of the server"
        )
    }
}

fn put_silence(line: &mut String, nanoseconds: u64, silence: Silence) -> Result<(), AllocError>
    ensures { OnOk result (string_bytes line.new ≡ string_bytes line.old ++ silence_text nanoseconds silence) }
{
    let (took, silent) = (Seconds(nanoseconds), Seconds(silence.nanoseconds));
    let role = RoleWord(silence.role);
    let frame = silence.frame;
    write!(
        line,
        "; took {took} s, the {role} silent for {silent} s before frame {frame}"
    )
}

/// From the first time to that of the last datagram, where both are told.
fn lasted(began: Option<u64>, last: Option<Word>) -> Option<u64>
    ensures { result ≡ lasted began last }
{
    let (began, last) = (began?, last?);
    Some(last.time?.saturating_sub(began))
}

/// So many bytes a second.
fn rate(bytes: Option<u64>, nanoseconds: Option<u64>) -> Option<u64>
    ensures { result ≡ rate bytes nanoseconds }
{
    bytes?.saturating_mul(SECOND).checked_div(nanoseconds?)
}
