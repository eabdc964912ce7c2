//! When the datagrams of a transfer passed: from when on, where nothing passed, and what passed again.

ghost use Rattle.std.specs.Prelude.{◌≡◌, ◌∷◌, List, [], None, true};
ghost use Rattle.audit_flows.specs.{Transfer};
ghost use Rattle.audit_recording.specs.Blame.Frames.{Framed};
ghost use Rattle.audit_recording.specs.Blame.Kept.{IsPassing};
ghost use Rattle.audit_recording.specs.Endings.Pace.{AreSent, IsPaceOf, IsSent, due_from, farther, is_within, longer, or_later, reach_by, reach_of, silence_of};
ghost use Rattle.audit_recording.specs.Endings.Told.{is_own, last_word, sender_at};

use crate::blame::closing::Word;
use crate::blame::passing::Passing;
use tftp_packet::End;

/// How a transfer went in time, by what passed between its ends.
#[derive(Clone, Copy)]
pub struct Pace {
    /// The first time that a datagram tells, in nanoseconds since 1970.
    pub began: Option<u64>,
    /// The longest one, where times are told.
    pub silence: Option<Silence>,
    /// What its client sent.
    pub client: Repeats,
    /// What its server sent.
    pub server: Repeats,
}

/// Nothing passed from one datagram of a transfer to the next.
#[derive(Clone, Copy)]
pub struct Silence {
    /// How long, in nanoseconds; 0 where times go back.
    pub nanoseconds: u64,
    /// The end of which something was due.
    pub role: End,
    /// The frame of the datagram that ended it, from 1.
    pub frame: u64,
}

/// What an end sent again.
#[derive(Clone, Copy)]
pub struct Repeats {
    /// How far it has come: 0 at its request, 1 at its OACK, and the number and 2 at a block or an ACK.
    pub reached: Option<u32>,
    /// How many datagrams were no farther; the greatest number stays.
    pub count: u64,
}

impl Pace {
    /// Before any datagram.
    pub fn new() -> Self
        ensures { (x : Transfer) → IsPaceOf result x [] }
    {
        Pace {
            began: None,
            silence: None,
            client: Repeats::new(),
            server: Repeats::new(),
        }
    }

    /// Notes a datagram between the two ends, of this sender, after the last one.
    pub fn note(&mut self, sender: End, passing: &Passing<'_>, last: Option<Word>)
        ensures { (x : Transfer) (f : Framed) (view : List Framed) → IsPaceOf self.old x view → last ≡ last_word x view
            → sender ≡ sender_at x f.placed.datagram.source → IsPassing passing.now f.carried
            → f.placed.datagram ≡ f.carried.datagram → is_own x f ≡ true → IsPaceOf self.new x (f ∷ view) }
    {
        let reach = reach_of(passing.payload);
        let is_again = self.note_sent(sender, reach);
        if let Some(word) = last {
            let silence = silence_of(sender, word, is_again, passing);
            self.silence = longer(silence, self.silence);
        }
        self.began = or_later(self.began, passing.time);
    }

    /// Notes how far an end has come, and answers whether it had come as far.
    fn note_sent(&mut self, sender: End, reach: Option<u32>) -> bool
        ensures sent { IsSent sender self.old self.new reach result }
        ensures began { self.new.began ≡ self.old.began }
        ensures silence { self.new.silence ≡ self.old.silence }
    {
        match sender {
            End::Client => self.client.note(reach),
            End::Server => self.server.note(reach),
        }
    }
}

impl Repeats {
    /// Before any datagram.
    fn new() -> Self
        ensures reached { result.reached ≡ None }
        ensures count { result.count ≡ 0 }
    {
        Repeats {
            reached: None,
            count: 0,
        }
    }

    /// Notes a datagram of the end, and answers whether it had come as far.
    fn note(&mut self, reach: Option<u32>) -> bool
        ensures is_again { result ≡ is_within reach self.old.reached }
        ensures sent { AreSent self.old self.new reach }
    {
        let is_again = is_within(reach, self.reached);
        if is_again {
            self.count = self.count.saturating_add(1);
        }
        self.reached = farther(reach, self.reached);
        is_again
    }
}

/// How far an end is that sends this; none where it is an ERROR or no packet.
fn reach_of(payload: &[u8]) -> Option<u32>
    ensures { result ≡ reach_of payload.now }
{
    match payload {
        [0, kind, more, less, ..] => reach_by(*kind, u16::from_be_bytes([*more, *less])),
        _ => None,
    }
}

fn reach_by(kind: u8, number: u16) -> Option<u32>
    ensures { result ≡ reach_by kind number }
{
    match kind {
        1 | 2 => Some(0),
        6 => Some(1),
        3 | 4 => Some(u32::from(number) + 2),
        _ => None,
    }
}

fn is_within(reach: Option<u32>, known: Option<u32>) -> bool
    ensures { result ≡ is_within reach known }
{
    match (reach, known) {
        (Some(reach), Some(known)) => reach <= known,
        _ => false,
    }
}

fn farther(reach: Option<u32>, known: Option<u32>) -> Option<u32>
    ensures { result ≡ farther reach known }
{
    match (reach, known) {
        (Some(reach), Some(known)) => Some(reach.max(known)),
        (Some(reach), None) => Some(reach),
        (None, known) => known,
    }
}

fn or_later(time: Option<u64>, later: Option<u64>) -> Option<u64>
    ensures { result ≡ or_later time later }
{
    time.or(later)
}

/// The silence from the last datagram to this one of that sender.
fn silence_of(sender: End, word: Word, is_again: bool, passing: &Passing<'_>) -> Option<Silence>
    ensures { (f : Framed) → IsPassing passing.now f.carried → result ≡ silence_of f sender word is_again word.time f.carried.time }
{
    let (since, until) = (word.time?, passing.time?);
    Some(Silence {
        nanoseconds: until.saturating_sub(since),
        role: due_from(sender, word, is_again),
        frame: passing.frame,
    })
}

/// Of which end something was due.
fn due_from(sender: End, word: Word, is_again: bool) -> End
    ensures { result ≡ due_from sender word is_again }
{
    match (sender, word.role, is_again) {
        (End::Client, End::Client, true) => End::Server,
        (End::Server, End::Server, true) => End::Client,
        _ => sender,
    }
}

fn longer(silence: Option<Silence>, known: Option<Silence>) -> Option<Silence>
    ensures { result ≡ longer silence known }
{
    match (silence, known) {
        (Some(silence), Some(known)) if known.nanoseconds < silence.nanoseconds => Some(silence),
        (silence, known) => known.or(silence),
    }
}
