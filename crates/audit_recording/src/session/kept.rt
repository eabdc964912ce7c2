//! The capture texts that are wanted.

ghost use Rattle.std.specs.Prelude.{◌≡◌, ◌≢◌, ◌==◌, ◌≤◌, ◌∷◌, ◌++◌, [], ℕ, List, IfOk, IsOk, OnOk, Some, if◌then◌else◌, length, option_map, string_bytes};
ghost use Rattle.std.specs.BTreeMap.{get};
ghost use Rattle.std.specs.Ordering.{is_eq, nat_cmp};
ghost use Rattle.tftp_capture.specs.{IsPort};
ghost use Rattle.audit_flows.specs.{Opens};
ghost use Rattle.audit_views.specs.Parties.{host_name};
ghost use Rattle.audit_views.specs.Texts.{AreNotesAfter, Notes, Worded};
ghost use Rattle.audit_views.specs.Views.{IsFed, Naming, held_of};
ghost use Rattle.audit_recording.specs.Blame.Frames.{Carried, framed_after};
ghost use Rattle.audit_recording.specs.Blame.Kept.{IsPassing, is_about_it};
ghost use Rattle.audit_recording.specs.Session.Texts.{AreTextsBegun, AreTextsKept, IsShort, fraction_text, frame_text, is_wanted, time_text};

use crate::blame::{Passing, about};
use crate::session::plain::put_number;
use audit_flows::lines::{Place, Transfer};
use audit_views::texts::{Comment, TransferText};
use audit_views::views::Fed;
use std::alloc::{AllocError, Global};
use std::collections::BTreeMap;

/// Of which transfers of a recording the texts are wanted.
#[derive(Clone, Copy, Debug, PartialEq, Eq)]
pub enum Wanted {
    /// Of none.
    Nothing,
    /// Of that with this number, from 1.
    One(u64),
    /// Of each.
    All,
}

impl Wanted {
    /// Whether the text of the transfer that was opened as the so manieth is wanted.
    fn has(&self, place: u64) -> bool
        ensures { result ≡ is_wanted self.now place }
    {
        match self {
            Wanted::Nothing => false,
            Wanted::One(number) => *number == place,
            Wanted::All => true,
        }
    }
}

/// The transfers whose texts are wanted.
#[derive(Drop)]
pub struct Kept {
    wanted: Wanted,
    opened: u64,
    texts: BTreeMap<u64, TransferText>,
}

impl Kept {
    /// The texts of these are wanted; nothing was read.
    pub fn new(alloc: Global, wanted: Wanted) -> Self
        ensures texts { (named : List ℕ) → AreTextsKept result named [] }
        ensures wanted { result.wanted ≡ wanted }
    {
        Kept {
            wanted,
            opened: 0,
            texts: BTreeMap::new(alloc),
        }
    }

    /// The texts of the same transfers are wanted of another recording.
    pub(crate) fn anew(self, alloc: Global) -> Self
        ensures texts { (named : List ℕ) → AreTextsKept result named [] }
        ensures wanted { result.wanted ≡ self.wanted }
    {
        Kept::new(alloc, self.wanted)
    }

    /// The text of the transfer of which so many datagrams came before the first, if it is wanted.
    pub fn text(&self, number: u64) -> Option<&TransferText>
        ensures { option_map (λ t. t.now) result ≡ get nat_cmp self.now.texts number }
    {
        self.texts.get(&number)
    }

    /// Keeps a datagram with its frame and time, if it is of such a transfer or passed beside it.
    pub(crate) fn note(
        &mut self,
        alloc: Global,
        fed: &Fed<'_>,
        passing: &Passing<'_>,
    ) -> Result<(), AllocError>
        requires source { IsPort fed.now.source.now.end.port }
        requires target { IsPort fed.now.target.now.end.port }
        requires short { length fed.now.payload.now ≤ 65527 }
        ensures texts { (named : List ℕ) (c : Carried) (carried : List Carried) → IsFed host_name (framed_after named carried c).placed (held_of fed.now)
            → IsPassing passing.now c → AreTextsKept self.old named carried → OnOk result (AreTextsKept self.new named (c ∷ carried)) }
        ensures wanted { self.new.wanted ≡ self.old.wanted }
    {
        self.begin(alloc, fed.place)?;
        match about(fed.place) {
            Some(number) => self.feed(alloc, number, fed, passing),
            None => Ok(()),
        }
    }

    /// Begins the text of a transfer, if a datagram there opens one whose text is wanted.
    fn begin(&mut self, alloc: Global, place: &Place) -> Result<(), AllocError>
        ensures texts { (named : List ℕ) (c : Carried) (carried : List Carried) → place.now ≡ (framed_after named carried c).placed.place
            → IsPort c.datagram.target.port → AreTextsKept self.old named carried → OnOk result (AreTextsBegun self.new named c carried) }
        ensures wanted { self.new.wanted ≡ self.old.wanted }
    {
        match place {
            Place::Opens(transfer) => self.open(alloc, *transfer),
            Place::Repeats(_) => Ok(()),
            Place::Talks(_) => Ok(()),
            Place::Apart(_) => Ok(()),
            Place::Beside(_) => Ok(()),
            Place::Nowhere => Ok(()),
        }
    }

    /// Begins the text of a transfer, if it is wanted.
    fn open(&mut self, alloc: Global, transfer: Transfer) -> Result<(), AllocError>
        ensures texts { (named : List ℕ) (c : Carried) (carried : List Carried) → Opens transfer ≡ (framed_after named carried c).placed.place
            → IsPort c.datagram.target.port → AreTextsKept self.old named carried → OnOk result (AreTextsBegun self.new named c carried) }
        ensures wanted { self.new.wanted ≡ self.old.wanted }
    {
        if self.opened == u64::MAX {
            return Err(AllocError);
        }
        self.opened += 1;
        if !self.wanted.has(self.opened) {
            return Ok(());
        }
        self.keep(alloc, transfer)
    }

    /// Keeps a text of a transfer, before any datagram.
    fn keep(&mut self, alloc: Global, transfer: Transfer) -> Result<(), AllocError>
        ensures kept { transfer.asked.port ≢ 0 → OnOk result ((t : Notes) × (t.transfer ≡ transfer) × ((name : Naming) → AreNotesAfter t name [])
            × ((n : ℕ) → get nat_cmp self.new.texts n ≡ (if is_eq (nat_cmp transfer.number n) then Some t else get nat_cmp self.old.texts n))) }
        ensures rest { self.new ≡ record self.old { texts = self.new.texts } }
    {
        let Some(text) = TransferText::new(alloc, transfer) else {
            return Ok(());
        };
        self.texts.insert(transfer.number, text)?;
        Ok(())
    }

    /// Feeds a datagram to the text of the transfer with this number, if there is one.
    fn feed(
        &mut self,
        alloc: Global,
        number: u64,
        fed: &Fed<'_>,
        passing: &Passing<'_>,
    ) -> Result<(), AllocError>
        requires source { IsPort fed.now.source.now.end.port }
        requires target { IsPort fed.now.target.now.end.port }
        requires short { length fed.now.payload.now ≤ 65527 }
        ensures texts { (named : List ℕ) (c : Carried) (carried : List Carried) → ((n : ℕ) → is_about_it n (framed_after named carried c) ≡ (number == n))
            → IsFed host_name (framed_after named carried c).placed (held_of fed.now) → IsPassing passing.now c
            → AreTextsBegun self.old named c carried → OnOk result (AreTextsKept self.new named (c ∷ carried)) }
        ensures wanted { self.new.wanted ≡ self.old.wanted }
    {
        match self.texts.get_mut(&number) {
            Some(text) => note_in(alloc, text, fed, passing),
            None => Ok(()),
        }
    }
}

/// Notes a datagram in a text, with its frame and time.
fn note_in(
    alloc: Global,
    text: &mut TransferText,
    fed: &Fed<'_>,
    passing: &Passing<'_>,
) -> Result<(), AllocError>
    requires source { IsPort fed.now.source.now.end.port }
    requires target { IsPort fed.now.target.now.end.port }
    requires short { length fed.now.payload.now ≤ 65527 }
    ensures after { (name : Naming) (w : Worded) (older : List Worded) → AreNotesAfter text.old name older → IsFed name w.placed (held_of fed.now)
        → frame_text passing.now.frame passing.now.time ≡ w.words → OnOk result (AreNotesAfter text.new name (w ∷ older)) }
    ensures transfer { text.new.transfer ≡ text.old.transfer }
{
    let comment = comment_of(alloc, passing.frame, passing.time)?;
    text.note(alloc, fed, comment)
}

/// What is said of a datagram: its frame, and its time in seconds since 1970.
fn comment_of(alloc: Global, frame: u64, time: Option<u64>) -> Result<Comment, AllocError>
    ensures { IfOk result (λ comment. comment ≡ frame_text frame time) }
{
    let words = words_of(alloc, frame, time)?;
    Ok(Comment::of(words))
}

/// The words of the comment.
fn words_of(alloc: Global, frame: u64, time: Option<u64>) -> Result<Vec<u8>, AllocError>
    ensures words { IfOk result (λ words. words.items ≡ frame_text frame time) }
    ensures short { IsOk result → IsShort (time_text time) }
{
    let mut words = String::from_str(alloc, "frame ")?;
    put_number(&mut words, frame)?;
    put_time(&mut words, time)?;
    Ok(words.into_bytes())
}

/// Puts a time in seconds since 1970.
fn put_time(words: &mut String, time: Option<u64>) -> Result<(), AllocError>
    ensures short { IsShort (time_text time) }
    ensures text { OnOk result (string_bytes words.new ≡ string_bytes words.old ++ time_text time) }
{
    match time {
        Some(time) => put_seconds(words, time),
        None => Ok(()),
    }
}

/// Puts a time that is told.
fn put_seconds(words: &mut String, time: u64) -> Result<(), AllocError>
    ensures short { IsShort (time_text (Some time)) }
    ensures text { OnOk result (string_bytes words.new ≡ string_bytes words.old ++ time_text (Some time)) }
{
    words.push_str(" time ")?;
    put_number(words, time / 1_000_000_000)?;
    words.push('.')?;
    put_fraction(words, time % 1_000_000_000)
}

/// Puts nanoseconds, in nine digits.
fn put_fraction(words: &mut String, nanoseconds: u64) -> Result<(), AllocError>
    ensures { OnOk result (string_bytes words.new ≡ string_bytes words.old ++ fraction_text nanoseconds) }
{
    let mut buffer = itoa::Buffer::new();
    let digits = buffer.format(nanoseconds);
    for _place in 0..9usize.saturating_sub(digits.len()) {
        words.push('0')?;
    }
    words.push_str(digits)
}
