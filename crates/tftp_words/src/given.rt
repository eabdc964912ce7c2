ghost use Rattle.std.specs.Prelude.{◌≡◌, ◌≢◌, ◌↔◌, ◌++◌, ◌∷◌, [], ◌⊎◌, Err, IfOk, IsTrue, None, OnOk, IsOkAnd, false, map, option_map, slice_get};
ghost use Rattle.tftp_words.specs.Parts.{Choose, Holds, IsOnce, Plain, Say};
ghost use Rattle.tftp_words.specs.Parts.{part as part_said};
ghost use Rattle.tftp_words.specs.declared.given.ReadFault.TheVariants.{Memory};

use crate::part::{Part, first_part};
use crate::point::Point;
use std::alloc::{AllocError, AllocFailed, Global};
use std::convert::AsStr;
use tftp_packet::rounds::Rollover;

/// What the parts of the words give.
#[derive(Drop)]
pub struct Given<'a> {
    /// The ports to which requests go, in the order of the words.
    pub services: Vec<u16>,
    /// Whether the answer is wanted in JSON.
    pub json: bool,
    /// Where the recording was made, if that is said.
    pub end: Option<Point>,
    /// What comes after block 65535, if that is said.
    pub rollover: Option<Rollover>,
    /// Whether it is wanted how often each packet was sent and taken.
    pub counts: bool,
    /// The number of a transfer, if that is said.
    pub transfer: Option<u64>,
    /// The number of the transfer at the server, if that is said.
    pub server_transfer: Option<u64>,
    /// The words that are no options, in their order.
    pub plain: Vec<&'a str>,
}

/// Why words are not read.
#[derive(Clone, Copy)]
pub enum ReadFault {
    /// They say nothing that the program can be asked for.
    Unknown,
    /// They say what comes after block 65535, and no point at which numbers are judged so.
    NoEnd,
    /// They name standard input for each of two captures.
    TwoInputs,
    /// Memory was refused.
    Memory,
}

impl From<AllocError> for ReadFault {
    ghost from_gives = { λ _ fault. fault ≡ Memory };

    fn from(_error: AllocError) -> ReadFault {
        ReadFault::Memory
    }
}

impl<T: Drop> From<AllocFailed<T>> for ReadFault {
    ghost from_gives = { λ _ fault. fault ≡ Memory };

    fn from(_error: AllocFailed<T>) -> ReadFault {
        ReadFault::Memory
    }
}

impl<'a> Given<'a> {
    fn new(alloc: Global) -> Given<'a>
        ensures { Holds result [] }
    {
        Given {
            services: Vec::new(alloc),
            json: false,
            end: None,
            rollover: None,
            counts: false,
            transfer: None,
            server_transfer: None,
            plain: Vec::new(alloc),
        }
    }

    /// Adds a part; each but a port and a plain word is said once at most.
    fn add(&mut self, part: Part<'a>) -> Result<(), ReadFault>
        ensures ok { (ps : _) → Holds self.old ps → OnOk result (Holds self.new (ps ++ part_said part.entry ∷ [])) }
        ensures once { (ps qs : _) → Holds self.old ps → result ≡ Err ReadFault.Unknown → IsOnce (ps ++ part_said part.entry ∷ qs) → ⊥ }
        ensures known { result ≢ Err ReadFault.NoEnd }
        ensures alone { result ≢ Err ReadFault.TwoInputs }
    {
        match part {
            Part::Service(port) => self.services.push(port)?,
            Part::Json if self.json => return Err(ReadFault::Unknown),
            Part::Json => self.json = true,
            Part::End(_) if self.end.is_some() => return Err(ReadFault::Unknown),
            Part::End(point) => self.end = Some(point),
            Part::Rollover(_) if self.rollover.is_some() => return Err(ReadFault::Unknown),
            Part::Rollover(rollover) => self.rollover = Some(rollover),
            Part::Counts if self.counts => return Err(ReadFault::Unknown),
            Part::Counts => self.counts = true,
            Part::Transfer(_) if self.transfer.is_some() => return Err(ReadFault::Unknown),
            Part::Transfer(number) => self.transfer = Some(number),
            Part::ServerTransfer(_) if self.server_transfer.is_some() => {
                return Err(ReadFault::Unknown);
            }
            Part::ServerTransfer(number) => self.server_transfer = Some(number),
            Part::Plain(word) => self.plain.push(word)?,
        }
        Ok(())
    }

    /// Adds words that are no options.
    fn add_plain<S: AsStr>(&mut self, words: &'a [S]) -> Result<(), AllocError>
        ensures { (ps : _) → Holds self.old ps → OnOk result (Holds self.new (ps ++ map Plain (map S.text words.entry.now))) }
    {
        for word in words {
            self.plain.push(word.as_str())?;
        }
        Ok(())
    }

    /// Whether nothing is said that `tftp-match` alone can be asked for.
    pub fn chooses_nothing(&self) -> bool
        ensures { (ps : _) → Holds self.now ps → IsTrue result ↔ Choose ps false None None }
    {
        !self.counts && self.transfer.is_none() && self.server_transfer.is_none()
    }
}

/// The word at a place, where there is one.
pub fn word_at<S: AsStr>(words: &[S], at: usize) -> Option<&str>
    ensures { option_map (λ s. s.now) result ≡ slice_get (map S.text words.entry.now) at }
{
    match words.get(at) {
        Some(word) => Some(word.as_str()),
        None => None,
    }
}

/// What the words give, part after part.
pub fn given_of<'a, S: AsStr>(alloc: Global, words: &'a [S]) -> Result<Given<'a>, ReadFault>
    ensures ok { IfOk result (λ given. (ps : _) × Say (map S.text words.entry.now) ps × Holds given ps) }
    ensures only { (ps : _) → Say (map S.text words.entry.now) ps → IsOnce ps → IsOkAnd result (λ given. Holds given ps) ⊎ (result ≡ Err Memory) }
{
    let mut given = Given::new(alloc);
    let mut rest = words;
    while let Some(word) = word_at(rest, 0) {
        if word == "--" {
            given.add_plain(rest.split_at(1).1)?;
            return Ok(given);
        }
        let Some((part, count)) = first_part(word, word_at(rest, 1)) else {
            return Err(ReadFault::Unknown);
        };
        given.add(part)?;
        rest = rest.split_at(count).1;
    }
    Ok(given)
}
