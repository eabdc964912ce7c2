ghost use Rattle.std.specs.Prelude.{◌≡◌, ◌≢◌, ◌+◌, ◌<◌, ◌≤◌, ◌⊎◌, ◌^◌, ℕ, List, [], length, vec_len, vec_capacity, true, false, None, Some, Ok, Err, IfErr, IfOk, IfSome};
ghost use Rattle.std.specs.Io.KnownBytes.{prepend_known, Consumes, IsAtEnd};
ghost use Rattle.net_pcap.specs.declared.layout.Interface.{Interface};
ghost use Rattle.net_pcap.specs.declared.found.Found.{Found};
ghost use Rattle.net_pcap.specs.Pieces.{LiesWithin, lost_of, may_lose, next_mode, said_of, start};
ghost use Rattle.net_pcap.specs.Stopping.{StepEnds, WantsMemory};

use crate::fault::FaultKind;
use crate::found::Found;
use crate::layout::{Layout, NamedInterface};
use crate::losses::{miss, report};
use crate::read::{read_front, read_rest};
use net_streams::streams::{Latched, ReadBuffer};
use std::alloc::{AllocError, Global};
use std::io::Read;
use std::marker::Model;

/// The most records and blocks of a recording.
const MOST_PIECES: u64 = 1 << 40;

/// The pieces of a recording, one after another: at most 65,536 bytes are read ahead.
#[derive(Drop)]
pub struct Pieces {
    ahead: ReadBuffer,
    layout: Layout,
    sections: u64,
    before: u64,
    lost: u64,
    interfaces: Vec<NamedInterface>,
    count: u64,
}

impl Model for Pieces {
    ghost use Rattle.std.specs.Prelude.{◌≡◌, ◌+◌, ◌≤◌, ◌^◌, vec_capacity};
    ghost use Rattle.net_pcap.specs.Blocks.{capped};
    ghost use Rattle.net_pcap.specs.Losses.{lost_in};
    ghost use Rattle.net_pcap.specs.Stopping.{PiecesState};

    ghost Value = { PiecesState };

    ghost view = { λ p. record { ahead = p.ahead.bytes; mode = record { layout = p.layout; sections = p.sections; before = p.before; interfaces = p.interfaces.items }; count = p.count; room = vec_capacity p.interfaces } };

    ghost invariant = { λ p. (p.count ≤ 2 ^ 40) × (p.sections ≤ p.count) × (p.lost ≡ capped (p.before + lost_in p.interfaces.items)) };
}

impl Pieces {
    /// Nothing was read yet.
    pub fn new(alloc: Global) -> Result<Self, AllocError>
        ensures ahead { IfOk result (λ pieces. pieces.ahead ≡ []) }
        ensures mode { IfOk result (λ pieces. pieces.mode ≡ start) }
        ensures count { IfOk result (λ pieces. pieces.count ≡ 0) }
    {
        let ahead = ReadBuffer::new(alloc)?;
        Ok(Pieces {
            ahead,
            layout: Layout::Unopened,
            sections: 0,
            before: 0,
            lost: 0,
            interfaces: Vec::new(alloc),
            count: 0,
        })
    }

    /// How many packets were lost up to here, as the recording says.
    #[inline]
    pub fn lost(&self) -> u64
        ensures { result ≡ lost_of self.now.mode }
    {
        self.lost
    }

    /// Whether the recording may say, here or later on, that packets were lost: a classic one never does.
    #[inline]
    pub fn may_lose(&self) -> bool
        ensures { result ≡ may_lose self.now.mode.layout }
    {
        !matches!(self.layout, Layout::Classic(_))
    }

    /// Takes what a piece says; false where there is no memory for a further interface.
    fn take(&mut self, found: Found) -> bool
        requires { self.old.count < 2 ^ 40 }
        ensures taken { result ≡ true → (piece : List ℕ) → self.new.mode ≡ next_mode self.old.mode (said_of found piece) }
        ensures count { result ≡ true → self.new.count ≡ self.old.count + 1 }
        ensures ahead { self.new.ahead ≡ self.old.ahead }
        ensures full { result ≡ false → self.old.room ≤ length self.old.mode.interfaces }
        ensures places { self.old.room ≤ self.new.room }
        ensures stays { self.old.count ≤ self.new.count }
        ensures few { self.new.count ≤ 2 ^ 40 }
        ensures named { result ≡ false → (interface : Interface) × (found ≡ Found.Names interface) }
        ensures kept { result ≡ false → self.new.mode ≡ self.old.mode }
    {
        match found {
            Found::Opens(layout) => {
                self.layout = layout;
                self.sections += 1;
                self.before = self.lost;
                self.interfaces.clear();
            }
            Found::Names(interface) => {
                let named = NamedInterface {
                    described: interface,
                    section: self.sections,
                    number: self.interfaces.len() as u64,
                    reported: 0,
                    missed: 0,
                };
                if self.interfaces.push(named).is_err() {
                    return false;
                }
            }
            Found::Gives(place) => {
                let more = miss(&mut self.interfaces, place.interface, place.missed);
                self.lost = self.lost.saturating_add(more);
            }
            Found::Counts(dropped) => {
                let more = report(&mut self.interfaces, dropped.interface, dropped.count);
                self.lost = self.lost.saturating_add(more);
            }
            Found::Skips => {}
        }
        self.count += 1;
        true
    }

    /// Reads one piece more, and says what it says; none where the recording ends before it.
    pub fn step<R: Read>(
        &mut self,
        reader: &mut Latched<R>,
        piece: &mut Vec<u8>,
    ) -> Result<Option<Found>, FaultKind>
        ensures ends { (taken : List ℕ) × Consumes (prepend_known self.old.ahead (R.remaining reader.old.0)) (prepend_known self.new.ahead (R.remaining reader.new.0)) taken
            × StepEnds self.old self.new result piece.new.items taken }
        ensures within { IfOk result (λ answer. IfSome answer (λ found. LiesWithin found piece.new.items)) }
        ensures end { (result ≡ Ok None) ⊎ (result ≡ Err FaultKind.Truncated) → IsAtEnd (prepend_known self.new.ahead (R.remaining reader.new.0)) }
        ensures read { result ≡ Err FaultKind.Read → reader.new.1 ≡ true }
        ensures drained { result ≡ Err FaultKind.Read → self.new.ahead ≡ [] }
        ensures tally { result ≢ Err FaultKind.Read → reader.new.1 ≡ reader.old.1 }
        ensures short { result ≡ Err FaultKind.NotARecording → IsAtEnd (prepend_known self.new.ahead (R.remaining reader.new.0)) ⊎ (12 ≤ length piece.new.items) }
        ensures stays { self.old.count ≤ self.new.count }
        ensures few { self.new.count ≤ 2 ^ 40 }
        ensures memory { result ≡ Err FaultKind.Memory → WantsMemory (vec_capacity piece.old) self.old.room self.old.mode piece.new.items }
        ensures roomy { vec_capacity piece.old ≤ vec_capacity piece.new }
        ensures places { self.old.room ≤ self.new.room }
        ensures kept { IfErr result (λ _. self.new.mode ≡ self.old.mode) }
    {
        if self.count == MOST_PIECES {
            return Err(FaultKind::TooMany);
        }
        let size = match read_front(self.layout, &mut self.ahead, reader, piece) {
            Ok(Some(size)) => size,
            Ok(None) => return Ok(None),
            Err(kind) => return Err(kind),
        };
        let found = match read_rest(
            self.layout,
            &self.interfaces,
            &mut self.ahead,
            reader,
            piece,
            size,
        ) {
            Ok(found) => found,
            Err(kind) => return Err(kind),
        };
        if !self.take(found) {
            return Err(FaultKind::Memory);
        }
        Ok(Some(found))
    }
}
