ghost use Rattle.std.specs.Prelude.{◌≡◌, ◌<◌, ◌||◌, ◌==◌, ℕ, false, None, Some, is_some, true, IfOk};
ghost use Rattle.tftp_packet.specs.{Rollover as RolloverKind};
ghost use Rattle.tftp_judge.specs.{flags_of};
ghost use Rattle.judge_pair.specs.Blocks.{block_or};
ghost use Rattle.judge_pair.specs.Judge.Flags.{HasRoom, flags_in};

use crate::blocks::block_by;
use std::alloc::{AllocError, Global};
use std::marker::Model;
use tftp_judge::SentAcks;
use tftp_packet::rounds::Rollover;

/// How many words of 64 flags there are, for each block that is near one of 8,388,607 or less.
const WORDS: usize = 131_584;

/// A flag for each block: 1 MiB.
#[derive(Drop)]
pub struct BlockFlags {
    words: Vec<u64>,
}

impl Model for BlockFlags {
    ghost use Rattle.std.specs.Prelude.{◌≡◌, List, ℕ, length};

    ghost Value = { List ℕ };

    ghost view = { λ f. f.words.items };

    ghost invariant = { λ f. length f.words.items ≡ 131584 };
}

impl BlockFlags {
    /// None is set.
    pub fn none(alloc: Global) -> Result<Self, AllocError>
        ensures { IfOk result (λ flags. (j : ℕ) → flags_of flags j ≡ false) }
    {
        let words = Vec::from_elem(alloc, 0u64, WORDS)?;
        Ok(BlockFlags { words })
    }

    /// Sets the flag of this block.
    #[tactic(auto, using(tftp_judge::proofs::Flags::flag_noted))]
    #[inline]
    pub fn note(&mut self, block: u32)
        requires { block < 8421376 }
        ensures { (j : ℕ) → flags_of self.new j ≡ (flags_of self.old j || (j == block)) }
    {
        self.words[(block / 64) as usize] |= 1u64 << (block % 64);
    }

    /// Whether the flag of this block is set. Beyond the words none is.
    #[tactic(auto, using(tftp_judge::proofs::Flags::flag_beyond))]
    #[inline]
    pub fn has(&self, block: u32) -> bool
        ensures { result ≡ flags_of self.now block }
    {
        let word = (block / 64) as usize;
        if word >= self.words.len() {
            return false;
        }
        (self.words[word] >> (block % 64)) & 1 == 1
    }
}

/// Which ACKs an end has sent: of all numbers, or where numbers begin again of all blocks (RFC 1350, section 5).
#[derive(Drop)]
pub struct AckFlags {
    numbers: SentAcks,
    blocks: Option<BlockFlags>,
}

impl Model for AckFlags {
    ghost use Rattle.judge_pair.specs.Judge.Flags.{Acks};

    ghost Value = { Acks };

    ghost view = { λ a. record { numbers = a.numbers; blocks = a.blocks } };
}

impl AckFlags {
    /// Of an end that has sent none, with a flag for each number. Takes no memory.
    pub fn of_numbers() -> Self
        ensures { (j : ℕ) → flags_in result j ≡ false }
    {
        AckFlags {
            numbers: SentAcks::none(),
            blocks: None,
        }
    }

    /// Of an end that has sent none, with a flag for each block.
    pub fn of_blocks(alloc: Global) -> Result<Self, AllocError>
        ensures none { IfOk result (λ acks. (j : ℕ) → flags_in acks j ≡ false) }
        ensures blocks { IfOk result (λ acks. is_some acks.blocks ≡ true) }
    {
        let flags = BlockFlags::none(alloc)?;
        Ok(AckFlags {
            numbers: SentAcks::none(),
            blocks: Some(flags),
        })
    }

    /// Of an end that has sent none, with a flag for each block where numbers begin again. Else it takes no memory.
    pub fn by(alloc: Global, rollover: Option<Rollover>) -> Result<Self, AllocError>
        ensures none { IfOk result (λ acks. (j : ℕ) → flags_in acks j ≡ false) }
        ensures blocks { IfOk result (λ acks. (r : RolloverKind) → rollover ≡ Some r → is_some acks.blocks ≡ true) }
    {
        match rollover {
            Some(_) => AckFlags::of_blocks(alloc),
            None => Ok(AckFlags::of_numbers()),
        }
    }

    /// Notes that an ACK with this number went out, which was read as this block.
    pub fn note(&mut self, number: u16, block: Option<u32>)
        requires { HasRoom self.old block }
        ensures noted { (j : ℕ) → flags_in self.new j ≡ (flags_in self.old j || (j == block_or number block)) }
        ensures blocks { is_some self.new.blocks ≡ is_some self.old.blocks }
    {
        match &mut self.blocks {
            Some(flags) => flags.note(block_by(number, block)),
            None => self.numbers.note(number),
        }
    }

    /// Whether the ACK of this block went out.
    pub fn has(&self, block: u32) -> bool
        ensures { result ≡ flags_in self.now block }
    {
        match &self.blocks {
            Some(flags) => flags.has(block),
            None => self.numbers.has(block),
        }
    }

    /// The flags of all numbers.
    pub fn numbers(&self) -> &SentAcks
        ensures { result.now ≡ self.now.numbers }
    {
        &self.numbers
    }
}
