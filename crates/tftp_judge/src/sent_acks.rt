ghost use Rattle.std.specs.Prelude.{◌≡◌, ◌||◌, ◌==◌, ℕ, false};
ghost use Rattle.tftp_judge.specs.SentByKept.{flags_of};

use std::marker::Model;

/// Which ACKs an end has sent, of all block numbers (RFC 1350, section 5): 8 KiB of flags. A judge keeps the highest alone.
#[derive(Drop)]
pub struct SentAcks {
    words: [u64; 1024],
}

impl Model for SentAcks {
    ghost use Rattle.std.specs.Prelude.{ℕ, List};

    ghost Value = { List ℕ };

    ghost view = { λ a. a.words };
}

impl SentAcks {
    /// Of an end that has sent none. Takes no memory.
    pub fn none() -> Self
        ensures { (j : ℕ) → flags_of result j ≡ false }
    {
        SentAcks { words: [0; 1024] }
    }

    /// Notes that the ACK of this block went out.
    #[tactic(auto, using(crate::proofs::Flags::flag_noted))]
    #[inline]
    pub fn note(&mut self, block: u16)
        ensures { (j : ℕ) → flags_of self.new j ≡ (flags_of self.old j || (j == block)) }
    {
        self.words[usize::from(block / 64)] |= 1u64 << (block % 64);
    }

    /// Whether the ACK of this block went out. None above 65535 did.
    #[inline]
    pub fn has(&self, block: u32) -> bool
        ensures { result ≡ flags_of self.now block }
    {
        has_flag(&self.words, block)
    }
}

/// Whether the flag of this block is set. Beyond the words none is.
#[tactic(auto, using(crate::proofs::Flags::flag_beyond))]
#[inline]
fn has_flag(words: &[u64], block: u32) -> bool
    ensures { result ≡ flags_of words.now block }
{
    let word = (block / 64) as usize;
    if word >= words.len() {
        return false;
    }
    (words[word] >> (block % 64)) & 1 == 1
}
