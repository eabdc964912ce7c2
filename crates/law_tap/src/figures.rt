//! What was said of the numbers of blocks and ACKs, whatever frames are missing.

ghost use Rattle.std.specs.Prelude.{◌≡◌, ◌↔◌, ◌≤◌, ℕ, List, [], ◌∷◌, length, None, IsTrue, IfSome, option_and_then};
ghost use Rattle.std.specs.FinMap as map;
ghost use Rattle.tftp_packet.specs.{RequestParts, Message, End, lower, number_in};
ghost use Rattle.law_tap.specs.TapCapture.{TapDatagram, TapSides};
ghost use Rattle.law_tap.specs.LossyRules.{IsSaidBy, NothingExplains};
ghost use Rattle.law_tap.specs.SaidFigures.{AreFigures, FitsAgreed, FitsSize, FitsTotal, FitsUnseen, MayBeUsual, join_lengths};

use std::marker::Model;
use tftp_nego::Agreed;
use tftp_packet::rounds::{Rollover, greatest_block};
use tftp_packet::{Mode, Request, Side, Value};

/// The greatest block, and four figures of the blocks and ACKs between the ends of a transfer, of which any number may be
/// missing, in any order. They decide whether one transfer can have said all of it (RFC 1350, sections 5 and 6).
#[derive(Clone, Copy)]
pub struct Figures {
    /// The greatest block: 65535 (RFC 1350, section 5), and 8388607 where numbers begin again.
    greatest: u32,
    /// The highest number of a block or an ACK, or 0.
    reach: u32,
    /// Whether an ACK 0 was said.
    zero: bool,
    /// How many bytes the blocks below the highest number have, where some were seen.
    below: Option<usize>,
    /// How many bytes the block with the highest number has, where it was seen.
    tail: Option<usize>,
}

impl Model for Figures {
    ghost use Rattle.law_tap.specs.SaidFigures.{Figures};

    ghost Value = { Figures };

    ghost view = { λ f. record { greatest = f.greatest; reach = f.reach; zero = f.zero; below = f.below; tail = f.tail } };

    ghost inverse = { λ v. record { greatest = v.greatest; reach = v.reach; zero = v.zero; below = v.below; tail = v.tail } };
}

impl Figures {
    /// Before anything was said.
    pub fn none(rollover: Option<Rollover>) -> Self
        ensures { (s : TapSides) → rollover ≡ s.rollover → AreFigures result s [] }
    {
        Figures {
            greatest: greatest_block(rollover),
            reach: 0,
            zero: false,
            below: None,
            tail: None,
        }
    }

    /// The figures with an ACK more; none where two blocks below its number have other lengths, so that nothing explains them.
    pub fn with_ack(&self, number: u32) -> Option<Figures>
        ensures some { (s : TapSides) (earlier : List TapDatagram) (d : TapDatagram) (e : End) → AreFigures self.now s earlier
            → IsSaidBy s e (Message.Ack number) d → IfSome result (λ f. AreFigures f s (d ∷ earlier)) }
        ensures none { (s : TapSides) (earlier : List TapDatagram) (d : TapDatagram) (e : End) (asked : RequestParts) → AreFigures self.now s earlier
            → IsSaidBy s e (Message.Ack number) d → result ≡ None → NothingExplains s asked (d ∷ earlier) }
    {
        if number <= self.reach {
            return Some(Figures {
                zero: self.zero || number == 0,
                ..*self
            });
        }
        let below = joined(self.below, self.tail)?;
        Some(Figures {
            greatest: self.greatest,
            reach: number,
            zero: self.zero,
            below,
            tail: None,
        })
    }

    /// The figures with a block more of so many bytes; none where two blocks that have to be of one length are not.
    pub fn with_block(&self, number: u32, long: usize) -> Option<Figures>
        ensures some { (s : TapSides) (earlier : List TapDatagram) (d : TapDatagram) (e : End) (bytes : List ℕ) → AreFigures self.now s earlier
            → IsSaidBy s e (Message.Data number bytes) d → length bytes ≡ long → IfSome result (λ f. AreFigures f s (d ∷ earlier)) }
        ensures none { (s : TapSides) (earlier : List TapDatagram) (d : TapDatagram) (e : End) (bytes : List ℕ) (asked : RequestParts) → AreFigures self.now s earlier
            → IsSaidBy s e (Message.Data number bytes) d → length bytes ≡ long → result ≡ None → NothingExplains s asked (d ∷ earlier) }
    {
        if number < self.reach {
            let below = joined(self.below, Some(long))?;
            return Some(Figures { below, ..*self });
        }
        if number == self.reach {
            let tail = joined(self.tail, Some(long))?;
            return Some(Figures { tail, ..*self });
        }
        let below = joined(self.below, self.tail)?;
        Some(Figures {
            greatest: self.greatest,
            reach: number,
            zero: self.zero,
            below,
            tail: Some(long),
        })
    }

    /// Whether blocks of this size fit, in a file of any size (RFC 1350, section 6; RFC 2348).
    pub fn fits_size(&self, size: usize) -> bool
        ensures { IsTrue result ↔ FitsSize size self.now }
    {
        let whole = match self.below {
            Some(length) => length == size,
            None => true,
        };
        let last = match self.tail {
            Some(length) => length < size || (length == size && self.reach < self.greatest),
            None => true,
        };
        self.reach <= self.greatest && whole && last
    }

    /// Whether blocks of this size fit, in a file of so many bytes (RFC 1350, sections 5 and 6; RFC 2349).
    pub fn fits_total(&self, size: usize, total: u64) -> bool
        requires some { 1 ≤ size }
        ensures { IsTrue result ↔ FitsTotal size total self.now }
    {
        let whole = total / size as u64;
        if whole >= u64::from(self.greatest) || u64::from(self.reach) > whole + 1 {
            return false;
        }
        let below = match self.below {
            Some(length) => length == size,
            None => true,
        };
        let tail = match self.tail {
            Some(length) => {
                if u64::from(self.reach) <= whole {
                    length == size
                } else {
                    length as u64 == total % size as u64
                }
            }
            None => true,
        };
        below && tail
    }

    /// Whether the blocks fit what an OACK agrees to (RFC 2347; RFC 2348; RFC 2349).
    pub fn fits_agreed(&self, asked: &Request, agreed: &Agreed) -> bool
        ensures { IsTrue result ↔ FitsAgreed asked.now agreed.now self.now }
    {
        let size = usize::from(agreed.blksize());
        match (asked.mode(), agreed.tsize()) {
            (Mode::Octet, Some(total)) => self.fits_total(size, total),
            _ => self.fits_size(size),
        }
    }

    /// Whether the blocks fit something that may have been agreed to where no OACK was seen (RFC 1350, section 6; RFC 2348).
    pub fn fits_unseen(&self, asked: &Request) -> bool
        ensures { IsTrue result ↔ FitsUnseen asked.now self.now }
    {
        if self.may_be_usual(asked) && self.fits_size(512) {
            return true;
        }
        match number_asked(asked, b"blksize") {
            Some(most) => self.fits_lowered(most),
            None => false,
        }
    }

    /// Whether blocks of 512 bytes are possible.
    fn may_be_usual(&self, asked: &Request) -> bool
        ensures { IsTrue result ↔ MayBeUsual asked.now self.now }
    {
        asked.side() == Side::Put
            || !self.zero
            || number_asked(asked, b"windowsize").is_some()
            || number_asked(asked, b"timeout").is_some()
            || number_asked(asked, b"tsize").is_some()
    }

    /// Whether a block size from 8 up to this one fits.
    fn fits_lowered(&self, most: u64) -> bool
        ensures { IsTrue result ↔ ((b : ℕ) × (8 ≤ b) × (b ≤ most) × FitsSize b self.now) }
    {
        let size = match self.below {
            Some(length) => length as u64,
            None => most,
        };
        8 <= size && size <= most && self.fits_size(size as usize)
    }
}

/// The number by which an option is asked for (RFC 2347).
fn number_asked(asked: &Request, name: &[u8]) -> Option<u64>
    ensures { result ≡ option_and_then number_in (map.get asked.now.options (lower name.now)) }
{
    match asked.options().get(name) {
        Some(Value::Num(number)) => Some(*number),
        _ => None,
    }
}

/// The one length of blocks that have these two, where they are the same or one is not known.
fn joined(one: Option<usize>, other: Option<usize>) -> Option<Option<usize>>
    ensures { result ≡ join_lengths one other }
{
    let Some(length) = one else {
        return Some(other);
    };
    match other {
        Some(another) if another != length => None,
        _ => Some(one),
    }
}
