ghost use Rattle.std.specs.Prelude.{◌≡◌, ℕ, List, MatchOption, option_map};
ghost use Rattle.net_pcap.specs.Options.{first_value, CutTells, OptionParts, SpellsOptions};

use crate::numbers::Order;

/// What bytes that should be options begin with.
#[derive(Clone, Copy, Debug)]
pub enum Cut<'a> {
    /// No further option.
    End,
    /// Neither an option nor the end of options.
    Wrong,
    /// An option.
    Next {
        code: u16,
        value: &'a [u8],
        rest: &'a [u8],
    },
}

/// The first option of some bytes.
fn cut_option(order: Order, bytes: &[u8]) -> Cut<'_>
    ensures { CutTells order bytes.now result }
{
    if bytes.is_empty() {
        return Cut::End;
    }
    if bytes.len() < 4 {
        return Cut::Wrong;
    }
    let code = order.short(bytes, 0);
    if code == 0 {
        return Cut::End;
    }
    let size = order.short(bytes, 2) as usize;
    let padded = (size + 3) / 4 * 4;
    if bytes.len() < 4 + padded {
        return Cut::Wrong;
    }
    Cut::Next {
        code,
        value: &bytes[4..4 + size],
        rest: &bytes[4 + padded..],
    }
}

/// The value of the first option of that code and of so many bytes, if there is one; none at all where the bytes are no
/// options.
pub fn find_option(order: Order, options: &[u8], code: u16, size: usize) -> Option<Option<&[u8]>>
    ensures { MatchOption result ((os : List OptionParts) → SpellsOptions order options.now os → ⊥)
        (λ found. (os : List OptionParts) × SpellsOptions order options.now os × (option_map (λ v. v.now) found ≡ first_value code size os)) }
{
    let mut rest = options;
    let mut found = None;
    'options: loop {
        match cut_option(order, rest) {
            Cut::End => return Some(found),
            Cut::Wrong => return None,
            Cut::Next {
                code: next,
                value,
                rest: after,
            } => {
                if found.is_none() && next == code && value.len() == size {
                    found = Some(value);
                }
                rest = after;
            }
        }
    }
}
