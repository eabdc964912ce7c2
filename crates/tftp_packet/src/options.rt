ghost use Rattle.std.specs.Prelude.{◌≡◌};

use crate::fault::PacketFault;
use crate::option_check::{has_empty_name, has_repeat, string_count};
use crate::text::{is_ended, split_pair};
use crate::value::number_of;
use std::marker::Model;

/// The options of a request or of an OACK, as they lie in the payload (RFC 2347). Only `read_packet` makes one.
#[derive(Debug, Drop)]
pub struct OptionsView<'a> {
    bytes: &'a [u8],
}

impl<'a> Model for OptionsView<'a> {
    ghost use Rattle.std.specs.Prelude.{List};
    ghost use Rattle.tftp_packet.specs.Written.{Pair, pairs_of};
    ghost use Rattle.tftp_packet.specs.OptionFaults.{HoldsOptions};

    ghost Value = { List Pair };

    ghost view = { λ options. pairs_of options.bytes.now };

    ghost invariant = { λ options. HoldsOptions options.bytes.now (pairs_of options.bytes.now) };
}

impl<'a> OptionsView<'a> {
    ghost use Rattle.std.specs.Prelude.{◌≡◌, ◌↔◌, [], length, IsTrue, IfOk, IfErr, option_map, option_and_then};
    ghost use Rattle.std.specs.FinMap as map;
    ghost use Rattle.tftp_packet.specs.OptionMaps.{lower, number_in};
    ghost use Rattle.tftp_packet.specs.Written.{AreOptions, map_of, text_of};
    ghost use Rattle.tftp_packet.specs.OptionFaults.{HoldsOptions, OptionFault};

    /// The options that bytes hold.
    pub(crate) fn read(bytes: &'a [u8]) -> Result<Self, PacketFault>
        ensures ok { IfOk result (HoldsOptions bytes.now) }
        ensures err { IfErr result (OptionFault bytes.now) }
    {
        if !is_ended(bytes) {
            return Err(PacketFault::NoTerminator);
        }
        let strings = string_count(bytes);
        if strings % 2 == 1 {
            return Err(PacketFault::OddOptions);
        }
        if has_empty_name(bytes) {
            return Err(PacketFault::EmptyOptionName);
        }
        if has_repeat(bytes, strings) {
            return Err(PacketFault::DuplicateOption);
        }
        Ok(OptionsView { bytes })
    }

    /// The same options again, which still borrow the payload.
    pub(crate) fn again(&self) -> Self
        ensures { result ≡ self.now }
    {
        OptionsView { bytes: self.bytes }
    }

    /// How many options there are.
    pub fn len(&self) -> usize
        ensures count { result ≡ length self.now }
        ensures map { result ≡ map.len (map_of self.now) }
    {
        string_count(self.bytes) / 2
    }

    /// Whether there is no option.
    pub fn is_empty(&self) -> bool
        ensures { IsTrue result ↔ (self.now ≡ []) }
    {
        self.bytes.is_empty()
    }

    /// The options in order, each with its name and its value as they lie in the payload.
    pub fn pairs(&self) -> Pairs<'a>
        ensures all { result ≡ self.now }
        ensures options { AreOptions result }
    {
        Pairs { rest: self.bytes }
    }

    /// The value of an option as it lies in the payload. Letter case of the name counts for nothing.
    pub fn get(&self, name: &[u8]) -> Option<&'a [u8]>
        ensures { option_map (λ text. text.now) result ≡ text_of self.now (lower name.now) }
    {
        let mut rest = self.bytes;
        while let Some((other, text, after)) = split_pair(rest) {
            if other.eq_ignore_ascii_case(name) {
                return Some(text);
            }
            rest = after;
        }
        None
    }

    /// The number of a known option whose value is one in its range (RFC 2348, RFC 2349, RFC 7440).
    pub fn number(&self, name: &[u8]) -> Option<u64>
        ensures { result ≡ option_and_then number_in (map.get (map_of self.now) (lower name.now)) }
    {
        number_of(name, self.get(name)?)
    }
}

/// The options of a view, one after another.
#[derive(Debug, Drop)]
pub struct Pairs<'a> {
    rest: &'a [u8],
}

impl<'a> Model for Pairs<'a> {
    ghost use Rattle.std.specs.Prelude.{List};
    ghost use Rattle.tftp_packet.specs.Written.{Pair, pairs_of};

    ghost Value = { List Pair };

    ghost view = { λ pairs. pairs_of pairs.rest.now };
}

impl<'a> Iterator for Pairs<'a> {
    ghost use Rattle.std.specs.Iterator.{YieldsFirstBy, item_count};

    type Item = (&'a [u8], &'a [u8]);

    ghost next_gives = { YieldsFirstBy (λ x. (x.0.now, x.1.now)) (λ s. s) };

    ghost remaining = { item_count (λ s. s) };

    fn next(&mut self) -> Option<Self::Item> {
        let (name, text, after) = split_pair(self.rest)?;
        self.rest = after;
        Some((name, text))
    }
}
