use std::alloc::Global;
use std::marker::Model;
use tftp_packet::{Options, Value};

/// The options that both ends have agreed on, perhaps none (RFC 2347). Only `agree` and `nothing_agreed` make one.
#[derive(Debug, Drop)]
pub struct Agreed {
    options: Options,
}

impl Model for Agreed {
    ghost use Rattle.tftp_packet.specs.OptionMaps.{OptionMap};
    ghost use Rattle.tftp_packet.specs.Owned.{options_code};
    ghost use Rattle.tftp_nego.specs.Agreed.{AreInRange};

    ghost Value = { OptionMap };

    ghost coded = { options_code };

    ghost view = { λ agreed. agreed.options };

    ghost invariant = { λ agreed. AreInRange agreed.options };
}

impl Agreed {
    ghost use Rattle.std.specs.Prelude.{◌≡◌, ◌↔◌, ◌≤◌, IsTrue, codes, option_and_then};
    ghost use Rattle.std.specs.FinMap as map;
    ghost use Rattle.tftp_packet.specs.OptionMaps.{no_options, number_in};
    ghost use Rattle.tftp_nego.specs.Agreed.{AreInRange};
    ghost use Rattle.tftp_nego.specs.Numbers.{option_or};

    /// Options whose numbers are in range.
    pub(crate) fn of(options: Options) -> Self
        requires { AreInRange options }
        ensures { result ≡ options }
    {
        Agreed { options }
    }

    /// How many bytes a block has that is not the last: 8 to 65464, and 512 where nothing else is agreed
    /// (RFC 1350, section 2; RFC 2348).
    pub fn blksize(&self) -> u16
        ensures value { result ≡ option_or 512 self.now (codes "blksize") }
        ensures sized { (8 ≤ result) × (result ≤ 65464) }
    {
        match self.options.get(b"blksize") {
            Some(Value::Num(size)) => *size as u16,
            _ => 512,
        }
    }

    /// How many blocks may be sent after an acknowledged one: 1 to 65535, and 1 where nothing else is agreed
    /// (RFC 1350, section 2; RFC 7440, section 3).
    pub fn windowsize(&self) -> u16
        ensures value { result ≡ option_or 1 self.now (codes "windowsize") }
        ensures sized { 1 ≤ result }
    {
        match self.options.get(b"windowsize") {
            Some(Value::Num(size)) => *size as u16,
            _ => 1,
        }
    }

    /// After how many seconds an end sends again: 1 to 255, where it is agreed (RFC 2349).
    pub fn timeout(&self) -> Option<u8>
        ensures { result ≡ option_and_then number_in (map.get self.now (codes "timeout")) }
    {
        match self.options.get(b"timeout") {
            Some(Value::Num(seconds)) => Some(*seconds as u8),
            _ => None,
        }
    }

    /// How many bytes the file has, where it is agreed (RFC 2349).
    pub fn tsize(&self) -> Option<u64>
        ensures { result ≡ option_and_then number_in (map.get self.now (codes "tsize")) }
    {
        match self.options.get(b"tsize") {
            Some(Value::Num(size)) => Some(*size),
            _ => None,
        }
    }

    /// Whether nothing is agreed.
    pub fn is_empty(&self) -> bool
        ensures { IsTrue result ↔ (self.now ≡ no_options) }
    {
        self.options.is_empty()
    }

    /// The agreed options by their names.
    #[inline]
    pub fn options(&self) -> &Options
        ensures { result.now ≡ self.now }
    {
        &self.options
    }

    /// The agreed options by their names. Takes no memory.
    pub fn into_options(self) -> Options
        ensures { result ≡ self }
    {
        let Agreed { options } = self;
        options
    }
}

ghost use Rattle.std.specs.Prelude.{◌≡◌};
ghost use Rattle.tftp_packet.specs.{no_options};

/// The agreement of a transfer without an OACK. Takes no memory.
#[tactic(auto, using(crate::proofs::Numbers::empty_in_range))]
pub fn nothing_agreed(alloc: Global) -> Agreed
    ensures { result ≡ no_options }
{
    Agreed::of(Options::none(alloc))
}
