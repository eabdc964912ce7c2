ghost use Rattle.std.specs.Prelude.{◌≡◌, ◌∷◌, [], None, IfOk, OnOk, option_map};
ghost use Rattle.std.specs.Ordering.{nat_cmp};
ghost use Rattle.std.specs.Cmp.Lexicographic.{slice_cmp};
ghost use Rattle.std.specs.FinMap.{find};
ghost use Rattle.std.specs.FinMap.Entries.{put};
ghost use Rattle.tftp_packet.specs.Written.{map_of};
ghost use Rattle.tftp_packet.specs.OptionMaps.{lower};
ghost use Rattle.tftp_packet.specs.Owned.{shown, shown_entries, place, AreInOrder};

use crate::byte_list::Bytes;
use crate::name_order::compare_names;
use crate::options::OptionsView;
use crate::value::{Value, read_value};
use std::alloc::{AllocError, Global};
use std::cmp::Ordering;
use std::marker::Model;

/// An option: its name in lower case, and its value.
#[derive(Debug, Drop)]
pub struct Entry {
    pub(crate) name: Bytes,
    pub(crate) value: Value,
}

impl Entry {
    ghost use Rattle.std.specs.Prelude.{◌≡◌, IfOk};
    ghost use Rattle.std.specs.Ordering.{nat_cmp};
    ghost use Rattle.std.specs.Cmp.Lexicographic.{slice_cmp};
    ghost use Rattle.tftp_packet.specs.OptionMaps.{lower, value_of};
    ghost use Rattle.tftp_packet.specs.Owned.{shown_entry};

    /// The option that a name and a text are.
    fn own(alloc: Global, name: &[u8], text: &[u8]) -> Result<Self, AllocError>
        ensures { IfOk result (λ entry. shown_entry entry ≡ (lower name.now, value_of (lower name.now) text.now)) }
    {
        let mut lower = Vec::from_slice(alloc, name)?;
        lower.as_mut_slice().make_ascii_lowercase();
        let value = read_value(alloc, name, text)?;
        Ok(Entry {
            name: Bytes::of(lower),
            value,
        })
    }

    /// The order of the option's name and this one, letter case ignored.
    fn compare(&self, name: &[u8]) -> Ordering
        ensures { result ≡ slice_cmp nat_cmp (lower self.now.name) (lower name.now) }
    {
        compare_names(self.name.as_slice(), name)
    }
}

/// Options by the names in lower case, each name once (RFC 2347). They say what an `OptionsView` says, apart
/// from the order and the letter case of the names.
#[derive(Debug, Drop)]
pub struct Options {
    entries: Vec<Entry>,
}

impl Model for Options {
    ghost use Rattle.std.specs.FinMap as map;
    ghost use Rattle.tftp_packet.specs.OptionMaps.{OptionMap};
    ghost use Rattle.tftp_packet.specs.Owned.{options_code};

    ghost Value = { OptionMap };

    ghost coded = { options_code };

    ghost use Rattle.tftp_packet.specs.Owned.{shown_entries, AreInOrder};

    ghost view = { λ options. map.from_sorted (shown_entries options.entries.items) };

    ghost invariant = { λ options. AreInOrder (shown_entries options.entries.items) };
}

impl Options {
    ghost use Rattle.std.specs.Prelude.{◌≡◌, ◌↔◌, IsTrue, option_map};
    ghost use Rattle.std.specs.FinMap as map;
    ghost use Rattle.tftp_packet.specs.OptionMaps.{no_options, lower};
    ghost use Rattle.tftp_packet.specs.Owned.{shown, shown_entries};

    /// No option. Takes no memory.
    #[tactic(auto, using(crate::proofs::OwnedMaps::no_entries))]
    pub fn none(alloc: Global) -> Self
        ensures { result ≡ no_options }
    {
        Options {
            entries: Vec::new(alloc),
        }
    }

    /// How many options there are.
    #[tactic(auto, using(crate::proofs::OwnedMaps::shown_len))]
    pub fn len(&self) -> usize
        ensures { result ≡ map.len self.now }
    {
        self.entries.as_slice().len()
    }

    /// Whether there is no option.
    #[tactic(auto, using(crate::proofs::OwnedMaps::shown_len))]
    pub fn is_empty(&self) -> bool
        ensures { IsTrue result ↔ (map.len self.now ≡ 0) }
    {
        self.entries.as_slice().is_empty()
    }

    /// The value of an option. Letter case of the name counts for nothing.
    pub fn get(&self, name: &[u8]) -> Option<&Value>
        ensures { option_map (λ v. shown v.now) result ≡ map.get self.now (lower name.now) }
    {
        find_value(self.entries.as_slice(), name)
    }

    /// The options in the order of their names.
    #[tactic(auto, using(crate::proofs::OwnedMaps::shown_all))]
    pub(crate) fn entries(&self) -> &[Entry]
        ensures { shown_entries result.now ≡ map.entries self.now }
    {
        self.entries.as_slice()
    }
}

/// The meaning of options that lie in a payload.
pub fn own_options(alloc: Global, view: &OptionsView<'_>) -> Result<Options, AllocError>
    ensures { IfOk result (λ options. options ≡ map_of view.now) }
{
    let mut entries = Vec::new(alloc);
    let mut pairs = view.pairs();
    while let Some((name, text)) = pairs.next() {
        let entry = Entry::own(alloc, name, text)?;
        insert_entry(&mut entries, entry)?;
    }
    Ok(Options { entries })
}

/// Puts an option whose name is new into its place.
fn insert_entry(entries: &mut Vec<Entry>, entry: Entry) -> Result<(), AllocError>
    requires { find (slice_cmp nat_cmp) entry.name (shown_entries entries.old.items) ≡ None }
    ensures { OnOk result (shown_entries entries.new.items ≡ put (slice_cmp nat_cmp) entry.name (shown entry.value) (shown_entries entries.old.items)) }
{
    let at = place_of(entries.as_slice(), entry.name.as_slice());
    entries.insert(at, entry)?;
    Ok(())
}

/// The value of a name among options in the order of their names. Letter case of the name counts for nothing.
fn find_value<'a>(entries: &'a [Entry], name: &[u8]) -> Option<&'a Value>
    requires { AreInOrder (shown_entries entries.now) }
    ensures { option_map (λ v. shown v.now) result ≡ find (slice_cmp nat_cmp) (lower name.now) (shown_entries entries.now) }
{
    match entries.binary_search_by(|entry| entry.compare(name)) {
        Ok(at) => Some(&entries[at].value),
        Err(_) => None,
    }
}

/// How many options have names before this one.
fn place_of(entries: &[Entry], name: &[u8]) -> usize
    ensures { result ≡ place name.now (shown_entries entries.now) }
{
    let mut at = 0;
    for entry in entries {
        if !entry.name.as_slice().cmp(name).is_lt() {
            return at;
        }
        at += 1;
    }
    at
}
