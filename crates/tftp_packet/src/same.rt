ghost use Rattle.std.specs.Prelude.{◌≡◌, ◌↔◌, IsTrue};
ghost use Rattle.tftp_packet.specs.Written.{map_of, AreOptions};
ghost use Rattle.tftp_packet.specs.Same.{HasPair, HasEach};

use crate::options::OptionsView;
use crate::owned_options::Options;
use crate::value::is_value_of;

/// Whether owned options and options that lie in a payload say the same.
pub fn same_options(options: &Options, view: &OptionsView<'_>) -> bool
    ensures { IsTrue result ↔ (options.now ≡ map_of view.now) }
{
    options.len() == view.len() && has_each(options, view)
}

/// Whether each option of a view is among owned ones.
fn has_each(options: &Options, view: &OptionsView<'_>) -> bool
    ensures each { IsTrue result ↔ HasEach options.now view.now }
    ensures options { AreOptions view.now }
{
    let mut pairs = view.pairs();
    while let Some((name, text)) = pairs.next() {
        if !has_pair(options, name, text) {
            return false;
        }
    }
    true
}

/// Whether an option is among owned ones, with its value.
fn has_pair(options: &Options, name: &[u8], text: &[u8]) -> bool
    ensures { IsTrue result ↔ HasPair options.now (name.now, text.now) }
{
    match options.get(name) {
        Some(value) => is_value_of(value, name, text),
        None => false,
    }
}
