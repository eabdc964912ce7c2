ghost use Rattle.std.specs.Prelude.{◌≡◌, ◌↔◌, IsTrue, codes, map};
ghost use Rattle.tftp_commands.specs.Losses.{AsksForLosses};

use std::convert::AsStr;

/// Whether the words, the first of which is the program's name, are those of `check --losses`.
pub fn asks_for_losses<S: AsStr>(words: &[S]) -> bool
    ensures { IsTrue result ↔ AsksForLosses (map S.text words.now) }
{
    if words.len() == 3 {
        return are_asked(words[1].as_str(), words[2].as_str());
    }
    false
}

/// Whether a command and its option are these.
fn are_asked(command: &str, option: &str) -> bool
    ensures { IsTrue result ↔ ((command.now ≡ codes "check") × (option.now ≡ codes "--losses")) }
{
    command == "check" && option == "--losses"
}
