//! Worked cases of the law at a tap, proved from its definitions. Each is the contract of a function that does nothing.

ghost use Rattle.std.specs.Prelude.{◌≡◌};
ghost use Rattle.tftp_packet.specs.{Client, Server};
ghost use Rattle.law_model.specs.Model.{IsView, two_bytes, ten_bytes, window_repeated};
ghost use Rattle.law_tap.specs.Tap.{IsTapView, as_at};
ghost use Rattle.law_tap.specs.TapDress.{ShowsBetween, IsLawfulBetween};
ghost use Rattle.law_tap.specs.TapRules.{BreaksNoTapRule};
ghost use Rattle.law_tap.specs.WorkedTap.{
  worked_sides,
  read_between,
  block_passes_late,
  both_pass_late,
  block_passes_early,
  ack_of_nothing,
};

/// Five datagrams that passed show a read of a file of two bytes: one of them is a stray, and one answers it. They break no
/// rule.
pub fn read_between_is_shown()
    ensures shown { ShowsBetween worked_sides two_bytes two_bytes.file read_between }
    ensures rules { BreaksNoTapRule worked_sides read_between }
{}

/// In a read in lock step a block passes again after the next one. The server did not go back, as it would have if this had
/// been recorded at it: a network kept the block.
pub fn late_block_is_lawful_at_a_tap()
    ensures tap { IsTapView ten_bytes ten_bytes.file block_passes_late }
    ensures server { IsView ten_bytes ten_bytes.file Server (as_at Server block_passes_late) → ⊥ }
{}

/// In that read the request passes again too, after the client has acknowledged a block. Both ends refuse that, the client for
/// a request after the start and the server for going back, and neither of them has done it: a network kept both.
pub fn exchange_that_both_ends_refuse_is_lawful_at_a_tap()
    ensures tap { IsTapView ten_bytes ten_bytes.file both_pass_late }
    ensures client { IsView ten_bytes ten_bytes.file Client (as_at Client both_pass_late) → ⊥ }
    ensures server { IsView ten_bytes ten_bytes.file Server (as_at Server both_pass_late) → ⊥ }
{}

/// In a write in a window a block passes before the one before it. The client left none out, as it would have if this had
/// been recorded at it.
pub fn early_block_is_lawful_at_a_tap()
    ensures tap { IsTapView window_repeated window_repeated.file block_passes_early }
    ensures client { IsView window_repeated window_repeated.file Client (as_at Client block_passes_early) → ⊥ }
{}

/// An ACK of a block that has not passed is lawful nowhere: neither at the client, nor at the server, nor between them.
pub fn ack_of_nothing_is_lawful_nowhere()
    ensures tap { IsTapView two_bytes two_bytes.file ack_of_nothing → ⊥ }
    ensures client { IsView two_bytes two_bytes.file Client (as_at Client ack_of_nothing) → ⊥ }
    ensures server { IsView two_bytes two_bytes.file Server (as_at Server ack_of_nothing) → ⊥ }
{}
