//! Worked cases of whole texts: what there is to say of each, and what the commands write of it. Each is the
//! contract of a function that does nothing.

ghost use Rattle.std.specs.Prelude.{[], ◌∷◌, ◌++◌, false, None, Ok, Err, codes};
ghost use Rattle.net_streams.specs.Digits.{AreNibbles, IsNibble};
ghost use Rattle.tftp_capture.specs.{line, worked_text, BadHeader};
ghost use Rattle.tftp_capture.specs.declared.fault.CaptureFault.TheVariants.{Text};
ghost use Rattle.law_model.specs.Model.{two_bytes};
ghost use Rattle.law_model.specs.{EndRule};
ghost use Rattle.law_end.specs.{Rule};
ghost use Rattle.tftp_judge.specs.{IsTextVerdict, Unlawful, Capture, Refused};
ghost use Rattle.tftp_normal.specs.{line_end_cut, two_bytes_text};
ghost use Rattle.tftp_commands.specs.{IsChecked, IsCounted, IsExtracted, IsNormalised, IsShown, given};
ghost use Rattle.tests_worked.specs.WorkedTexts.{lines_text, overrun_text, unversioned_text, with_success, with_refusal, with_fault};

/// The text of a read of one block is accepted with its meaning. A text is refused at its first unlawful datagram, and
/// one with a fault has it as its verdict.
pub fn texts_have_their_verdicts()
    ensures accepted { IsTextVerdict worked_text (Ok two_bytes) }
    ensures refused { IsTextVerdict overrun_text (Err (Refused (Unlawful 2 (Rule.Block EndRule.WindowOverrun)))) }
    ensures fault { IsTextVerdict unversioned_text (Err (Capture (Text 1 BadHeader))) }
{}

/// What `check` prints of each, where the text was read whole.
pub fn texts_are_checked()
    ensures accepted { IsChecked None (given worked_text) (with_success (line (codes "accepted get octet blocks 1 bytes 2"))) }
    ensures refused { IsChecked None (given overrun_text) (with_refusal (line (codes "refused datagram 2 rule 22 WindowOverrun"))) }
    ensures fault { IsChecked None (given unversioned_text) (with_fault (line (codes "fault line 1 BadHeader"))) }
{}

/// What `show` prints of the read, where no write failed: a line for each datagram.
#[tactic(auto, using(crate::proofs::TextsPrinted::read_shown))]
pub fn read_is_shown_by_lines()
    ensures { IsShown None (given worked_text) false (with_success (line (codes "1 out RRQ") ++ line (codes "2 in DATA 1 2") ++ line (codes "3 out ACK 1"))) }
{}

/// What `extract` writes of the read is its file.
#[tactic(auto, using(crate::proofs::TextsPrinted::read_extracted))]
pub fn file_of_the_read_is_extracted()
    ensures { IsExtracted None (given worked_text) (with_success (codes "hi")) }
{}

/// What `normal` writes of the read is the same capture between the ports 50000 and 50001.
#[tactic(auto, using(crate::proofs::TextsPrinted::read_normalised))]
pub fn read_is_normalised()
    ensures { IsNormalised None (given worked_text) (with_success two_bytes_text) }
{}

/// What `count` prints of the read: its normal capture has as many datagrams as it has.
#[tactic(auto, using(crate::proofs::TextsPrinted::read_counted))]
pub fn read_is_counted()
    ensures { IsCounted None (given worked_text) (with_success (line (codes "normal datagrams 3"))) }
{}

/// Of a read in netascii `extract` writes the file, in which LF alone ends a line; `normal` writes a line end by CR LF,
/// and of this text itself.
pub fn lines_are_read_as_their_file()
    ensures verdict { IsTextVerdict lines_text (Ok line_end_cut) }
    ensures checked { IsChecked None (given lines_text) (with_success (line (codes "accepted get netascii blocks 2 bytes 9"))) }
    ensures extracted { IsExtracted None (given lines_text) (with_success (codes "abcdefg" ++ 10 ∷ codes "h")) }
    ensures normalised { IsNormalised None (given lines_text) (with_success lines_text) }
{}

/// Hex digits of either case have the values of the field; a byte that is none has 16 or any more, here the one behind `f`.
pub fn digits_have_their_values()
    ensures digits { AreNibbles (codes "09afAF") (0 ∷ 9 ∷ 10 ∷ 15 ∷ 10 ∷ 15 ∷ []) }
    ensures none { IsNibble 103 16 }
    ensures any { IsNibble 103 255 }
{}
