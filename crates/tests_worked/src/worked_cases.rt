//! Worked cases of the law, proved from its definitions alone. Each is the contract of a function that does nothing.

ghost use Rattle.std.specs.Prelude.{◌≡◌, ℕ, List, [], ◌∷◌, ◌++◌};
ghost use Rattle.law_model.specs.Model.{Meaning, two_bytes, two_bytes_written, ten_bytes, six_blocks, six_blocks_steps, block_repeated, window_repeated, IsRun, view_of};
ghost use Rattle.tftp_packet.specs.{Client, Server};
ghost use Rattle.law_end.specs.{IsDressed, Shows, ShowsBy, IsSeen, IsLawful, IsLawfulUpTo};
ghost use Rattle.tests_worked.specs.WorkedWindows.{at_service};
ghost use Rattle.tests_worked.specs.WorkedWindows as windows;
ghost use Rattle.tests_worked.specs.Worked.{at_client, at_server};
ghost use Rattle.tests_worked.specs.Worked as small;
ghost use Rattle.tftp_normal.specs.{line_end_cut};
ghost use Rattle.tests_worked.specs.WorkedNetascii.{read_of_lines, read_of_bare_lines};
ghost use Rattle.tests_worked.specs.WorkedErrors as errors;

/// Three datagrams show a read of a file of two bytes.
#[tactic(auto, using(crate::proofs::ReadShown::read_is_shown))]
pub fn one_block_read_is_shown()
    ensures { Shows at_client two_bytes small.one_block_read }
{}

/// So do five, of which one came from another port and one answers it.
#[tactic(auto, using(crate::proofs::ReadVariants::stray_is_shown))]
pub fn read_with_a_stray_is_shown()
    ensures { Shows at_client two_bytes small.read_with_a_stray }
{}

/// The same read as its server sees it, which answers from a port of its own.
#[tactic(auto, using(crate::proofs::ReadVariants::server_is_shown))]
pub fn read_at_the_server_is_shown()
    ensures { Shows at_server two_bytes small.read_at_server }
{}

/// A write of the two bytes.
#[tactic(auto, using(crate::proofs::MoreShown::write_is_shown))]
pub fn one_block_write_is_shown()
    ensures { Shows at_client two_bytes_written small.one_block_write }
{}

/// The same write as its server sees it.
#[tactic(auto, using(crate::proofs::MoreShown::write_at_server_is_shown))]
pub fn write_at_the_server_is_shown()
    ensures { Shows at_server two_bytes_written small.write_at_server }
{}

/// A read with an agreed block size, in two blocks.
#[tactic(auto, using(crate::proofs::MoreShown::eights_are_shown))]
pub fn read_in_eights_is_shown()
    ensures { Shows at_client ten_bytes small.read_in_eights }
{}

/// A read in netascii, in two blocks between which a line end is cut; and one whose line ends by LF alone. Both show one
/// file (RFC 1350, section 1; RFC 764).
pub fn reads_in_netascii_are_shown()
    ensures cut { Shows at_client line_end_cut read_of_lines }
    ensures bare { Shows at_client line_end_cut read_of_bare_lines }
{}

/// A read in a window of four blocks, of which one comes late and the next one twice: at its client, at its server, and
/// that both captures are of one run.
pub fn window_out_of_order_is_shown()
    ensures client { Shows at_client six_blocks windows.window_out_of_order }
    ensures server { Shows at_service six_blocks windows.window_at_server }
    ensures run { IsRun six_blocks six_blocks.file six_blocks_steps }
    ensures client_dressed { IsDressed at_client six_blocks six_blocks.file (view_of Client six_blocks_steps) windows.window_out_of_order }
    ensures server_dressed { IsDressed at_service six_blocks six_blocks.file (view_of Server six_blocks_steps) windows.window_at_server }
{}

/// A write in lock step whose client sends a block again that was acknowledged.
#[tactic(auto, using(crate::proofs::WindowsShown::repeated_shown))]
pub fn block_sent_again_is_shown()
    ensures { Shows at_client block_repeated windows.block_sent_again }
{}

/// A write in a window of four whose client sends both blocks again after an ACK 0.
#[tactic(auto, using(crate::proofs::WindowsShown::window_shown))]
pub fn window_sent_again_is_shown()
    ensures { Shows at_client window_repeated windows.window_sent_again }
{}

/// No run has a block that is more than the window above what was acknowledged. Up to it the capture is lawful.
#[tactic(auto, using(crate::proofs::Unlawful::overrun_is_first))]
pub fn block_past_the_window_is_unlawful()
    ensures { IsLawfulUpTo at_client (windows.before_overrun ++ windows.block_seven ∷ []) 7 }
{}

/// No run has block 2 before block 1 was sent.
#[tactic(auto, using(crate::proofs::Unlawful::skip_is_unlawful))]
pub fn block_skipped_is_unlawful()
    ensures { IsLawful at_client (windows.before_skip ++ windows.block_two ∷ []) → ⊥ }
{}

/// Transfers in which an ERROR is sent are lawful (RFC 1350, section 7): the server says that there is no such file, once
/// or twice; the client gives up, and says so again where the block comes again; a block comes after the ERROR that was
/// sent after it.
pub fn transfers_with_an_error_are_lawful()
    ensures refused { IsLawful at_client errors.read_refused }
    ensures refused_twice { IsLawful at_client errors.read_refused_twice }
    ensures given_up { IsLawful at_client errors.read_given_up }
    ensures given_up_twice { IsLawful at_client errors.read_given_up_twice }
    ensures block_after_error { IsLawful at_client errors.block_after_error }
{}

/// A read whose blocks have all come is shown, where its last ACK goes after an ERROR came in, and where an ERROR comes
/// after it.
pub fn read_stopped_at_the_end_is_shown()
    ensures before { Shows at_client two_bytes errors.stopped_at_the_end }
    ensures after { Shows at_client two_bytes errors.stopped_after_the_end }
{}

/// No run has another ERROR of the server after its first one, nor an ACK of the client after its ERROR.
pub fn what_follows_an_error_is_unlawful()
    ensures another { IsLawful at_client (errors.read_refused ++ errors.says_forbidden ∷ []) → ⊥ }
    ensures ack { IsLawful at_client (errors.read_given_up ++ small.acknowledges_hi ∷ []) → ⊥ }
{}

/// No run has a block that answers an ACK which went out after the ERROR came in. Up to it the capture is lawful.
pub fn answer_to_a_late_ack_is_unlawful()
    ensures { IsLawfulUpTo at_client (errors.before_late_answer ++ errors.late_answer ∷ []) 6 }
{}

/// No run has an ERROR that comes to a server at the service port: before the server has answered, the client knows no
/// other port of it (RFC 1350, section 4).
#[tactic(auto, using(crate::proofs::ErrorsShown::unanswered_is_unlawful))]
pub fn error_before_the_answer_is_unlawful()
    ensures { IsLawful at_service (errors.only_offered ++ errors.stops_unanswered ∷ []) → ⊥ }
{}

/// The three datagrams of the read at the client show nothing else.
pub fn one_block_read_has_one_meaning()
    ensures only { (m : Meaning) (wire : List ℕ) → IsSeen at_client m wire small.one_block_read → m ≡ two_bytes }
    ensures same { (m other : Meaning) → Shows at_client m small.one_block_read → Shows at_client other small.one_block_read
        → m ≡ other }
{}

/// Without its last ACK the read is lawful, and shows nothing.
pub fn read_without_its_ack_is_not_complete()
    ensures lawful { IsLawful at_client small.read_without_its_ack }
    ensures shows_nothing { (m : Meaning) (wire : List ℕ) → ShowsBy at_client m wire small.read_without_its_ack → ⊥ }
{}

/// No run has a block after one that is shorter than a block.
#[tactic(auto, using(crate::proofs::ReadShown::past_is_unlawful))]
pub fn block_after_the_last_is_unlawful()
    ensures { IsLawful at_client small.read_past_its_end → ⊥ }
{}
