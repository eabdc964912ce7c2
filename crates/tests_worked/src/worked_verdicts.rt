//! Worked cases of the verdict, where the runs of two ends and the rules meet. Each is the contract of a function that
//! does nothing.

ghost use Rattle.std.specs.Prelude.{[], ◌∷◌, ◌++◌, Ok, Err};
ghost use Rattle.law_model.specs.Model.{two_bytes, six_blocks};
ghost use Rattle.law_model.specs.{EndRule, PortRule};
ghost use Rattle.law_end.specs.{Rule, Local, Peer};
ghost use Rattle.tftp_judge.specs.{IsVerdict, IsVerdictByRules, Unlawful, Aborted, Incomplete};
ghost use Rattle.tests_worked.specs.Worked.{at_client, brings_hi, acknowledges_hi, acknowledges_two, one_block_read, read_without_its_ack};
ghost use Rattle.tests_worked.specs.WorkedErrors as errors;
ghost use Rattle.tftp_normal.specs.{line_end_cut};
ghost use Rattle.tests_worked.specs.WorkedNetascii.{read_of_lines, read_of_bare_lines};
ghost use Rattle.tests_worked.specs.WorkedRules as rules;
ghost use Rattle.tests_worked.specs.WorkedWindows.{at_service};
ghost use Rattle.tests_worked.specs.WorkedWindows as windows;

/// A capture that shows a transfer is accepted with its meaning.
pub fn shown_is_accepted()
    ensures one_block { IsVerdict at_client one_block_read (Ok two_bytes) }
    ensures window { IsVerdict at_client windows.window_out_of_order (Ok six_blocks) }
    ensures lines { IsVerdict at_client read_of_lines (Ok line_end_cut) }
    ensures bare_lines { IsVerdict at_client read_of_bare_lines (Ok line_end_cut) }
{}

/// The rules say the same of the read, and of the capture with a block beyond the window.
pub fn rules_give_the_verdict()
    ensures accepted { IsVerdictByRules at_client one_block_read (Ok two_bytes) }
    ensures refused { IsVerdictByRules at_client (windows.before_overrun ++ windows.block_seven ∷ []) (Err (Unlawful 8 (Rule.Block EndRule.WindowOverrun))) }
{}

/// A lawful capture that shows none is incomplete, with the number of its datagrams.
#[tactic(auto, using(crate::proofs::Verdicts::begin_incomplete))]
pub fn beginning_is_incomplete()
    ensures { IsVerdict at_client read_without_its_ack (Err (Incomplete 2)) }
{}

/// The first datagram that no run has is named, from 1, with the first rule that it breaks.
#[tactic(auto, using(crate::proofs::Verdicts::overrun_verdict))]
pub fn overrun_is_unlawful()
    ensures { IsVerdict at_client (windows.before_overrun ++ windows.block_seven ∷ []) (Err (Unlawful 8 (Rule.Block EndRule.WindowOverrun))) }
{}

/// A lawful capture that shows none, and in which an ERROR was sent, was aborted by the end that sent the first one, with
/// its code (RFC 1350, section 7).
pub fn error_ends_the_transfer()
    ensures refused { IsVerdict at_client errors.read_refused (Err (Aborted Peer 1)) }
    ensures refused_twice { IsVerdict at_client errors.read_refused_twice (Err (Aborted Peer 1)) }
    ensures given_up { IsVerdict at_client errors.read_given_up (Err (Aborted Local 3)) }
    ensures given_up_twice { IsVerdict at_client errors.read_given_up_twice (Err (Aborted Local 3)) }
    ensures block_after_error { IsVerdict at_client errors.block_after_error (Err (Aborted Peer 0)) }
{}

/// A capture that shows a transfer is accepted, though an ERROR came in.
pub fn whole_transfer_is_accepted_with_an_error()
    ensures before { IsVerdict at_client errors.stopped_at_the_end (Ok two_bytes) }
    ensures after { IsVerdict at_client errors.stopped_after_the_end (Ok two_bytes) }
{}

/// What an end sends after its ERROR is named, and what answers an ACK that went out after the ERROR came in.
pub fn what_follows_an_error_is_unlawful()
    ensures another { IsVerdict at_client (errors.read_refused ++ errors.says_forbidden ∷ []) (Err (Unlawful 3 Rule.AfterError)) }
    ensures ack { IsVerdict at_client (errors.read_given_up ++ acknowledges_hi ∷ []) (Err (Unlawful 4 Rule.AfterError)) }
    ensures late { IsVerdict at_client (errors.before_late_answer ++ errors.late_answer ∷ []) (Err (Unlawful 7 (Rule.Block EndRule.WindowOverrun))) }
{}

/// What breaks a rule of ports is in no run, and is named with that rule (RFC 1350, section 4).
pub fn ports_have_their_verdicts()
    ensures foreign { IsVerdict at_client (rules.before_answering ++ rules.comes_to_another_port ∷ []) (Err (Unlawful 4 (Rule.Port PortRule.Foreign))) }
    ensures wrong { IsVerdict at_client (rules.before_answering ++ rules.acknowledges_nobody ∷ []) (Err (Unlawful 4 (Rule.Port PortRule.Wrong))) }
    ensures stray { IsVerdict at_client (rules.before_answering ++ rules.acknowledges_stray ∷ []) (Err (Unlawful 4 (Rule.Port PortRule.BadAnswer))) }
{}

/// What breaks a rule of requests, or of what answers them, is named with that rule (RFC 1350, section 4; RFC 2347).
pub fn requests_and_replies_have_their_verdicts()
    ensures no_request { IsVerdict at_client (brings_hi ∷ []) (Err (Unlawful 1 Rule.NoRequest)) }
    ensures kind { IsVerdict at_client (rules.only_asked ++ rules.ack_zero ∷ []) (Err (Unlawful 2 Rule.WrongKind)) }
    ensures reply { IsVerdict at_client (rules.before_changed_reply ++ rules.agrees_to_four ∷ []) (Err (Unlawful 3 Rule.ReplyChanged)) }
    ensures oack { IsVerdict at_client (rules.before_taking_offer ++ rules.agrees_to_eight ∷ []) (Err (Unlawful 3 Rule.OackChanged)) }
    ensures late_oack { IsVerdict at_service (rules.before_late_oack ++ rules.late_oack ∷ []) (Err (Unlawful 5 Rule.OackAfterStart)) }
    ensures too_many { IsVerdict at_client (rules.asks_for_size ∷ rules.too_many_blocks ∷ []) (Err (Unlawful 2 (Rule.Block EndRule.BeyondBlock65535))) }
{}

/// What breaks a rule of blocks is named with that rule (RFC 1350, sections 2 and 5; RFC 2349; RFC 7440, section 4).
pub fn blocks_have_their_verdicts()
    ensures early { IsVerdict at_client (rules.before_taking_offer ++ rules.block_too_early ∷ []) (Err (Unlawful 3 (Rule.Block EndRule.NotStarted))) }
    ensures zero { IsVerdict at_client (rules.only_asked ++ rules.block_zero ∷ []) (Err (Unlawful 2 (Rule.Block EndRule.BlockZero))) }
    ensures last { IsVerdict at_client (rules.before_last_number ++ rules.last_number ∷ []) (Err (Unlawful 4 (Rule.Block EndRule.BeyondBlock65535))) }
    ensures short { IsVerdict at_client (rules.before_short_block ++ rules.short_block ∷ []) (Err (Unlawful 6 (Rule.Block EndRule.BlockLength))) }
    ensures skipped { IsVerdict at_client (windows.before_skip ++ windows.block_two ∷ []) (Err (Unlawful 3 (Rule.Block EndRule.BlockSkipped))) }
    ensures back { IsVerdict at_client (windows.before_going_back ++ windows.goes_back ∷ []) (Err (Unlawful 7 (Rule.Block EndRule.GoneBack))) }
    ensures changed { IsVerdict at_client (rules.before_changed_block ++ rules.changed_block ∷ []) (Err (Unlawful 5 (Rule.Block EndRule.BlockChanged))) }
{}

/// An ACK that breaks a rule is named with that rule (RFC 1350, section 2; RFC 2347).
pub fn acks_have_their_verdicts()
    ensures ahead { IsVerdict at_client (read_without_its_ack ++ acknowledges_two ∷ []) (Err (Unlawful 3 (Rule.Block EndRule.AckAhead))) }
    ensures zero { IsVerdict at_client (rules.before_ack_zero ++ rules.ack_zero ∷ []) (Err (Unlawful 3 (Rule.Block EndRule.AckZero))) }
{}
