//! Worked cases of the rules, proved from their definitions alone. Each names the datagram that breaks a rule, and says
//! that those before it break none and that it breaks no earlier rule. Each is the contract of a function that does
//! nothing.

ghost use Rattle.std.specs.Prelude.{[], ◌∷◌, reverse};
ghost use Rattle.law_model.specs.{EndRule, PortRule};
ghost use Rattle.law_end.specs.{Rule, OneEnded, IsRefused, Meant};
ghost use Rattle.law_model.specs.Model.{two_bytes};
ghost use Rattle.tests_worked.specs.Worked.{at_client, brings_hi, acknowledges_hi, acknowledges_two, one_block_read, read_without_its_ack};
ghost use Rattle.tests_worked.specs.WorkedWindows.{at_service};
ghost use Rattle.tests_worked.specs.WorkedWindows as windows;
ghost use Rattle.tests_worked.specs.WorkedRules as rules;
ghost use Rattle.tests_worked.specs.WorkedErrors as errors;

/// Captures of whole transfers break no rule: the read of one block; the read in a window of four of which a block comes
/// late, at both ends; and the two writes that send blocks again.
pub fn whole_transfers_break_no_rule()
    ensures read { OneEnded at_client (reverse one_block_read) }
    ensures window { OneEnded at_client (reverse windows.window_out_of_order) }
    ensures window_at_the_server { OneEnded at_service (reverse windows.window_at_server) }
    ensures block_again { OneEnded at_client (reverse windows.block_sent_again) }
    ensures window_again { OneEnded at_client (reverse windows.window_sent_again) }
{}

/// The three datagrams of the read mean, by the rules, what they show.
#[tactic(auto, using(crate::proofs::Accepted::plain_meant))]
pub fn one_block_read_means_two_bytes()
    ensures { Meant at_client (reverse one_block_read) two_bytes }
{}

/// At its transfer id the client hears one server (RFC 1350, section 4). What comes to another port, what goes to a port
/// that nothing came from, and what answers a stray by no ERROR 5 breaks one of the first three rules.
pub fn ports_are_the_transfers()
    ensures foreign { IsRefused at_client (reverse rules.before_answering) rules.comes_to_another_port (Rule.Port PortRule.Foreign) }
    ensures wrong { IsRefused at_client (reverse rules.before_answering) rules.acknowledges_nobody (Rule.Port PortRule.Wrong) }
    ensures stray { IsRefused at_client (reverse rules.before_answering) rules.acknowledges_stray (Rule.Port PortRule.BadAnswer) }
{}

/// Nothing comes before a request (RFC 1350, section 4).
#[tactic(auto, using(crate::proofs::RefusedMore::unasked_refused))]
pub fn request_comes_first()
    ensures { IsRefused at_client [] brings_hi Rule.NoRequest }
{}

/// The server of a read acknowledges nothing (RFC 1350, section 2).
#[tactic(auto, using(crate::proofs::RefusedMore::kind_refused))]
pub fn server_of_a_read_sends_no_ack()
    ensures { IsRefused at_client (reverse rules.only_asked) rules.ack_zero Rule.WrongKind }
{}

/// Transfers in which an ERROR is sent break no rule: it may come after a request, go out after a block, and do so again;
/// an ACK may go out after it came in, and what was sent before it may come after it.
pub fn transfers_with_an_error_break_no_rule()
    ensures refused { OneEnded at_client (reverse errors.read_refused) }
    ensures refused_twice { OneEnded at_client (reverse errors.read_refused_twice) }
    ensures given_up { OneEnded at_client (reverse errors.read_given_up) }
    ensures given_up_twice { OneEnded at_client (reverse errors.read_given_up_twice) }
    ensures stopped_at_the_end { OneEnded at_client (reverse errors.stopped_at_the_end) }
    ensures stopped_after_the_end { OneEnded at_client (reverse errors.stopped_after_the_end) }
    ensures block_after_error { OneEnded at_client (reverse errors.block_after_error) }
{}

/// After its ERROR an end says nothing else (RFC 1350, section 7): the other end's next ERROR is that one again, and the
/// named end's next datagram is.
pub fn an_end_goes_no_further_than_its_error()
    ensures another { IsRefused at_client (reverse errors.read_refused) errors.says_forbidden Rule.AfterError }
    ensures ack { IsRefused at_client (reverse errors.read_given_up) acknowledges_hi Rule.AfterError }
{}

/// What comes in after an ERROR was sent before it, and so no block answers an ACK that went out after the ERROR came in.
#[tactic(auto, using(crate::proofs::RefusedErrors::late_refused))]
pub fn blocks_answer_no_ack_after_an_error()
    ensures { IsRefused at_client (reverse errors.before_late_answer) errors.late_answer (Rule.Block EndRule.WindowOverrun) }
{}

/// A server that has not answered is asked at the service port, and nothing else comes there (RFC 1350, section 4).
#[tactic(auto, using(crate::proofs::RefusedErrors::unanswered_refused))]
pub fn server_is_stopped_once_it_has_answered()
    ensures { IsRefused at_service (reverse errors.only_offered) errors.stops_unanswered (Rule.Port PortRule.Wrong) }
{}

/// No block is acknowledged before it and all below it have come in (RFC 1350, section 2).
#[tactic(auto, using(crate::proofs::RefusedMore::ahead_refused))]
pub fn acks_follow_the_blocks()
    ensures { IsRefused at_client (reverse read_without_its_ack) acknowledges_two (Rule.Block EndRule.AckAhead) }
{}

/// An OACK comes before the file or not at all, and says one thing (RFC 2347).
pub fn one_reply_answers_a_request()
    ensures after_a_block { IsRefused at_client (reverse rules.before_changed_reply) rules.agrees_to_four Rule.ReplyChanged }
    ensures another { IsRefused at_client (reverse rules.before_taking_offer) rules.agrees_to_eight Rule.OackChanged }
    ensures late { IsRefused at_service (reverse rules.before_late_oack) rules.late_oack Rule.OackAfterStart }
{}

/// With options the first block of a read waits for ACK 0 (RFC 2347), and block numbers begin with 1 (RFC 1350,
/// section 5).
pub fn blocks_begin_in_order()
    ensures early { IsRefused at_client (reverse rules.before_taking_offer) rules.block_too_early (Rule.Block EndRule.NotStarted) }
    ensures zero { IsRefused at_client (reverse rules.only_asked) rules.block_zero (Rule.Block EndRule.BlockZero) }
{}

/// Blocks have numbers of two bytes (RFC 1350, section 5). Block 65535 is the last, and so is shorter than a block; and a
/// size that needs more blocks may not be agreed.
pub fn blocks_end_at_65535()
    ensures block { IsRefused at_client (reverse rules.before_last_number) rules.last_number (Rule.Block EndRule.BeyondBlock65535) }
    ensures size { IsRefused at_client (reverse (rules.asks_for_size ∷ [])) rules.too_many_blocks (Rule.Block EndRule.BeyondBlock65535) }
{}

/// The agreed size says which block is the last and how long it is (RFC 2349), and a block that comes again is the same.
pub fn blocks_are_those_of_the_file()
    ensures length { IsRefused at_client (reverse rules.before_short_block) rules.short_block (Rule.Block EndRule.BlockLength) }
    ensures changed { IsRefused at_client (reverse rules.before_changed_block) rules.changed_block (Rule.Block EndRule.BlockChanged) }
{}

/// Blocks go in order and at most a window ahead (RFC 7440, section 4), and in lock step never back (RFC 1350, section 2).
pub fn blocks_keep_to_the_window()
    ensures overrun { IsRefused at_client (reverse windows.before_overrun) windows.block_seven (Rule.Block EndRule.WindowOverrun) }
    ensures skipped { IsRefused at_client (reverse windows.before_skip) windows.block_two (Rule.Block EndRule.BlockSkipped) }
    ensures back { IsRefused at_client (reverse windows.before_going_back) windows.goes_back (Rule.Block EndRule.GoneBack) }
{}

/// On a write with options ACK 0 has nothing to answer before a block has gone out (RFC 2347).
#[tactic(auto, using(crate::proofs::Refused::zero_refused))]
pub fn ack_zero_answers_something()
    ensures { IsRefused at_client (reverse rules.before_ack_zero) rules.ack_zero (Rule.Block EndRule.AckZero) }
{}
