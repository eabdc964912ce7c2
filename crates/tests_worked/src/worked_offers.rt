//! Worked cases of packets, requests and OACKs that break a rule, with the datagram that is named in the verdict. No run
//! of two ends has them, by the law that the rules are the runs. Each is the contract of a function that does nothing.

ghost use Rattle.std.specs.Prelude.{[], ◌∷◌, ◌++◌, reverse, Err};
ghost use Rattle.tftp_packet.specs.{AckLength, MailMode};
ghost use Rattle.tftp_nego.specs.{AgreementRule};
ghost use Rattle.law_end.specs.{IsRefused, Rule};
ghost use Rattle.tftp_judge.specs.{IsVerdict, Unlawful};
ghost use Rattle.tests_worked.specs.Worked.{at_client, asks_for_a, one_block_read, read_without_its_ack};
ghost use Rattle.tests_worked.specs.WorkedRules.{only_asked};
ghost use Rattle.tests_worked.specs.WorkedOffers as offers;

/// What is no packet breaks rule 5 (RFC 1350, section 5): an ACK of five bytes, a request in the mode "mail".
pub fn datagrams_are_packets()
    ensures ack { IsRefused at_client (reverse read_without_its_ack) offers.acknowledges_too_long (Rule.Malformed AckLength) }
    ensures mail { IsRefused at_client [] offers.asks_for_mail (Rule.Malformed MailMode) }
    ensures ack_verdict { IsVerdict at_client (read_without_its_ack ++ offers.acknowledges_too_long ∷ []) (Err (Unlawful 3 (Rule.Malformed AckLength))) }
    ensures mail_verdict { IsVerdict at_client (offers.asks_for_mail ∷ []) (Err (Unlawful 1 (Rule.Malformed MailMode))) }
{}

/// A client repeats its request until it has answered a block, and asks for nothing else (RFC 1350, section 4).
pub fn one_request_is_made()
    ensures another { IsRefused at_client (reverse only_asked) offers.asks_for_b Rule.RequestChanged }
    ensures late { IsRefused at_client (reverse one_block_read) asks_for_a Rule.RequestAfterStart }
    ensures another_verdict { IsVerdict at_client (only_asked ++ offers.asks_for_b ∷ []) (Err (Unlawful 2 Rule.RequestChanged)) }
    ensures late_verdict { IsVerdict at_client (one_block_read ++ asks_for_a ∷ []) (Err (Unlawful 4 Rule.RequestAfterStart)) }
{}

/// An OACK has some option, each of which was asked for (RFC 2347).
pub fn oacks_agree_to_what_was_asked()
    ensures empty { IsRefused at_client (reverse only_asked) offers.agrees_to_none (Rule.Agreement AgreementRule.OackEmpty) }
    ensures unasked { IsRefused at_client (reverse only_asked) offers.agrees_unasked (Rule.Agreement AgreementRule.OptionNotRequested) }
    ensures empty_verdict { IsVerdict at_client (only_asked ++ offers.agrees_to_none ∷ []) (Err (Unlawful 2 (Rule.Agreement AgreementRule.OackEmpty))) }
    ensures unasked_verdict { IsVerdict at_client (only_asked ++ offers.agrees_unasked ∷ []) (Err (Unlawful 2 (Rule.Agreement AgreementRule.OptionNotRequested))) }
{}

/// And each is one of the four of the profile: "multicast" (RFC 2090) has a rule of its own, and others share one.
pub fn oacks_keep_to_the_profile()
    ensures multicast { IsRefused at_client (reverse offers.only_multicast_asked) offers.agrees_to_multicast (Rule.Agreement AgreementRule.MulticastAgreed) }
    ensures unknown { IsRefused at_client (reverse offers.only_foo_asked) offers.agrees_to_foo (Rule.Agreement AgreementRule.OptionOutsideProfile) }
    ensures multicast_verdict { IsVerdict at_client (offers.only_multicast_asked ++ offers.agrees_to_multicast ∷ []) (Err (Unlawful 2 (Rule.Agreement AgreementRule.MulticastAgreed))) }
    ensures unknown_verdict { IsVerdict at_client (offers.only_foo_asked ++ offers.agrees_to_foo ∷ []) (Err (Unlawful 2 (Rule.Agreement AgreementRule.OptionOutsideProfile))) }
{}

/// A server makes the blocks no larger than it was asked to (RFC 2348).
pub fn oacks_raise_no_block_size()
    ensures larger { IsRefused at_client (reverse offers.only_512_asked) offers.agrees_to_1024 (Rule.Agreement AgreementRule.OptionValue) }
    ensures verdict { IsVerdict at_client (offers.only_512_asked ++ offers.agrees_to_1024 ∷ []) (Err (Unlawful 2 (Rule.Agreement AgreementRule.OptionValue))) }
{}
