//! Worked cases of strays (RFC 1350, section 4): at a server, before a server has answered, and what answers none. Each is
//! the contract of a function that does nothing.

ghost use Rattle.std.specs.Prelude.{[], ◌∷◌, ◌++◌, reverse, Ok, Err};
ghost use Rattle.tftp_packet.specs.{Short};
ghost use Rattle.law_model.specs.Model.{two_bytes};
ghost use Rattle.law_model.specs.{PortRule};
ghost use Rattle.law_end.specs.{Shows, IsRefused, Rule};
ghost use Rattle.tftp_judge.specs.{IsVerdict, Unlawful};
ghost use Rattle.tests_worked.specs.Worked.{at_client, at_server, comes_astray};
ghost use Rattle.tests_worked.specs.WorkedHosts.{only_is_asked};
ghost use Rattle.tests_worked.specs.WorkedRules.{before_answering, only_asked};
ghost use Rattle.tests_worked.specs.WorkedStrays as strays;

/// Once a server has answered, an ACK that comes to its port from another port than its client's is a stray, and ERROR 5
/// may answer it.
pub fn server_answers_a_stray()
    ensures shown { Shows at_server two_bytes strays.read_with_a_stray_at_server }
    ensures accepted { IsVerdict at_server strays.read_with_a_stray_at_server (Ok two_bytes) }
{}

/// Nothing but ERROR 5, "Unknown transfer ID", answers a stray: another ERROR breaks rule 3, and no run of two ends has it,
/// at the client and at the server.
pub fn another_error_answers_no_stray()
    ensures client { IsRefused at_client (reverse before_answering) strays.answers_by_error_4 (Rule.Port PortRule.BadAnswer) }
    ensures server { IsRefused at_server (reverse strays.after_a_stray_at_server) strays.server_answers_by_error_4 (Rule.Port PortRule.BadAnswer) }
    ensures client_verdict { IsVerdict at_client (before_answering ++ strays.answers_by_error_4 ∷ []) (Err (Unlawful 4 (Rule.Port PortRule.BadAnswer))) }
    ensures server_verdict { IsVerdict at_server (strays.after_a_stray_at_server ++ strays.server_answers_by_error_4 ∷ []) (Err (Unlawful 4 (Rule.Port PortRule.BadAnswer))) }
{}

/// Before a server has answered, nothing that comes to its client is a stray: what comes first is the server's, from
/// whichever port, and is read. Of two ports that answer the one that comes second is the stray.
pub fn first_to_answer_is_the_server()
    ensures shown { Shows at_client two_bytes strays.read_from_first_port }
    ensures accepted { IsVerdict at_client strays.read_from_first_port (Ok two_bytes) }
    ensures read { IsRefused at_client (reverse only_asked) comes_astray (Rule.Malformed Short) }
    ensures verdict { IsVerdict at_client (only_asked ++ comes_astray ∷ []) (Err (Unlawful 2 (Rule.Malformed Short))) }
{}

/// Before it has answered, a server is known at the service port alone, where what comes from another port than its
/// client's breaks rule 1.
pub fn nothing_strays_to_a_silent_server()
    ensures refused { IsRefused at_server (reverse only_is_asked) strays.comes_to_service (Rule.Port PortRule.Foreign) }
    ensures verdict { IsVerdict at_server (only_is_asked ++ strays.comes_to_service ∷ []) (Err (Unlawful 2 (Rule.Port PortRule.Foreign))) }
{}
