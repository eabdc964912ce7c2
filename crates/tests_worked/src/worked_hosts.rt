//! Worked cases of hosts, proved from the definitions alone: the same port at two hosts is two peers. Each is the contract
//! of a function that does nothing.

ghost use Rattle.std.specs.Prelude.{◌≡◌, reverse};
ghost use Rattle.law_model.specs.Rules.{Route, route_of};
ghost use Rattle.law_model.specs.{PortRule};
ghost use Rattle.law_model.specs.Model.{two_bytes};
ghost use Rattle.law_end.specs.{Shows, IsRefused, Rule};
ghost use Rattle.tests_worked.specs.Worked.{at_client, at_server, acknowledges_hi, read_without_its_ack};
ghost use Rattle.tests_worked.specs.WorkedHosts as hosts;
ghost use Rattle.tests_worked.specs.WorkedRules.{only_asked};

/// What comes from the server's port at a third host is a stray, and ERROR 5 may answer it there (RFC 1350, section 4).
/// An ACK to there breaks rule 3.
pub fn third_host_is_no_server()
    ensures stray { route_of at_client (reverse read_without_its_ack) hosts.comes_from_third_host ≡ Route.Stray }
    ensures answered { Shows at_client two_bytes hosts.read_with_a_third_host }
    ensures acknowledged { IsRefused at_client (reverse hosts.after_third_host) hosts.acknowledges_third_host (Rule.Port PortRule.BadAnswer) }
{}

/// A server may answer from another host than the one asked, and then is there: an ACK to the host that was asked breaks
/// rule 2.
pub fn server_may_answer_from_another_host()
    ensures shown { Shows at_client two_bytes hosts.read_from_third_host }
    ensures fixed { IsRefused at_client (reverse hosts.answered_from_third_host) acknowledges_hi (Rule.Port PortRule.Wrong) }
{}

/// The requests of a transfer are one client's to one host. A client's to another breaks rule 2, and at the server one
/// from another breaks rule 1.
pub fn one_host_asks_one_host()
    ensures client { IsRefused at_client (reverse only_asked) hosts.asks_third_host (Rule.Port PortRule.Wrong) }
    ensures server { IsRefused at_server (reverse hosts.only_is_asked) hosts.third_host_asks (Rule.Port PortRule.Foreign) }
{}
