//! Laws of the definitions in `specs/`. Each is the contract of a function that does nothing.

ghost use Rattle.audit_spared.specs.Spared.{AreAskedAtService, SparesClients, SparesClientsByThree, SparesLateServers, SparesLateServersByFive, SparesServers, SparesServersByFive, SparesServersByFour, SparesStrayedClients, SparesStrayedClientsByFour, SparesViews};

/// Where captures of lawful transfers follow one another at the endpoints of some clients, whatever others do elsewhere, no view
/// of theirs is refused without a doubt; and three of the doubts are enough: without one of them no rule is broken there.
pub fn no_lawful_client_is_refused_without_a_doubt()
    ensures spared { SparesClients }
    ensures by_three { SparesClientsByThree }
    ensures views { SparesViews }
    ensures asked { AreAskedAtService }
{}

/// The same where strays come to a client, as late datagrams of an earlier server: before its server's first answer too, and
/// whatever they say. It may answer them by ERROR 5. Then a fourth doubt is needed: that something came to the client, which never
/// went on with who sent something first.
pub fn no_client_is_refused_for_strays_without_a_doubt()
    ensures spared { SparesStrayedClients }
    ensures by_four { SparesStrayedClientsByFour }
{}

/// Where captures of lawful transfers follow one another between some clients and the server's host, whatever strays come to its
/// ports, and requests come in time, no server's view of these transfers is refused without a doubt; and four of the doubts are
/// enough. Where requests come late too, a fifth is: that the refused datagram passed where another transfer was talked of. Or, in
/// its place, the program's own: that the datagram may be of an earlier transfer between the same two. So no view is refused
/// without a doubt of the program, though requests come late.
pub fn no_lawful_end_is_refused_at_the_server_without_a_doubt()
    ensures spared { SparesServers }
    ensures by_four { SparesServersByFour }
    ensures by_five { SparesServersByFive }
    ensures late { SparesLateServers }
    ensures late_by_five { SparesLateServersByFive }
{}
