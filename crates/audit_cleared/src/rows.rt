//! No row accuses an end where the captures that passed there are those of lawful transfers. Each law is the contract of a function that does
//! nothing.

ghost use Rattle.std.specs.Prelude.{All, Bool, Contains, List};
ghost use Rattle.audit_flows.specs.Lines.{Recorded};
ghost use Rattle.audit_flows.specs.{Address, Endpoint, Transfer};
ghost use Rattle.audit_spared.specs.Spared.{AreInterleaved, AreServed, AreStrayed, IsServedCapture};
ghost use Rattle.audit_views.specs.Parties.{host_name};
ghost use Rattle.audit_recording.specs.{Telling};
ghost use Rattle.audit_recording.specs.Blame.Frames.{Carried, datagrams_of};
ghost use Rattle.audit_recording.specs.declared.blame.doubted.Doubted.{Doubted};
ghost use Rattle.audit_recording.specs.declared.rows.row.Point.TheVariants.{Between, Client, Server};
ghost use Rattle.audit_rows.specs.declared.viewed.Viewed.{Viewed};
ghost use Rattle.audit_cleared.specs.Accusing.{AccusesNobody, IsServerKnown, TellsOf};
ghost use Rattle.audit_cleared.specs.Cleared.{HasAddresses};

use audit_spared::spared::laws::{
    no_client_is_refused_for_strays_without_a_doubt, no_lawful_client_is_refused_without_a_doubt,
    no_lawful_end_is_refused_at_the_server_without_a_doubt,
};

/// Where captures of lawful transfers follow one another at the endpoints of some clients, whatever others do elsewhere, no row accuses
/// anybody by what was seen at one of these clients: neither where nothing strays there, nor where strays come, whatever they say.
pub fn no_row_accuses_where_a_client_is_lawful()
    ensures interleaved { (clients : List Endpoint) (x : Transfer) (carried : List Carried) (d : Doubted) (t : Telling) (v : Viewed)
        → AreInterleaved host_name clients (datagrams_of carried) → Contains clients x.client → TellsOf Client x carried d t v → AccusesNobody x carried d t v }
    ensures strayed { (clients : List Endpoint) (strays idle : Recorded → Bool) (x : Transfer) (carried : List Carried) (d : Doubted) (t : Telling) (v : Viewed)
        → AreStrayed host_name strays idle clients (datagrams_of carried) → Contains clients x.client → TellsOf Client x carried d t v → AccusesNobody x carried d t v }
{
    no_lawful_client_is_refused_without_a_doubt();
    no_client_is_refused_for_strays_without_a_doubt();
}

/// Where captures of lawful transfers follow one another between some clients and the server's host, whatever strays come to its ports, no row
/// accuses anybody by what was seen at the server of one of these transfers, though requests come late.
pub fn no_row_accuses_where_a_server_is_lawful()
    ensures { (host : Address) (clients : List Endpoint) (x : Transfer) (carried : List Carried) (d : Doubted) (t : Telling) (v : Viewed)
        → AreServed (IsServedCapture host_name) host_name host clients (datagrams_of carried) → Contains clients x.client → TellsOf Server x carried d t v
        → AccusesNobody x carried d t v }
{
    no_lawful_end_is_refused_at_the_server_without_a_doubt();
}

/// Where captures of lawful transfers follow one another at the endpoints of some clients, no row accuses anybody by what passed between such a
/// client and its server (RFC 1350, section 4), where it was known by the refused datagram who the server is.
pub fn no_row_accuses_between_where_a_client_is_lawful()
    ensures { (clients : List Endpoint) (x : Transfer) (carried : List Carried) (d : Doubted) (t : Telling) (v : Viewed)
        → AreInterleaved host_name clients (datagrams_of carried) → All HasAddresses (datagrams_of carried) → Contains clients x.client
        → IsServerKnown x carried v → TellsOf Between x carried d t v → AccusesNobody x carried d t v }
{
    no_lawful_client_is_refused_without_a_doubt();
}
