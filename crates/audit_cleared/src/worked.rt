//! Worked recordings: one that a law speaks of, and for what the law asks. Each is the contract of a function that does nothing.

ghost use Rattle.std.specs.Prelude.{◌≡◌, [], ◌∷◌, All, List, None, false, true};
ghost use Rattle.tftp_packet.specs.{In, Out};
ghost use Rattle.audit_flows.specs.{Transfer};
ghost use Rattle.audit_flows.specs.Lines.{same_endpoint};
ghost use Rattle.law_model.specs.Rules.{Route, route_of};
ghost use Rattle.law_end.specs.{OneEnded};
ghost use Rattle.audit_views.specs.Parties.{host_name};
ghost use Rattle.audit_flows.specs.Transfers.{asked_twice, client, is_service, placed, server_view};
ghost use Rattle.audit_flows.specs.Transfers.Worked.{server};
ghost use Rattle.audit_views.specs.Views.{captured, client_capture, client_header, server_capture, server_header};
ghost use Rattle.law_tap.specs.{BreaksNoTapRule, TapRoute, tap_route};
ghost use Rattle.audit_recording.specs.Between.{between_capture, passed_of, sides_of};
ghost use Rattle.audit_recording.specs.Between.Worked.{first_transfer};
ghost use Rattle.audit_recording.specs.{Telling};
ghost use Rattle.audit_recording.specs.Blame.Frames.{Carried};
ghost use Rattle.audit_recording.specs.Reasons.Listed.{worked_doubted};
ghost use Rattle.audit_recording.specs.declared.blame.doubted.Doubted.{Doubted};
ghost use Rattle.audit_rows.specs.Viewing.{number_in};
ghost use Rattle.audit_rows.specs.Worked.{worked_telling, worked_transfer, worked_view};
ghost use Rattle.audit_rows.specs.declared.viewed.Viewed.{Viewed};
ghost use Rattle.audit_cleared.specs.Accusing.{AccusesNobody, IsServerKnown};
ghost use Rattle.audit_cleared.specs.Cleared.{HasAddresses, IsOpenedIn, IsSentThere, IsServedIn, IsTransferIn};
ghost use Rattle.audit_cleared.specs.Worked.{asked_at_learned, before_going_on, before_namesake, from_namesake, from_one_address, to_who_answered, learned, not_opened, one_request, to_a_stranger, to_the_other};

/// A read whose client asks twice, and to which a stray comes, is a transfer of its recording, and is served by one endpoint.
pub fn premises_are_met()
    ensures client { IsTransferIn first_transfer [] asked_twice }
    ensures server { IsServedIn first_transfer server [] [] asked_twice }
    ensures sent { All (IsSentThere first_transfer (placed [] asked_twice)) (placed [] asked_twice) }
{}

/// Were an address none, another host could have the client's name: what strays from there to the client would be the client's
/// own between the ends, and go where it may not.
pub fn addresses_are_needed()
    ensures client { route_of (client_header first_transfer) (client_capture host_name first_transfer (placed [] before_namesake))
        (captured host_name In from_namesake) ≡ Route.Stray }
    ensures between { tap_route (sides_of first_transfer (placed [] (from_namesake ∷ before_namesake)))
        (between_capture first_transfer (placed [] before_namesake)) (passed_of from_namesake) ≡ TapRoute.WrongPort }
{}

/// Were the transfer not opened in the recording, it could ask another host than the request went to, which the client's own
/// capture does not tell.
pub fn the_opening_is_needed()
    ensures client { route_of (client_header not_opened) [] (captured host_name Out one_request) ≡ Route.Request }
    ensures between { tap_route (sides_of not_opened (placed [] (one_request ∷ []))) [] (passed_of one_request)
        ≡ TapRoute.WrongPort }
{}

/// Were the port where the client asks neither 69 nor named, its second request could be taken for what it goes on with: where it
/// asks would be the server, and who answered a stranger, to whom between the ends nothing goes but an ERROR. At the client no
/// datagram breaks a rule, and all else that the law asks for is met.
pub fn the_service_is_needed()
    ensures opened { IsOpenedIn asked_at_learned (placed [] (to_who_answered ∷ before_going_on)) }
    ensures learned { is_service [] [] learned.port ≡ false }
    ensures addresses { All HasAddresses (to_who_answered ∷ before_going_on) }
    ensures apart { same_endpoint client learned ≡ false }
    ensures client { OneEnded (client_header asked_at_learned) (client_capture host_name asked_at_learned (placed [] (to_who_answered ∷ before_going_on))) }
    ensures between { tap_route (sides_of asked_at_learned (placed [] (to_who_answered ∷ before_going_on)))
        (between_capture asked_at_learned (placed [] before_going_on)) (passed_of to_who_answered) ≡ TapRoute.NoStrayAnswer }
    ensures refused { BreaksNoTapRule (sides_of asked_at_learned (placed [] (to_who_answered ∷ before_going_on)))
        (between_capture asked_at_learned (placed [] (to_who_answered ∷ before_going_on))) → ⊥ }
{}

/// Were the server's port at two addresses, the server would see what goes to either, and between the ends the client sends to
/// where nothing came from.
pub fn one_server_is_needed()
    ensures server { route_of (server_header first_transfer)
        (server_capture host_name first_transfer (placed [] (to_the_other ∷ from_one_address)) (placed [] from_one_address))
        (captured host_name In to_the_other) ≡ Route.Peer }
    ensures between { tap_route (sides_of first_transfer (placed [] (to_the_other ∷ from_one_address)))
        (between_capture first_transfer (placed [] from_one_address)) (passed_of to_the_other) ≡ TapRoute.WrongPort }
{}

/// What the client sends to another is refused between the ends, and the server does not see it.
pub fn the_server_must_have_seen_it()
    ensures server { server_view 0 (placed [] (to_a_stranger ∷ before_namesake)) ≡ placed [] before_namesake }
    ensures between { tap_route (sides_of first_transfer (placed [] before_namesake))
        (between_capture first_transfer (placed [] before_namesake)) (passed_of to_a_stranger) ≡ TapRoute.WrongPort }
{}

/// A refusal of what its client sent accuses it, where no reason is listed; once it is listed that the client had asked again, it accuses nobody,
/// as no row does that blames no datagram. Who the server is need not be known where nothing is refused.
pub fn worked_rows()
    ensures accuses { AccusesNobody (worked_transfer 2000) [] (worked_doubted false false None) (worked_telling (worked_view false)) (worked_view false) → ⊥ }
    ensures late { AccusesNobody (worked_transfer 2000) [] (worked_doubted false false None) (worked_telling (worked_view true)) (worked_view true) }
    ensures blames { (x : Transfer) (carried : List Carried) (d : Doubted) (t : Telling) (v : Viewed) → v.blamed ≡ None → AccusesNobody x carried d t v }
    ensures known { (x : Transfer) (carried : List Carried) (v : Viewed) → number_in v.found ≡ None → IsServerKnown x carried v }
{}
