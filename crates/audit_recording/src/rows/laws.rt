//! Laws of the definitions in `specs/`. Each is the contract of a function that does nothing.

ghost use Rattle.std.specs.Prelude.{◌≡◌, ◌≢◌, ◌∷◌, ◌||◌, [], ℕ, List, Any, Bool, IsSome, None, Option, Some, true, false};
ghost use Rattle.audit_flows.specs.Lines.{Placed, same_endpoint};
ghost use Rattle.audit_flows.specs.{Place, Transfer};
ghost use Rattle.tftp_packet.specs.{Client as ClientEnd, Server as ServerEnd};
ghost use Rattle.law_model.specs.{BadAnswer, EndRule};
ghost use Rattle.law_end.specs.{Block, Port};
ghost use Rattle.audit_flows.specs.Transfers.{asked_twice, client, service};
ghost use Rattle.audit_flows.specs.Transfers.Worked.{at, passes};
ghost use Rattle.audit_recording.specs.Rows.Accusing.{accused_in, accused_in_row, accused_of, is_servers};
ghost use Rattle.audit_recording.specs.declared.rows.accused.Accused.{Accused};
ghost use Rattle.audit_recording.specs.Rows.Told.{Tells, both_row, is_refused, is_told_at_ends, plain_row, refused_frame, rows_told, said_at, telling_depends};
ghost use Rattle.audit_recording.specs.declared.rows.row.Point.{Point as PointKind};
ghost use Rattle.audit_recording.specs.declared.rows.row.Point.TheVariants.{Client, Server, Between};
ghost use Rattle.audit_recording.specs.declared.rows.said.Said.{Said as SaidKind};
ghost use Rattle.audit_recording.specs.declared.rows.telling.Telling.{Telling};
ghost use Rattle.audit_recording.specs.declared.rows.said.Said.TheVariants.{Accepted, Refused};

/// Nothing that was judged is hidden: what is said at an end is told in a row, and so is what is said between the ends, unless it
/// is told at the ends. Then what is refused at an end is refused between too, in the same frame.
pub fn what_is_judged_is_told()
    ensures ends { (client server between : Option SaidKind) (alike : Bool) (point : PointKind) → point ≢ Between
        → IsSome (said_at point client server between) → Any (Tells client server alike point) (rows_told client server between alike) }
    ensures between { (client server between : Option SaidKind) (alike : Bool) → is_told_at_ends client server between ≡ false
        → IsSome between → Any (Tells client server alike Between) (rows_told client server between alike) }
    ensures at_ends { (client server between : Option SaidKind) (said there : SaidKind) (point : PointKind) (frame : ℕ)
        → is_told_at_ends client server between ≡ true → point ≢ Between → said_at point client server between ≡ Some said
        → between ≡ Some there → refused_frame said ≡ Some frame → refused_frame there ≡ Some frame }
{}

/// A client that accepts and a server that refuses are told in two rows; a transfer that was judged between its ends in one.
/// One that was judged at both ends and between is told in one row too, where all refuse one frame; and in three, where only the
/// server refuses one.
pub fn worked_rows()
    ensures both { rows_told (Some Accepted) (Some (Refused (Block EndRule.GoneBack) (Some 5))) None false ≡ plain_row Client ∷ plain_row Server ∷ [] }
    ensures alike { rows_told (Some (Refused (Block EndRule.BlockSkipped) (Some 5))) (Some (Refused (Block EndRule.BlockSkipped) (Some 5))) None true ≡ both_row ∷ [] }
    ensures between { rows_told None None (Some Accepted) true ≡ plain_row Between ∷ [] }
    ensures nowhere { rows_told None None None true ≡ [] }
    ensures everywhere { rows_told (Some (Refused (Block EndRule.AckAhead) (Some 5))) (Some (Refused (Block EndRule.AckAhead) (Some 5)))
        (Some (Refused (Block EndRule.AckAhead) (Some 5))) true ≡ both_row ∷ [] }
    ensures placed { rows_told (Some Accepted) (Some (Refused (Block EndRule.GoneBack) (Some 5))) (Some Accepted) false
        ≡ plain_row Client ∷ plain_row Server ∷ plain_row Between ∷ [] }
{}

/// A block that a server sends again too late is refused at the server and not between: that depends on the place, unless it was
/// judged at the server alone. An ACK of what never came is refused between too, in the same frame; where another frame is refused
/// there, and where what is refused there may answer a request that did not pass, it depends on the place.
pub fn worked_places()
    ensures end { telling_depends (record { point = Server; said = Refused (Block EndRule.GoneBack) (Some 5); between = Some Accepted }) ≡ true }
    ensures alone { telling_depends (record { point = Server; said = Refused (Block EndRule.GoneBack) (Some 5); between = None }) ≡ false }
    ensures too { telling_depends (record { point = Client; said = Refused (Block EndRule.AckAhead) (Some 5); between = Some (Refused (Block EndRule.AckAhead) (Some 5)) }) ≡ false }
    ensures later { telling_depends (record { point = Client; said = Refused (Block EndRule.GoneBack) (Some 5); between = Some (Refused (Block EndRule.AckAhead) (Some 9)) }) ≡ true }
    ensures asked { telling_depends (record { point = Client; said = Refused (Port BadAnswer) (Some 5); between = Some (Refused (Port BadAnswer) (Some 5)) }) ≡ true }
    ensures accepted { telling_depends (record { point = Client; said = Accepted; between = Some Accepted }) ≡ false }
    ensures between { telling_depends (record { point = Between; said = Refused (Block EndRule.AckAhead) (Some 9); between = Some (Refused (Block EndRule.AckAhead) (Some 9)) }) ≡ false }
{}

/// Only an end of the transfer is accused, by what it sent itself, and only without a doubt.
pub fn an_end_is_accused_by_its_own_datagram()
    ensures sent { (x : Transfer) (whole : List Placed) (p : Placed) (doubtful : Bool) (a : Accused) → accused_of x whole p doubtful ≡ Some a
        → a.end ≡ p.datagram.source }
    ensures sure { (x : Transfer) (whole : List Placed) (p : Placed) (doubtful : Bool) (a : Accused) → accused_of x whole p doubtful ≡ Some a
        → doubtful ≡ false }
    ensures ends { (x : Transfer) (whole : List Placed) (p : Placed) (doubtful : Bool) (a : Accused) → accused_of x whole p doubtful ≡ Some a
        → (same_endpoint a.end x.client || is_servers x whole a.end) ≡ true }
{}

/// Where a transfer was judged between its ends too, a row of an end accuses only of what is refused between, in the same frame;
/// and it accuses none but whom the refusal accuses by itself.
pub fn no_end_is_accused_of_what_is_not_refused_between()
    ensures between { (x : Transfer) (whole : List Placed) (p : Placed) (point : PointKind) (said there : SaidKind) (doubtful : Bool) (a : Accused)
        → accused_in_row x whole p (record { point = point; said = said; between = Some there }) doubtful ≡ Some a → point ≢ Between
        → (frame : ℕ) × (refused_frame said ≡ Some frame) × (refused_frame there ≡ Some frame) }
    ensures refused { (x : Transfer) (whole : List Placed) (p : Placed) (told : Telling) (doubtful : Bool) (a : Accused)
        → accused_in_row x whole p told doubtful ≡ Some a → is_refused told.said ≡ true }
    ensures own { (x : Transfer) (whole : List Placed) (p : Placed) (told : Telling) (doubtful : Bool) (a : Accused)
        → accused_in_row x whole p told doubtful ≡ Some a → accused_of x whole p doubtful ≡ Some a }
{}

/// A client asks twice, is answered by a server and by a stranger, and acknowledges: the stranger's datagram accuses nobody.
pub fn worked_accusations()
    ensures whom { accused_in (record { number = 0; client = client; asked = service; writes = false; has_window = false }) asked_twice
        ≡ Some (record { role = ClientEnd; end = client }) ∷ None ∷ Some (record { role = ServerEnd; end = at 1 41000 })
        ∷ Some (record { role = ClientEnd; end = client }) ∷ Some (record { role = ClientEnd; end = client }) ∷ [] }
    ensures doubtful { accused_of (record { number = 0; client = client; asked = service; writes = false; has_window = false }) [] (record { datagram = passes 0 client service []; moment = 0; place = Place.Nowhere }) true ≡ None }
    ensures placed { accused_in_row (record { number = 0; client = client; asked = service; writes = false; has_window = false }) [] (record { datagram = passes 0 client service []; moment = 0; place = Place.Nowhere })
        (record { point = Client; said = Refused (Block EndRule.GoneBack) (Some 5); between = Some Accepted }) false ≡ None }
    ensures everywhere { accused_in_row (record { number = 0; client = client; asked = service; writes = false; has_window = false }) [] (record { datagram = passes 0 client service []; moment = 0; place = Place.Nowhere })
        (record { point = Client; said = Refused (Block EndRule.AckAhead) (Some 5); between = Some (Refused (Block EndRule.AckAhead) (Some 5)) }) false
        ≡ Some (record { role = ClientEnd; end = client }) }
{}
