//! Laws of the definitions in `specs/`. Each is the contract of a function that does nothing.

ghost use Rattle.std.specs.Prelude.{◌≡◌, ◌≢◌, ◌∷◌, ◌++◌, [], ℕ, Bool, List, None, Option, Result, Some, false, true};
ghost use Rattle.tftp_packet.specs.{Client as ClientEnd, Rollover};
ghost use Rattle.law_model.specs.Model.{Meaning};
ghost use Rattle.tftp_judge.specs.{Refusal};
ghost use Rattle.audit_flows.specs.Lines.{Placed, follows_request};
ghost use Rattle.audit_flows.specs.{Transfer};
ghost use Rattle.audit_flows.specs.Transfers.{some_of};
ghost use Rattle.audit_recording.specs.{Accused, Telling};
ghost use Rattle.audit_recording.specs.Blame.Frames.{Carried, Framed, seen_as, whole_of};
ghost use Rattle.audit_recording.specs.Blame.Facts.{blamed_of};
ghost use Rattle.audit_recording.specs.Blame.Named.{named_in};
ghost use Rattle.audit_recording.specs.declared.blame.blame.Blamed.{Blamed};
ghost use Rattle.audit_recording.specs.declared.blame.named.Named.{Named};
ghost use Rattle.audit_recording.specs.declared.blame.doubted.Doubted.{Doubted};
ghost use Rattle.audit_recording.specs.declared.blame.reason.Reason.{Reason};
ghost use Rattle.audit_recording.specs.declared.blame.trail.Trail.{Trail as TrailKind};
ghost use Rattle.audit_recording.specs.Reasons.Listed.{worked_doubted};
ghost use Rattle.audit_recording.specs.Rows.Accusing.{accused_in_row, role_at};
ghost use Rattle.audit_recording.specs.Rows.Told.{is_refused, refused_frame};
ghost use Rattle.audit_recording.specs.declared.blame.reason.Reason.TheVariants.{Late, Lost, Stranger};
ghost use Rattle.audit_recording.specs.declared.rows.row.Point.{Point as PointKind};
ghost use Rattle.audit_rows.specs.Accusing.{accused_of_row, is_listed};
ghost use Rattle.audit_rows.specs.Charging.{unless_listed};
ghost use Rattle.audit_rows.specs.Doubting.{row_reasons};
ghost use Rattle.audit_rows.specs.Judging.{AreKeptDoubts};
ghost use Rattle.audit_rows.specs.Standing.{IsCertainAt, IsCertainAtEnd, IsOpenAt};
ghost use Rattle.audit_rows.specs.Viewing.{IsStanding, IsStandingAs, IsViewAt, number_in, said_in};
ghost use Rattle.audit_rows.specs.declared.found.Found.TheVariants.{AtEnd};
ghost use Rattle.audit_views.specs.Parties.{host_name};
ghost use Rattle.audit_views.specs.Views.{client_capture, client_header, server_capture, server_header};
ghost use Rattle.audit_rows.specs.Worked.{worked_changed, worked_client, worked_early, worked_telling, worked_transfer, worked_view};
ghost use Rattle.audit_rows.specs.declared.viewed.Viewed.{Viewed};

/// Whom a row accuses sent the datagram that is refused there, and is an end of the transfer; the row tells a refusal, and no
/// reason for doubt is listed.
pub fn whom_a_row_accuses_sent_what_is_refused()
    ensures sent { (x : Transfer) (whole : List Placed) (d : Doubted) (t : Telling) (v : Viewed) (a : Accused)
        → accused_of_row x whole t v.blamed (row_reasons x whole d t v) ≡ Some a → (b : Blamed) × (v.blamed ≡ Some b) × (a.end ≡ b.source) }
    ensures end { (x : Transfer) (whole : List Placed) (d : Doubted) (t : Telling) (v : Viewed) (a : Accused)
        → accused_of_row x whole t v.blamed (row_reasons x whole d t v) ≡ Some a → role_at x whole a.end ≡ Some a.role }
    ensures refused { (x : Transfer) (whole : List Placed) (d : Doubted) (t : Telling) (v : Viewed) (a : Accused)
        → accused_of_row x whole t v.blamed (row_reasons x whole d t v) ≡ Some a → is_refused t.said ≡ true }
    ensures sure { (x : Transfer) (whole : List Placed) (d : Doubted) (t : Telling) (v : Viewed) (a : Accused)
        → accused_of_row x whole t v.blamed (row_reasons x whole d t v) ≡ Some a → row_reasons x whole d t v ≡ [] }
{}

/// A row accuses as the refusal of that datagram does, which is doubtful exactly where a reason is listed.
pub fn a_row_accuses_as_its_refusal_does()
    ensures { (x : Transfer) (whole : List Placed) (t : Telling) (b : Blamed) (reasons : List Reason) (p : Placed) → p.datagram.source ≡ b.source
        → accused_of_row x whole t (Some b) reasons ≡ accused_in_row x whole p t (is_listed reasons) }
{}

/// Reasons that are known later take an accusation away as they would have from the start.
pub fn a_later_reason_takes_an_accusation_away()
    ensures { (x : Transfer) (whole : List Placed) (t : Telling) (o : Option Blamed) (reasons more : List Reason)
        → accused_of_row x whole t o (reasons ++ more) ≡ unless_listed more (accused_of_row x whole t o reasons) }
{}

/// Where a verdict refuses a datagram of what was seen at its point, what is said there has the frame in which that datagram came,
/// and the blamed datagram is that one, with its source.
pub fn a_refusal_has_the_frame_of_its_datagram()
    ensures frame { (at : PointKind) (x : Transfer) (named : List ℕ) (carried : List Carried) (v : Viewed) (frame : ℕ) → IsViewAt at x named carried v
        → refused_frame (said_in v) ≡ Some frame
        → (number : ℕ) × (f : Framed) × (number_in v.found ≡ Some number) × (seen_as at x.number named carried number ≡ Some f) × (f.carried.frame ≡ frame) }
    ensures source { (at : PointKind) (x : Transfer) (named : List ℕ) (carried : List Carried) (v : Viewed) (b : Blamed) → IsViewAt at x named carried v
        → v.blamed ≡ Some b
        → (number : ℕ) × (f : Framed) × (number_in v.found ≡ Some number) × (seen_as at x.number named carried number ≡ Some f) × (b.source ≡ f.placed.datagram.source) }
{}

/// Of a refusal in frame 5, that its client had asked again is a reason, and that neither end sent the datagram. Without these its
/// client is accused. A transfer that stops early may have gone on in frame 9.
pub fn worked_row()
    ensures two { row_reasons (worked_transfer 3000) [] (worked_doubted false false None) (worked_telling (worked_view true)) (worked_view true) ≡ Stranger ∷ Late ∷ [] }
    ensures none { row_reasons (worked_transfer 2000) [] (worked_doubted false false None) (worked_telling (worked_view false)) (worked_view false) ≡ [] }
    ensures accused { accused_of_row (worked_transfer 2000) [] (worked_telling (worked_view false)) (worked_view false).blamed [] ≡ Some (record { role = ClientEnd; end = worked_client }) }
    ensures doubtful { accused_of_row (worked_transfer 2000) [] (worked_telling (worked_view true)) (worked_view true).blamed (Late ∷ []) ≡ None }
    ensures early { row_reasons (worked_transfer 2000) [] (worked_doubted false false None) (worked_telling worked_early) worked_early ≡ Lost 9 ∷ [] }
{}

/// A block that the server changed came to a client: that stands once the client has gone on with its server, and before that nothing
/// is said. A block that the client changed stands at once. Of a block that goes back nothing is said where a datagram names windows; else
/// it stands. Where its client asked more than once, of none of these anything is said, and so of what was judged by a rollover.
pub fn worked_standing()
    ensures gone_on { (options : Named) → IsStanding PointKind.Client (worked_transfer 3000) false options (worked_changed true) (Some true) }
    ensures before { (options : Named) → IsStanding PointKind.Client (worked_transfer 3000) false options (worked_changed false) None }
    ensures own { (options : Named) → IsStanding PointKind.Client (worked_transfer 2000) false options (worked_changed false) (Some true) }
    ensures back { (sizes : Bool) → IsStanding PointKind.Client (worked_transfer 2000) false (record { windows = true; sizes = sizes }) (worked_view false) None }
    ensures lock_step { (sizes : Bool) → IsStanding PointKind.Client (worked_transfer 2000) false (record { windows = false; sizes = sizes }) (worked_view false) (Some true) }
    ensures asked_more { (options : Named) → IsStanding PointKind.Client (worked_transfer 3000) true options (worked_changed true) None }
    ensures said_once { (options : Named) → IsStanding PointKind.Client (worked_transfer 3000) true options (worked_changed true) (Some true) → ⊥ }
    ensures again { (rollover : Rollover) (options : Named) → IsStanding PointKind.Client (worked_transfer 3000) false options (record (worked_changed true) { rollover = Some rollover }) None }
{}

/// Of no datagram it is kept that each was recorded twice; and a transfer to whose client nothing came went one way.
pub fn worked_kept()
    ensures twice { (d : Doubted) (t : TrailKind) (x : Transfer) → AreKeptDoubts d t x [] [] → d.is_twice ≡ false }
    ensures one_way { (d : Doubted) (t : TrailKind) (x : Transfer) (named : List ℕ) (carried : List Carried) → AreKeptDoubts d t x named carried → t.is_answered ≡ false → d.is_one_way ≡ true }
{}

/// What is said to stand of a refusal between the ends does: no lawful list has the refused datagram after those before it, whatever
/// datagrams were missed. Of what is said not to stand that is not so, where what was recorded of the transfer begins with its
/// request.
pub fn what_stands_is_certain()
    ensures yes { (x : Transfer) (named : List ℕ) (carried : List Carried) (v : Viewed) → IsViewAt PointKind.Between x named carried v
        → (options : Named) → IsStanding PointKind.Between x (some_of x.number follows_request (whole_of named carried)) options v (Some true) → (number : ℕ) × (number_in v.found ≡ Some number) × IsCertainAt x (whole_of named carried) number }
    ensures no { (x : Transfer) (named : List ℕ) (carried : List Carried) (v : Viewed) → IsViewAt PointKind.Between x named carried v
        → (options : Named) → IsStanding PointKind.Between x (some_of x.number follows_request (whole_of named carried)) options v (Some false) → (number : ℕ) × (number_in v.found ≡ Some number) × IsOpenAt x (whole_of named carried) number }
{}

/// What is said to stand of a refusal at an end does: no lawful list has the refused datagram and those before it that were captured
/// there, whatever datagrams were missed. That a refusal does not stand is said of none, and by a rollover nothing is said.
pub fn what_stands_at_an_end_is_certain()
    ensures client { (x : Transfer) (named : List ℕ) (carried : List Carried) (v : Viewed) → IsViewAt PointKind.Client x named carried v
        → IsStanding PointKind.Client x (some_of x.number follows_request (whole_of named carried)) (named_in x (whole_of named carried)) v (Some true)
        → (number : ℕ) × (number_in v.found ≡ Some number) × IsCertainAtEnd (client_header x) (client_capture host_name x (whole_of named carried)) number }
    ensures server { (x : Transfer) (named : List ℕ) (carried : List Carried) (v : Viewed) → IsViewAt PointKind.Server x named carried v
        → IsStanding PointKind.Server x (some_of x.number follows_request (whole_of named carried)) (named_in x (whole_of named carried)) v (Some true)
        → (number : ℕ) × (number_in v.found ≡ Some number)
        × IsCertainAtEnd (server_header x) (server_capture host_name x (whole_of named carried) (whole_of named carried)) number }
    ensures never { (at : PointKind) (x : Transfer) (has_asked_more : Bool) (options : Named) (b : Option Blamed) (said : Result Meaning Refusal)
        → IsStandingAs at x has_asked_more options b (AtEnd said) (Some false) → ⊥ }
    ensures by_rollover { (at : PointKind) (x : Transfer) (has_asked_more : Bool) (options : Named) (v : Viewed) (stands : Option Bool) → v.rollover ≢ None
        → IsStanding at x has_asked_more options v stands → stands ≡ None }
{}
