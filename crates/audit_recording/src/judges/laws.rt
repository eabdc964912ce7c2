//! Laws of the definitions in `specs/`. Each is the contract of a function that does nothing.

ghost use Rattle.std.specs.Prelude.{◌≡◌, [], ◌∷◌, None, Some, false, true};
ghost use Rattle.audit_recording.specs.Judges.Kept.{opened};
ghost use Rattle.audit_recording.specs.Judges.Points.{is_loopback, points_of, rollover_of};
ghost use Rattle.audit_recording.specs.declared.judges.judging.Judging.{Judging};
ghost use Rattle.audit_recording.specs.declared.judges.judging.Points.{Points};
ghost use Rattle.tftp_packet.specs.{Rollover};
ghost use Rattle.audit_flows.specs.Transfers.{placed, asked_twice};
ghost use Rattle.audit_flows.specs.Lines.{same_address};
ghost use Rattle.audit_flows.specs.{Transfer, V4, V6};
ghost use Rattle.audit_views.specs.Views.{first_transfer};

/// Of a request that is sent twice the first one opens a transfer, and no other datagram does.
pub fn worked_openings()
    ensures first { opened 0 (placed [] asked_twice) ≡ Some first_transfer }
    ensures second { opened 1 (placed [] asked_twice) ≡ None }
{}

/// Where no place is named a transfer is judged between its ends, and at both ends of a host that asks itself too; but of what
/// never left the host at the ends alone.
pub fn worked_points()
    ensures one { (x : Transfer) → same_address x.client.address x.asked.address ≡ true → is_loopback x.client.address ≡ false
        → points_of Judging.WhereRecorded x ≡ record { client = true; server = true; between = true } }
    ensures inside { (x : Transfer) → same_address x.client.address x.asked.address ≡ true → is_loopback x.client.address ≡ true
        → points_of Judging.WhereRecorded x ≡ record { client = true; server = true; between = false } }
    ensures two { points_of Judging.WhereRecorded first_transfer ≡ record { client = false; server = false; between = true } }
{}

/// Where no place is named, only what never left a host is taken for recorded there.
pub fn what_may_leave_a_host_is_judged_between()
    ensures { (x : Transfer) (points : Points) → points_of Judging.WhereRecorded x ≡ points → points.between ≡ false
        → (same_address x.client.address x.asked.address ≡ true) × (is_loopback x.client.address ≡ true) }
{}

/// A rollover is known where one is named, and nowhere else.
pub fn worked_rollovers()
    ensures client { (rollover : Rollover) → rollover_of (Judging.ClientBy rollover) ≡ Some rollover }
    ensures server { (rollover : Rollover) → rollover_of (Judging.ServerBy rollover) ≡ Some rollover }
    ensures between { (rollover : Rollover) → rollover_of (Judging.BetweenBy rollover) ≡ Some rollover }
    ensures client_alone { rollover_of Judging.Client ≡ None }
    ensures server_alone { rollover_of Judging.Server ≡ None }
    ensures between_alone { rollover_of Judging.Between ≡ None }
    ensures where_recorded { rollover_of Judging.WhereRecorded ≡ None }
    ensures nowhere { rollover_of Judging.Nowhere ≡ None }
{}

/// Where a rollover is named, a transfer is judged at the point where it is named, and there alone.
pub fn with_a_rollover_one_point_is_judged()
    ensures client { (x : Transfer) (rollover : Rollover) → points_of (Judging.ClientBy rollover) x ≡ record { client = true; server = false; between = false } }
    ensures server { (x : Transfer) (rollover : Rollover) → points_of (Judging.ServerBy rollover) x ≡ record { client = false; server = true; between = false } }
    ensures between { (x : Transfer) (rollover : Rollover) → points_of (Judging.BetweenBy rollover) x ≡ record { client = false; server = false; between = true } }
{}

/// 127.0.0.1 and 127.255.255.254 never leave a host, nor does ::1; 126.0.0.1, 128.0.0.1, ::2 and 7f00::1 do.
pub fn worked_loopbacks()
    ensures four { is_loopback (V4 (127 ∷ 0 ∷ 0 ∷ 1 ∷ [])) ≡ true }
    ensures all_of_them { is_loopback (V4 (127 ∷ 255 ∷ 255 ∷ 254 ∷ [])) ≡ true }
    ensures below { is_loopback (V4 (126 ∷ 0 ∷ 0 ∷ 1 ∷ [])) ≡ false }
    ensures above { is_loopback (V4 (128 ∷ 0 ∷ 0 ∷ 1 ∷ [])) ≡ false }
    ensures six { is_loopback (V6 (0 ∷ 0 ∷ 0 ∷ 0 ∷ 0 ∷ 0 ∷ 0 ∷ 0 ∷ 0 ∷ 0 ∷ 0 ∷ 0 ∷ 0 ∷ 0 ∷ 0 ∷ 1 ∷ [])) ≡ true }
    ensures next { is_loopback (V6 (0 ∷ 0 ∷ 0 ∷ 0 ∷ 0 ∷ 0 ∷ 0 ∷ 0 ∷ 0 ∷ 0 ∷ 0 ∷ 0 ∷ 0 ∷ 0 ∷ 0 ∷ 2 ∷ [])) ≡ false }
    ensures other { is_loopback (V6 (127 ∷ 0 ∷ 0 ∷ 0 ∷ 0 ∷ 0 ∷ 0 ∷ 0 ∷ 0 ∷ 0 ∷ 0 ∷ 0 ∷ 0 ∷ 0 ∷ 0 ∷ 1 ∷ [])) ≡ false }
{}
