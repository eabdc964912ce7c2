//! Laws on how transfers end. Each is the contract of a function that does nothing.

ghost use Rattle.std.specs.Prelude.{◌≡◌, ◌∷◌, [], None, Some, codes};
ghost use Rattle.audit_flows.specs.Transfers.{asked_twice};
ghost use Rattle.audit_flows.specs.Transfers.Worked.{acked_error, begun_anew, told_another};
ghost use Rattle.audit_recording.specs.Blame.Worked.{in_even_frames};
ghost use Rattle.audit_recording.specs.Endings.Told.{error_in, last_of, seconds_since, stop_of};
ghost use Rattle.audit_recording.specs.Endings.Worked.{asked_first};
ghost use Rattle.tftp_packet.specs.{Client, Server};

/// Worked example: an ERROR has its code and its message, without the zero byte or where that is wanting. What is too short has no
/// code, and a block is no ERROR.
pub fn worked_errors()
    ensures whole { error_in (0 ∷ 5 ∷ 0 ∷ 2 ∷ 110 ∷ 111 ∷ 0 ∷ []) ≡ Some (2, codes "no") }
    ensures wanting { error_in (0 ∷ 5 ∷ 1 ∷ 2 ∷ 110 ∷ 111 ∷ []) ≡ Some (258, codes "no") }
    ensures short { error_in (0 ∷ 5 ∷ 0 ∷ []) ≡ None }
    ensures block { error_in (0 ∷ 3 ∷ 0 ∷ 2 ∷ 110 ∷ 0 ∷ []) ≡ None }
{}

/// Worked example: of a recording in frames 2, 4, 6 and so on. A server's ERROR ends a read, in frame 4, though the client
/// acknowledges it in frame 6. An ERROR 5 that the client tells another than its server ends nothing, nor does one before it has gone
/// on with anybody. A stranger's block, in frame 8, is not the last word: that is the client's ACK in frame 10.
pub fn worked_endings()
    ensures stopped { stop_of asked_first [] (in_even_frames (acked_error 1)) ≡ Some (record { role = Server; frame = 4; code = 1; message = [] }) }
    ensures acked { last_of asked_first [] (in_even_frames (acked_error 1)) ≡ Some (record { role = Client; frame = 6; time = Some 2000000000 }) }
    ensures another { stop_of asked_first [] (in_even_frames told_another) ≡ None }
    ensures early { stop_of asked_first [] (in_even_frames begun_anew) ≡ None }
    ensures last { last_of asked_first [] (in_even_frames asked_twice) ≡ Some (record { role = Client; frame = 10; time = Some 4000000000 }) }
    ensures seconds { seconds_since (Some 4000000000) 29900000000 ≡ 25 }
    ensures unknown { seconds_since None 29900000000 ≡ 0 }
{}
