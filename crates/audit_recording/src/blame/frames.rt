//! Laws on the frames of what was seen at a point. Each is the contract of a function that does nothing.

ghost use Rattle.std.specs.Prelude.{◌≡◌, ◌∷◌, [], ℕ, List, None, Some, drop, false, option_map, true};
ghost use Rattle.net_udp.specs.declared.frames.checksum.Checksum.TheVariants.{Absent, Partial, Right, Wrong};
ghost use Rattle.audit_flows.specs.{Transfer};
ghost use Rattle.audit_flows.specs.Transfers.{asked_twice, client, placed};
ghost use Rattle.audit_flows.specs.Transfers.Worked.{acked_late, error_of, errors, passes, server, stranger, told_another, two_clients};
ghost use Rattle.audit_recording.specs.Blame.Facts.{blamed_of, has_gone_on};
ghost use Rattle.audit_recording.specs.Blame.Frames.{Carried, framed, framed_after, seen_as};
ghost use Rattle.audit_recording.specs.Blame.Kept.{IsTrailBetween, IsTrailOf, first_frame, is_about_it, is_spoilt};
ghost use Rattle.audit_recording.specs.Blame.Worked.{frame_of, in_even_frames, with_checksums};
ghost use Rattle.audit_recording.specs.declared.blame.trail.Trail.{Trail};
ghost use Rattle.audit_recording.specs.declared.judges.judging.Judging.{Judging};
ghost use Rattle.audit_recording.specs.declared.rows.row.Point.{Point};
ghost use Rattle.audit_views.specs.Views.{first_transfer};

/// A datagram that is not about a transfer tells nothing of it: what is kept of the transfer stands for the datagrams with that one
/// too.
pub fn what_is_not_about_a_transfer_changes_nothing()
    ensures ends { (t : Trail) (judging : Judging) (x : Transfer) (named : List ℕ) (c : Carried) (carried : List Carried) → is_about_it x.number (framed_after named carried c) ≡ false
        → IsTrailOf t judging x named carried → IsTrailOf t judging x named (c ∷ carried) }
    ensures between { (t : Trail) (judging : Judging) (x : Transfer) (named : List ℕ) (c : Carried) (carried : List Carried) → is_about_it x.number (framed_after named carried c) ≡ false
        → IsTrailBetween t judging x named carried → IsTrailBetween t judging x named (c ∷ carried) }
{}

/// Worked example: a read of one byte whose client asks twice, and which a stranger sends a block, in frames 2, 4, 6, 8 and 10.
/// The client's third datagram came in frame 6; its fourth, the stranger's, in frame 8, of which the server saw nothing: its
/// fourth came in frame 10, and it has no fifth.
pub fn worked_frames()
    ensures client { frame_of (seen_as Point.Client 0 [] (in_even_frames asked_twice) 3) ≡ Some 6 }
    ensures stray { frame_of (seen_as Point.Client 0 [] (in_even_frames asked_twice) 4) ≡ Some 8 }
    ensures server { frame_of (seen_as Point.Server 0 [] (in_even_frames asked_twice) 4) ≡ Some 10 }
    ensures none { frame_of (seen_as Point.Server 0 [] (in_even_frames asked_twice) 5) ≡ None }
    ensures between { frame_of (seen_as Point.Between 0 [] (in_even_frames asked_twice) 5) ≡ Some 10 }
{}

/// Worked example: the stranger's block, in frame 8, comes to a client that has been answered, from elsewhere; and its request
/// came before any answer. Where a client acknowledges a block of its first file once it has asked for a second one, that ACK is
/// late. An ERROR tells of strays after an ERROR 5, and not before it. What came to a client says nothing of whether it has gone on:
/// its own ACK does.
pub fn worked_blame()
    ensures stray { option_map (blamed_of first_transfer) (seen_as Point.Client 0 [] (in_even_frames asked_twice) 4)
        ≡ Some (record { frame = 8; is_late = false; is_beside = false; is_answered = true; has_gone_on = false; speaks_first = false; says_first_word = false; follows_unknown_id = false; tells_strays = false; comes_of_earlier = false; source = stranger }) }
    ensures request { option_map (blamed_of first_transfer) (seen_as Point.Server 0 [] (in_even_frames asked_twice) 1)
        ≡ Some (record { frame = 2; is_late = false; is_beside = false; is_answered = false; has_gone_on = false; speaks_first = false; says_first_word = false; follows_unknown_id = false; tells_strays = false; comes_of_earlier = false; source = client }) }
    ensures late { option_map (blamed_of first_transfer) (seen_as Point.Client 0 [] (in_even_frames acked_late) 3)
        ≡ Some (record { frame = 10; is_late = true; is_beside = false; is_answered = true; has_gone_on = true; speaks_first = false; says_first_word = false; follows_unknown_id = false; tells_strays = false; comes_of_earlier = false; source = client }) }
    ensures early_error { option_map (blamed_of first_transfer) (seen_as Point.Between 0 [] (in_even_frames errors) 4)
        ≡ Some (record { frame = 8; is_late = false; is_beside = false; is_answered = true; has_gone_on = true; speaks_first = false; says_first_word = false; follows_unknown_id = false; tells_strays = false; comes_of_earlier = false; source = client }) }
    ensures late_error { option_map (blamed_of first_transfer) (seen_as Point.Between 0 [] (in_even_frames errors) 6)
        ≡ Some (record { frame = 12; is_late = false; is_beside = false; is_answered = true; has_gone_on = true; speaks_first = false; says_first_word = false; follows_unknown_id = true; tells_strays = true; comes_of_earlier = false; source = client }) }
{}

/// Worked example: a client is sent a first block by two endpoints, and tells one of them ERROR 5. So far it has gone on with none. It
/// does by its ACK, and as well by an ERROR of another code.
pub fn worked_going_on()
    ensures before { has_gone_on first_transfer (placed [] (drop 1 told_another)) ≡ false }
    ensures ack { has_gone_on first_transfer (placed [] told_another) ≡ true }
    ensures error { has_gone_on first_transfer (placed [] (passes 4 client server (error_of 3) ∷ drop 1 told_another)) ≡ true }
{}

/// Worked example: of the same datagrams the checksums of frame 2 are right, frame 4 has none, that of frame 6 was left to its sender's
/// network card, and those of frames 8 and 10 are wrong: frame 8 is the first of the transfer with a wrong one. What another client sends
/// with a wrong one counts for nothing, but what a stranger sends to the server counts.
pub fn worked_spoilt()
    ensures first { first_frame (is_spoilt 0) (framed [] (with_checksums (Wrong ∷ Wrong ∷ Partial ∷ Absent ∷ Right ∷ []) (in_even_frames asked_twice))) ≡ Some 8 }
    ensures none { first_frame (is_spoilt 0) (framed [] (with_checksums (Right ∷ Right ∷ Partial ∷ Absent ∷ Right ∷ []) (in_even_frames asked_twice))) ≡ None }
    ensures others { first_frame (is_spoilt 0) (framed [] (with_checksums (Right ∷ Wrong ∷ Wrong ∷ Right ∷ Right ∷ Right ∷ Wrong ∷ []) (in_even_frames two_clients))) ≡ Some 14 }
{}
