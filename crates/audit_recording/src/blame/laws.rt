//! Laws of the definitions in `specs/`. Each is the contract of a function that does nothing.

ghost use Rattle.std.specs.Prelude.{◌≡◌, ◌∷◌, ℕ, List, [], None, Some, drop, false, take, true};
ghost use Rattle.std.specs.List.{list_any};
ghost use Rattle.net_udp.specs.declared.frames.checksum.Checksum.{Checksum};
ghost use Rattle.audit_flows.specs.Lines.{Placed};
ghost use Rattle.audit_flows.specs.Transfers.Doubts.{is_doubtful};
ghost use Rattle.audit_flows.specs.Transfers.Worked.{asked_twice, client, error_of, passes, server, told_another};
ghost use Rattle.audit_recording.specs.Blame.Several.{is_joined, may_be_several, worked_acks, worked_again, worked_next, worked_one};
ghost use Rattle.audit_recording.specs.Reasons.{Blamed, Doubted};
ghost use Rattle.audit_recording.specs.Reasons.Twice.{are_twice, worked_sent};
ghost use Rattle.audit_recording.specs.declared.blame.reason.Reason.TheVariants.{Late, Lost, OneWay, Twice};
ghost use Rattle.audit_recording.specs.Reasons.Listed.{IsBlamedAt, is_of_division, is_turned_away_in, missing_reasons, reasons_of, worked_blamed, worked_doubted};

/// A reason of the division is told of a refused datagram exactly where the division makes the refusal doubtful. So an accusation,
/// of which no reason is told, is none that the division doubts.
pub fn each_doubt_of_the_division_is_told()
    ensures told { (n : ℕ) (placed older : List Placed) (p : Placed) (d : Doubted) (b : Blamed) → d.doubts.number ≡ n → IsBlamedAt b n p older
        → list_any is_of_division (reasons_of placed d b) ≡ is_doubtful n placed p older }
    ensures accused { (n : ℕ) (placed older : List Placed) (p : Placed) (d : Doubted) (b : Blamed) → d.doubts.number ≡ n → IsBlamedAt b n p older
        → reasons_of placed d b ≡ [] → is_doubtful n placed p older ≡ false }
{}

/// A datagram in frame 5 that its client sent once it had asked again, of a transfer that was recorded twice: frame 4, which is lost,
/// is a reason too, and frame 6 is none, since what came later changes nothing. Of a transfer of one direction its request is still
/// refused. And one that stops early may have gone on in frame 9.
pub fn worked_reasons()
    ensures early { reasons_of [] (worked_doubted true false (Some 4)) (worked_blamed 5 true) ≡ Late ∷ Twice ∷ Lost 4 ∷ [] }
    ensures later { reasons_of [] (worked_doubted false false (Some 6)) (worked_blamed 5 false) ≡ [] }
    ensures answer { reasons_of [] (worked_doubted false true None) (worked_blamed 5 false) ≡ OneWay ∷ [] }
    ensures request { reasons_of [] (worked_doubted false true None) (worked_blamed 1 false) ≡ [] }
    ensures missing { missing_reasons (worked_doubted false false None) ≡ Lost 9 ∷ [] }
{}

/// Block 1 with block 2 behind it may be two datagrams that were recorded as one, and so may block 1 twice and two ACKs, the second of the next
/// round. A block in which another number stands is one, and so are a block alone, and fewer bytes than a head has.
pub fn worked_several()
    ensures next { may_be_several worked_next ≡ true }
    ensures again { may_be_several worked_again ≡ true }
    ensures acks { may_be_several worked_acks ≡ true }
    ensures one { may_be_several worked_one ≡ false }
    ensures alone { may_be_several (take 6 worked_next) ≡ false }
    ensures short { may_be_several (0 ∷ 3 ∷ 0 ∷ []) ≡ false }
    ensures right { is_joined Checksum.Right worked_next ≡ false }
{}

/// Of a client that asked twice, and answers the first block by an ERROR alone, a refusal is doubtful. It is not so where it acknowledges the
/// block, before an ERROR too, nor where it had asked once.
pub fn worked_turned_away()
    ensures error { is_turned_away_in (passes 4 client server (error_of 8) ∷ drop 1 asked_twice) ≡ true }
    ensures ack { is_turned_away_in asked_twice ≡ false }
    ensures both { is_turned_away_in (passes 5 client server (error_of 8) ∷ asked_twice) ≡ false }
    ensures once { is_turned_away_in (passes 4 client server (error_of 8) ∷ drop 2 told_another) ≡ false }
{}

/// Each of four datagrams that stand in pairs stands beside its equal, and so does each of five in a pair and a row of three. One that
/// comes last alone does not, nor does one between two pairs, nor do two that take turns; and of none it is not said.
pub fn worked_twice()
    ensures pairs { are_twice (worked_sent 2 ∷ worked_sent 2 ∷ worked_sent 1 ∷ worked_sent 1 ∷ []) ≡ true }
    ensures row { are_twice (worked_sent 2 ∷ worked_sent 2 ∷ worked_sent 2 ∷ worked_sent 1 ∷ worked_sent 1 ∷ []) ≡ true }
    ensures last { are_twice (worked_sent 2 ∷ worked_sent 1 ∷ worked_sent 1 ∷ []) ≡ false }
    ensures between { are_twice (worked_sent 3 ∷ worked_sent 3 ∷ worked_sent 2 ∷ worked_sent 1 ∷ worked_sent 1 ∷ []) ≡ false }
    ensures turns { are_twice (worked_sent 2 ∷ worked_sent 1 ∷ worked_sent 2 ∷ worked_sent 1 ∷ []) ≡ false }
    ensures none { are_twice [] ≡ false }
{}
