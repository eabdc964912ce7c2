ghost use Rattle.std.specs.Prelude.{◌≡◌, ◌++◌, ℕ, List, [], ◌∷◌, false};
ghost use Rattle.net_pcap.specs.Frames.{FrameParts};
ghost use Rattle.net_pcap.specs.Pieces.{BeginsAsClassic, IsRecording, Mode, Said, lost_of, may_lose, next_mode};
ghost use Rattle.net_pcap.specs.Blocks.{SpellsStatistics};
ghost use Rattle.net_pcap.specs.History.{FailsAs, IsWrong, ReaderState, StandsFor};
ghost use Rattle.net_pcap.specs.declared.layout.Layout.{Layout};
ghost use Rattle.net_pcap.specs.declared.numbers.Order.{Order};
ghost use Rattle.net_pcap.specs.declared.fault.FaultKind.{FaultKind};
ghost use Rattle.net_pcap.specs.Worked.{after_all, counted, statistics_body, worked_blocks, worked_classic, worked_frame, worked_named, with_count};

/// Bytes are a recording of one list of frames at most.
pub fn recording_has_one_reading()
    ensures { (bytes : List ℕ) (some others : List FrameParts) → IsRecording bytes some → IsRecording bytes others → some ≡ others }
{}

/// Bytes with a fault, of the recording and not of its reader, are no recording.
pub fn fault_is_in_no_recording()
    ensures { (bytes : List ℕ) (some others : List FrameParts) (kind : FaultKind) → IsWrong kind → FailsAs bytes some kind → IsRecording bytes others → ⊥ }
{}

/// Bytes have one fault of the recording: the same frames come before it, and so it is at the same frame, and of one kind.
pub fn fault_is_one()
    ensures { (bytes : List ℕ) (some others : List FrameParts) (one other : FaultKind) → IsWrong one → IsWrong other → FailsAs bytes some one → FailsAs bytes others other → (some ≡ others) × (one ≡ other) }
{}

/// A recording that can't say that packets were lost is a classic one by its first bytes, and a classic one says of none that it was lost: so
/// it is once it is read, in part or whole, and at its fault.
pub fn classic_recordings_lose_nothing()
    ensures begins { (reader : ReaderState) (bytes : List ℕ) (frames : List FrameParts) → StandsFor reader bytes frames → may_lose reader.pieces.mode.layout ≡ false → BeginsAsClassic bytes }
    ensures loses { (reader : ReaderState) (bytes : List ℕ) (frames : List FrameParts) → StandsFor reader bytes frames → BeginsAsClassic bytes → lost_of reader.pieces.mode ≡ 0 }
    ensures goes_on { (bytes more : List ℕ) → BeginsAsClassic bytes → BeginsAsClassic (bytes ++ more) }
{}

/// A worked frame, an ACK, recorded by tcpdump and written by editcap of Wireshark: as a classic recording, and in blocks.
pub fn worked_recordings()
    ensures classic { IsRecording worked_classic (worked_frame 0 ∷ []) }
    ensures blocks { IsRecording worked_blocks (worked_frame 1 ∷ []) }
{}

/// Worked examples of what was lost. A statistics block of the first interface that says 3 packets dropped by it and 2 by the
/// operating system. Of two such blocks the greater counts, of packets' blocks the sum; of both the greater number; and what
/// was lost in one section and in the next is added.
pub fn worked_losses()
    ensures block { SpellsStatistics Order.Little (worked_named ∷ []) statistics_body (counted 5) }
    ensures none { lost_of (after_all (Said.Gives (with_count 0) ∷ [])) ≡ 0 }
    ensures greatest { lost_of (after_all (Said.Counts (counted 5) ∷ Said.Counts (counted 9) ∷ Said.Counts (counted 9) ∷ [])) ≡ 9 }
    ensures added { lost_of (after_all (Said.Gives (with_count 4) ∷ Said.Gives (with_count 0) ∷ Said.Gives (with_count 8) ∷ [])) ≡ 12 }
    ensures greater { lost_of (after_all (Said.Gives (with_count 4) ∷ Said.Counts (counted 5) ∷ Said.Gives (with_count 8) ∷ [])) ≡ 12 }
    ensures sections { lost_of (next_mode (after_all (Said.Counts (counted 5) ∷ [])) (Said.Opens (Layout.Blocks Order.Little))) ≡ 5 }
{}
