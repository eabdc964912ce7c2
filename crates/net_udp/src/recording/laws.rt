ghost use Rattle.std.specs.Prelude.{◌≡◌, ◌⊎◌, ◌≤◌, ◌∷◌, ℕ, List, [], Some, None, true, false, length};
ghost use Rattle.std.specs.Global.{Vec};
ghost use Rattle.net_udp.specs.Fragments.{content_of, same_key};
ghost use Rattle.net_udp.specs.declared.fragments.content.Content.{Content};
ghost use Rattle.net_udp.specs.Frames.{acknowledgement, ipv4_bytes};
ghost use Rattle.net_udp.specs.declared.frames.checksum.Checksum.{Checksum};
ghost use Rattle.net_pcap.specs.{BeginsAsClassic, IsWrong, FaultKind, lost_of, may_lose};
ghost use Rattle.net_udp.specs.Recording.Accounts.{IsSettled, IsWaiting, NoneTwice, ToldOneWay};
ghost use Rattle.net_udp.specs.Recording.Brought.{key_of};
ghost use Rattle.net_udp.specs.Recording.Contents.{IsPutTogether};
ghost use Rattle.net_udp.specs.Recording.History.{IsHistory, RecordingState, StandsFor, Step, waiting};
ghost use Rattle.net_udp.specs.Recording.Fates.{IsDatagram, IsFateOf};
ghost use Rattle.net_udp.specs.Recording.OneWay.{AreToldAlike, IsRead, IsReadTo};
ghost use Rattle.net_udp.specs.Recording.Worked.{across_step, begun_step, cooked_step, ethernet_step, first_step, icmp_content, icmp_frame, last_named, last_part, last_step, left_bytes, part_of_icmp, part_of_udp, raw_frame, raw_step, recorded_raw, spoilt_acknowledgement, spoilt_bytes, spoilt_packet, worked_content};
ghost use Rattle.net_udp.specs.declared.recording.fate.Datagram.{Datagram};
ghost use Rattle.net_udp.specs.declared.recording.fate.Fate.{Fate};
ghost use Rattle.net_udp.specs.declared.recording.fate.LeftOut.{LeftOut};
ghost use Rattle.net_udp.specs.declared.recording.likeness.Likeness.{Likeness};

use crate::fragments::Outcome;
use crate::frames::FrameFault;

/// Each frame of a recording is accounted for, and none that is not of it: what became of it was told, or it waits still;
/// never both; and it was told with one frame alone.
pub fn each_frame_is_accounted_for_once()
    ensures each { (history : List Step) (n : ℕ) → IsHistory history → 1 ≤ n → n ≤ length history → IsSettled n history ⊎ IsWaiting n (waiting history) }
    ensures only { (history : List Step) (n : ℕ) → IsHistory history → IsSettled n history ⊎ IsWaiting n (waiting history) → (1 ≤ n) × (n ≤ length history) }
    ensures apart { (history : List Step) (n : ℕ) → IsHistory history → IsSettled n history → IsWaiting n (waiting history) → ⊥ }
    ensures one_way { (before : List Step) (step : Step) (n : ℕ) → IsHistory (step ∷ before) → ToldOneWay n step.brought }
    ensures once { (history : List Step) → IsHistory history → NoneTwice history }
{}

/// A content that was put together is given by fragments which frames of the recording brought, all of one key, and these
/// are the frames that it is told to be of.
pub fn content_is_of_its_frames()
    ensures { (before : List Step) (step : Step) (content : Content) (frames : Vec ℕ) → IsHistory (step ∷ before) → step.brought.outcome ≡ Some (Outcome.Whole content frames) → IsPutTogether (step ∷ before) (content_of content) frames.items }
{}

/// A recording that can't say that packets were lost is a classic one by its first bytes, and a classic one says of none that it was lost,
/// wherever its reader stands.
pub fn classic_recordings_lose_nothing()
    ensures begins { (reader : RecordingState) (bytes : List ℕ) (history : List Step) → StandsFor reader bytes history → may_lose reader.frames.pieces.mode.layout ≡ false → BeginsAsClassic bytes }
    ensures loses { (reader : RecordingState) (bytes : List ℕ) (history : List Step) → StandsFor reader bytes history → BeginsAsClassic bytes → lost_of reader.frames.pieces.mode ≡ 0 }
{}

/// A recording is read in one way: two readings of the same bytes tell the same of each of its frames, in order: the same
/// datagrams, the same frames left out for the same reasons, fragments that made room for the same frames, and the same
/// fault that ends it.
pub fn recording_is_read_in_one_way()
    ensures whole { (bytes : List ℕ) (some others : List Step) → IsRead bytes some → IsRead bytes others → AreToldAlike some others }
    ensures fault { (bytes : List ℕ) (some others : List Step) (one other : FaultKind) → IsWrong one → IsWrong other → IsReadTo one bytes some → IsReadTo other bytes others
        → AreToldAlike some others × (one ≡ other) }
    ensures apart { (bytes : List ℕ) (some others : List Step) (kind : FaultKind) → IsWrong kind → IsReadTo kind bytes some → IsRead bytes others → ⊥ }
{}

/// Worked example: an acknowledgement in two fragments (RFC 791, section 3.2). The first waits; the last gives the content of
/// both, of frames 1 and 2, and it is the datagram.
pub fn worked_fragments()
    ensures history { (content : Content) (frames : Vec ℕ) → content_of content ≡ worked_content → frames.items ≡ 1 ∷ 2 ∷ [] → IsHistory (last_step content frames ∷ first_step ∷ []) }
    ensures waits { IsFateOf first_step.frame first_step.likeness first_step.brought.outcome first_step.is_discarded Fate.Waits }
    ensures datagram { (content : Content) (frames : Vec ℕ) (d : Datagram) → content_of content ≡ worked_content → IsDatagram (last_step content frames).frame last_part acknowledgement d
        → IsFateOf (last_step content frames).frame Likeness.New (last_step content frames).brought.outcome false (Fate.Datagram d) }
{}

/// Worked examples: fragments that name ICMP (58) and UDP (17) are of one packet in IPv6, and not in IPv4. Where the last
/// fragment names ICMP and the first UDP, the packet is a datagram; where the first names ICMP, it is of another protocol
/// (RFC 8200, section 4.5).
pub fn worked_protocols()
    ensures ipv6 { key_of part_of_icmp last_named ≡ key_of part_of_udp last_named }
    ensures ipv4 { same_key (key_of (record last_part { protocol = 1 }) last_named) (key_of last_part last_named) ≡ false }
    ensures udp { (content : Content) (frames : Vec ℕ) (d : Datagram) → content_of content ≡ worked_content → IsDatagram icmp_frame part_of_icmp acknowledgement d
        → IsFateOf icmp_frame Likeness.New (Some (Outcome.Whole content frames)) false (Fate.Datagram d) }
    ensures icmp { (content : Content) (frames : Vec ℕ) → content_of content ≡ icmp_content
        → IsFateOf icmp_frame Likeness.New (Some (Outcome.Whole content frames)) false (Fate.Left (LeftOut.Frame FrameFault.Protocol)) }
{}

/// Worked example: a block of data in two fragments of IPv6, of which the second begins in the first. The bytes are the same
/// there, and yet no packet is put together of them (RFC 8200, section 4.5): both frames are left out, with the second.
pub fn worked_overlap()
    ensures history { (frames : Vec ℕ) → frames.items ≡ 1 ∷ [] → IsHistory (across_step frames ∷ begun_step ∷ []) }
    ensures left { (frames : Vec ℕ) → IsFateOf (across_step frames).frame Likeness.New (across_step frames).brought.outcome false (Fate.Left LeftOut.Apart) }
{}

/// Worked examples: a packet that is recorded in Ethernet, and 1 ms later at another interface, is a copy; at the same one, and
/// one nanosecond later still, it is a datagram again.
pub fn worked_copies()
    ensures copy { IsHistory (cooked_step Likeness.Copy 1 1000000000 1001000000 ∷ ethernet_step 1000000000 ∷ []) }
    ensures left { IsFateOf (cooked_step Likeness.Copy 1 1000000000 1001000000).frame Likeness.Copy (cooked_step Likeness.Copy 1 1000000000 1001000000).brought.outcome false (Fate.Left LeftOut.Copy) }
    ensures here { IsHistory (cooked_step Likeness.New 0 1000000000 1001000000 ∷ ethernet_step 1000000000 ∷ []) }
    ensures later { IsHistory (cooked_step Likeness.New 1 1000000000 1001000001 ∷ ethernet_step 1000000000 ∷ []) }
{}

/// Worked examples: an acknowledgement that was changed on its way is discarded where its sender had sent one with a right
/// checksum; not where it had sent none, nor where one had been left to its network card.
pub fn worked_discarded()
    ensures discarded { IsHistory (raw_step spoilt_bytes Checksum.Wrong true (recorded_raw ipv4_bytes ∷ []) ∷ raw_step ipv4_bytes Checksum.Right false [] ∷ []) }
    ensures fate { (d : Datagram) → IsDatagram (raw_frame spoilt_bytes) spoilt_packet spoilt_acknowledgement d → IsFateOf (raw_frame spoilt_bytes) Likeness.New None true (Fate.Discarded d) }
    ensures alone { IsHistory (raw_step spoilt_bytes Checksum.Wrong false [] ∷ []) }
    ensures left { IsHistory (raw_step spoilt_bytes Checksum.Wrong false (recorded_raw ipv4_bytes ∷ recorded_raw left_bytes ∷ []) ∷ raw_step ipv4_bytes Checksum.Right false (recorded_raw left_bytes ∷ [])
        ∷ raw_step left_bytes Checksum.Partial false [] ∷ []) }
{}
