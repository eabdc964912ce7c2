//! Laws of the definitions in `specs/`. Each is the contract of a function that does nothing.

ghost use Rattle.std.specs.Prelude.{◌≡◌, ◌≤◌, ◌+◌, ◌++◌, ◌==◌, ◌||◌, ◌∷◌, ℕ, List, [], None, Some, codes, false, length, map, true};
ghost use Rattle.std.specs.Global.{Vec};
ghost use Rattle.std.specs.List.{AllByRecursion, list_any};
ghost use Rattle.net_pcap.specs.{BeginsAsOne, NotARecording, Truncated};
ghost use Rattle.net_udp.specs.Fragments.{content_of};
ghost use Rattle.net_udp.specs.Frames.{acknowledgement};
ghost use Rattle.net_udp.specs.Recording.{IsDatagram, IsHistory, Step, begun_step, last_bytes, last_part, waiting, worked_content};
ghost use Rattle.net_udp.specs.declared.fragments.content.Content.{Content};
ghost use Rattle.net_udp.specs.declared.frames.unread.UnreadHeader.TheVariants.{MacSec};
ghost use Rattle.net_udp.specs.declared.recording.fate.Datagram.{Datagram};
ghost use Rattle.audit_flows.specs.{Address, V4};
ghost use Rattle.audit_flows.specs.Transfers.{ack_of, client, placed, read_of, service};
ghost use Rattle.audit_flows.specs.Transfers.Worked.{server, two_clients};
ghost use Rattle.tftp_packet.specs.{Client};
ghost use Rattle.audit_recording.specs.declared.session.losses.Stretch.{Stretch};
ghost use Rattle.audit_recording.specs.Losses.Noted.{Event, IsMissingOf, MayMiss, Unread, is_of_host, is_of_none, is_soon, lost_by, unread, waiting_at};
ghost use Rattle.audit_recording.specs.Losses.Noted.Event.{Asks, Finds, GivesUp, Loses, Waits};
ghost use Rattle.audit_recording.specs.Reasons.Clock.{HaveReached};
ghost use Rattle.audit_recording.specs.Reasons.Unplaced.{after, latest_at, newest_of, worked_end};
ghost use Rattle.audit_recording.specs.Reasons.Unplaced.Event.{Ends, Opens, Passes};
ghost use Rattle.audit_recording.specs.Audit.Passed.{HasPassed};
ghost use Rattle.audit_recording.specs.Blame.Frames.{Carried, datagrams_of};
ghost use Rattle.audit_flows.specs.Lines.{silence};
ghost use Rattle.audit_recording.specs.Endings.Worked.{asked_first};
ghost use Rattle.audit_recording.specs.Session.Beside.{apart_at, asked_next, discarded_beside, gone_at, left_out_of, worked_marks};
ghost use Rattle.audit_recording.specs.Session.Beside.Mark.{Begins};
ghost use Rattle.audit_recording.specs.Session.Headed.{is_recording};
ghost use Rattle.audit_recording.specs.Session.Heard.{told_of, undelivered_in};
ghost use Rattle.audit_recording.specs.Session.Lines.{begun_told, behind_told, behind_words, dropped_lines, fault_lines, left_out_lines, lines_of, pair_lines, ports_text};
ghost use Rattle.audit_recording.specs.Session.Hidden.{hidden_frames};
ghost use Rattle.audit_recording.specs.Session.Noted.{AreUpTo, Noticed, frames_in, giving_up, going_back, told_in};
ghost use Rattle.audit_recording.specs.Session.Opened.{BeginsNot};
ghost use Rattle.audit_recording.specs.Session.Over.{AreLater, IsPast};
ghost use Rattle.audit_recording.specs.Session.Recording.{IsNoticedOf};
ghost use Rattle.audit_recording.specs.Session.Strays.{asked_ports, begun_pairs, goes_on};
ghost use Rattle.audit_recording.specs.Session.Told.{AreApart, AreEachOnce, AreEarlier, AreOfOneKind, AreOnce, IsLostAlone, nothing_told};
ghost use Rattle.audit_recording.specs.Session.Texts.{frame_text, heading_text, ordinal};
ghost use Rattle.audit_recording.specs.Session.Worked.{ack_carried, at_second, begun_noticed, block_1, frame_at, many_strays, request, request_bytes, request_carried, request_packet, stray_at, told_noticed, told_steps, torn_noticed, torn_steps, worked_hidden, worked_noticed, worked_steps, worked_strays};
ghost use Rattle.audit_recording.specs.Session.Discards.{before_opening, newest_at, worked_gone};

/// A frame of other hosts that is lost, or that waits, makes nothing more missing of a client's host.
pub fn what_others_lose_is_not_missing()
    ensures lost { (host : Address) (f : Unread) (history : List Event) (n time : ℕ) → (is_of_host host f || is_of_none f) ≡ false
        → IsMissingOf host (Loses f ∷ history) n time → IsMissingOf host history n time }
    ensures waits { (host : Address) (f : Unread) (history : List Event) (n time : ℕ) → (is_of_host host f || is_of_none f) ≡ false
        → IsMissingOf host (Waits f ∷ history) n time → IsMissingOf host history n time }
{}

/// Of a transfer that is past nothing that comes later is missing: what is missing then, among its datagrams or up to 300 s after
/// them, was missing before. And what was missing up to 300 s after them stays so.
pub fn nothing_later_is_missing_of_what_is_past()
    ensures whole { (w : Stretch) (newest moment : ℕ) (history : List Event) → w.last ≤ newest → IsPast w moment history
        → (later : List Event) → AreLater newest moment later
        → (n time : ℕ) → IsMissingOf w.client (later ++ history) n time → is_soon w n time ≡ true → IsMissingOf w.client history n time }
    ensures missing { (w : Stretch) (newest moment : ℕ) (history : List Event) → AreUpTo newest history → w.last ≤ newest → IsPast w moment history
        → (later : List Event) → AreLater newest moment later
        → (n time : ℕ) → IsMissingOf w.client history n time → time ≤ w.last_time + silence → IsMissingOf w.client (later ++ history) n time }
{}

/// Of a transfer whose last datagram passed at second 10 all is told once the clock has gone beyond second 310, or beyond second 340
/// where frame 9, of unknown hosts, waits.
pub fn worked_past()
    ensures soon { IsPast (record { client = V4 (192 ∷ 0 ∷ 2 ∷ 1 ∷ []); first = 3; last = 6; last_time = 10000000000 }) 310000000000 [] → ⊥ }
    ensures past { IsPast (record { client = V4 (192 ∷ 0 ∷ 2 ∷ 1 ∷ []); first = 3; last = 6; last_time = 10000000000 }) 310000000001 [] }
    ensures waits { IsPast (record { client = V4 (192 ∷ 0 ∷ 2 ∷ 1 ∷ []); first = 3; last = 6; last_time = 10000000000 }) 340000000000 (Waits (unread 9 20000000000) ∷ []) → ⊥ }
    ensures waited { IsPast (record { client = V4 (192 ∷ 0 ∷ 2 ∷ 1 ∷ []); first = 3; last = 6; last_time = 10000000000 }) 340000000001 (Waits (unread 9 20000000000) ∷ []) }
{}

/// Frame 8 waits from second 1 on. Given up it is lost; found up to 30 s later it is not, and later it stays so. Its hosts are unknown, so
/// that it may be of each.
pub fn worked_losses()
    ensures waits { waiting_at 8 (Asks (V4 (192 ∷ 0 ∷ 2 ∷ 1 ∷ [])) 9 ∷ Waits (unread 8 1000000000) ∷ []) ≡ Some (unread 8 1000000000) }
    ensures ended { waiting_at 8 (GivesUp 8 ∷ Waits (unread 8 1000000000) ∷ []) ≡ None }
    ensures lost { lost_by (GivesUp 8) (Waits (unread 8 1000000000) ∷ []) ≡ Some (unread 8 1000000000) }
    ensures other { lost_by (GivesUp 7) (Waits (unread 8 1000000000) ∷ []) ≡ None }
    ensures found { lost_by (Finds 8 31000000000) (Waits (unread 8 1000000000) ∷ []) ≡ None }
    ensures late { lost_by (Finds 8 31000000001) (Waits (unread 8 1000000000) ∷ []) ≡ Some (unread 8 1000000000) }
    ensures unknown { is_of_none (unread 8 1000000000) ≡ true }
{}

/// Of a transfer in frames 3 to 6, the last at second 10, frame 5 is missing soon enough whenever it passed, and frame 9 up to second 310.
pub fn worked_stretch()
    ensures among { is_soon (record { client = V4 (192 ∷ 0 ∷ 2 ∷ 1 ∷ []); first = 3; last = 6; last_time = 10000000000 }) 5 999000000000 ≡ true }
    ensures soon { is_soon (record { client = V4 (192 ∷ 0 ∷ 2 ∷ 1 ∷ []); first = 3; last = 6; last_time = 10000000000 }) 9 310000000000 ≡ true }
    ensures later { is_soon (record { client = V4 (192 ∷ 0 ∷ 2 ∷ 1 ∷ []); first = 3; last = 6; last_time = 10000000000 }) 9 310000000001 ≡ false }
    ensures missed { MayMiss (record { client = V4 (192 ∷ 0 ∷ 2 ∷ 1 ∷ []); first = 3; last = 6; last_time = 10000000000 }) (Loses (unread 9 310000000000) ∷ []) }
{}

/// Of times 4, 30, 5 and 9, in this order, two in a row have reached 5, but not 6: 30 alone may be wrong.
pub fn worked_clock()
    ensures reached { HaveReached (9 ∷ 5 ∷ 30 ∷ 4 ∷ []) 5 }
    ensures alone { HaveReached (9 ∷ 5 ∷ 30 ∷ 4 ∷ []) 6 → ⊥ }
{}

/// Of two datagrams of no transfer at a client's endpoint the first is told, which has the later time; one that is no packet is not. A
/// transfer that opens before that time may have been asked for by then. And the newest transfer of a client is known until it ends.
pub fn worked_unplaced()
    ensures latest { latest_at (worked_end 2000) (Passes (worked_end 69) (worked_end 2000) (0 ∷ 4 ∷ 0 ∷ 1 ∷ []) (record { frame = 7; time = 30 })
        ∷ Passes (worked_end 2000) (worked_end 69) (0 ∷ 3 ∷ 0 ∷ 1 ∷ []) (record { frame = 5; time = 40 }) ∷ []) ≡ Some (record { frame = 5; time = 40 }) }
    ensures packet { latest_at (worked_end 2000) (Passes (worked_end 69) (worked_end 2000) (0 ∷ 7 ∷ 0 ∷ 1 ∷ []) (record { frame = 7; time = 30 }) ∷ []) ≡ None }
    ensures elsewhere { latest_at (worked_end 2001) (Passes (worked_end 69) (worked_end 2000) (0 ∷ 4 ∷ 0 ∷ 1 ∷ []) (record { frame = 7; time = 30 }) ∷ []) ≡ None }
    ensures before { after 30 (Some (record { frame = 5; time = 40 })) ≡ Some 5 }
    ensures at_once { after 40 (Some (record { frame = 5; time = 40 })) ≡ None }
    ensures ended { newest_of (worked_end 2000) (Ends (worked_end 2000) 3 ∷ Opens (worked_end 2000) 3 ∷ []) ≡ None }
    ensures goes_on { newest_of (worked_end 2000) (Ends (worked_end 2000) 3 ∷ Opens (worked_end 2000) 5 ∷ Opens (worked_end 2000) 3 ∷ []) ≡ Some 5 }
{}

/// What is of no client's line may have been of a transfer, if it came before its request and has a later time, or if it passed at most
/// 300 s after its last datagram; but not once its client had opened another. Of those that were discarded the newest before the request
/// counts, which came at most 300 s before, and each that came since, the first of all.
pub fn worked_beside()
    ensures later { left_out_of 0 (Begins asked_first 10000000000 ∷ apart_at 3 11 ∷ []) ≡ Some 3 }
    ensures earlier { left_out_of 0 (Begins asked_first 12000000000 ∷ apart_at 3 11 ∷ []) ≡ None }
    ensures within { left_out_of 0 (apart_at 9 100 ∷ apart_at 7 320 ∷ worked_marks) ≡ Some 7 }
    ensures too_late { left_out_of 0 (apart_at 7 321 ∷ worked_marks) ≡ None }
    ensures the_next { left_out_of 0 (apart_at 7 31 ∷ asked_next ∷ worked_marks) ≡ None }
    ensures of_next { left_out_of 3 (apart_at 7 31 ∷ asked_next ∷ worked_marks) ≡ Some 7 }
    ensures before { discarded_beside 0 (Begins asked_first 310000000000 ∷ gone_at 4 10 ∷ gone_at 2 9 ∷ []) ≡ Some 4 }
    ensures long_before { discarded_beside 0 (Begins asked_first 310000000001 ∷ gone_at 4 10 ∷ []) ≡ None }
    ensures since { discarded_beside 0 (gone_at 9 22 ∷ gone_at 7 21 ∷ worked_marks) ≡ Some 7 }
    ensures gone_next { discarded_beside 0 (gone_at 9 31 ∷ asked_next ∷ worked_marks) ≡ None }
    ensures gone_of_next { discarded_beside 3 (gone_at 9 31 ∷ asked_next ∷ worked_marks) ≡ Some 9 }
{}

/// The request of transfer 0 came in frame 2. What a later frame tells of it, or of what the asked port sends back, is of that transfer,
/// and the newest counts; not what was told before, and not what is told of a port from which nothing came.
pub fn worked_undelivered()
    ensures there { undelivered_in asked_first [] (request_carried ∷ []) (told_of 3 client service ∷ []) ≡ Some (told_of 3 client service) }
    ensures back { undelivered_in asked_first [] (request_carried ∷ []) (told_of 3 service client ∷ []) ≡ Some (told_of 3 service client) }
    ensures newest { undelivered_in asked_first [] (request_carried ∷ []) (told_of 5 service client ∷ told_of 3 client service ∷ []) ≡ Some (told_of 5 service client) }
    ensures before { undelivered_in asked_first [] (request_carried ∷ []) (told_of 1 client service ∷ []) ≡ None }
    ensures elsewhere { undelivered_in asked_first [] (request_carried ∷ []) (told_of 3 client server ∷ []) ≡ None }
{}

/// What was discarded in frame 7 at second 10 may have been of a transfer that is opened up to second 310, and of none later.
pub fn worked_discarded()
    ensures source { newest_at worked_gone.source (worked_gone ∷ []) ≡ Some worked_gone }
    ensures target { newest_at worked_gone.target (worked_gone ∷ []) ≡ Some worked_gone }
    ensures elsewhere { newest_at (worked_end 2001) (worked_gone ∷ []) ≡ None }
    ensures soon { before_opening 310000000000 (Some worked_gone) ≡ Some 7 }
    ensures later { before_opening 310000000001 (Some worked_gone) ≡ None }
{}

/// What is noticed of a recording is of the datagrams that its frames have given.
pub fn what_is_noticed_has_passed()
    ensures { (named : List ℕ) (history : List Step) (carried : List Carried) (s : Noticed) → IsNoticedOf named history carried s → HasPassed history (datagrams_of carried) }
{}

/// A fragment that waits for others of its packet waits once: its frame stands in one set, and once there. What a frame lets go, since it
/// is too old or to make room, and what waits after it are apart, each once.
pub fn each_fragment_waits_once()
    ensures waits { (history : List Step) → IsHistory history → AreEachOnce (frames_in (waiting history)) }
    ensures goes { (before : List Step) (step : Step) → IsHistory (step ∷ before) → AreEachOnce (step.brought.old ++ frames_in step.brought.ousted ++ frames_in step.waits) }
{}

/// A frame is told once as a copy, as discarded, as one of another link type, as one of no transfer, and as older than the one before:
/// and it is a frame of the recording. As a copy, as discarded, as one of another link type, or as one of no transfer: as one of
/// these alone. One that is not there whole is told once, whether it was lost at once, was given up, or still waits at the end; and as
/// nothing else.
pub fn each_frame_is_told_once()
    ensures once { (named : List ℕ) (history : List Step) (carried : List Carried) (s : Noticed) → IsNoticedOf named history carried s → AreOnce (length history + 1) (told_in s) }
    ensures alone { (named : List ℕ) (history : List Step) (carried : List Carried) (s : Noticed) → IsNoticedOf named history carried s → AreOfOneKind (told_in s) }
    ensures lost_once { (named : List ℕ) (history : List Step) (carried : List Carried) (s : Noticed) → IsHistory history → IsNoticedOf named history carried s
        → AreEachOnce (told_in (giving_up (frames_in (waiting history)) s)).lost }
    ensures lost_alone { (named : List ℕ) (history : List Step) (carried : List Carried) (s : Noticed) → IsHistory history → IsNoticedOf named history carried s
        → IsLostAlone (told_in (giving_up (frames_in (waiting history)) s)) }
    ensures lost_within { (named : List ℕ) (history : List Step) (carried : List Carried) (s : Noticed) → IsHistory history → IsNoticedOf named history carried s
        → AllByRecursion (λ n. (1 ≤ n) × (n ≤ length history)) (told_in (giving_up (frames_in (waiting history)) s)).lost }
{}

/// A frame that is told behind a header is told there once, behind one header alone: and it is a frame of the recording, which is told as one
/// that is not there whole.
pub fn each_frame_is_behind_one_header()
    ensures once { (named : List ℕ) (history : List Step) (carried : List Carried) (s : Noticed) → IsNoticedOf named history carried s
        → AreEarlier (length history + 1) (hidden_frames s.hidden) }
    ensures lost { (named : List ℕ) (history : List Step) (carried : List Carried) (s : Noticed) → IsNoticedOf named history carried s
        → AllByRecursion (λ n. list_any (λ lost. lost == n) (told_in s).lost ≡ true) (hidden_frames s.hidden) }
{}

/// A file that begins as a recording is not said to be none.
pub fn what_begins_as_a_recording_is_not_said_to_be_none()
    ensures { (bytes : List ℕ) → BeginsAsOne bytes → BeginsNot (Some bytes) NotARecording → ⊥ }
{}

/// An empty file is no recording, and neither is a capture text.
pub fn worked_unread()
    ensures empty { BeginsNot (Some []) NotARecording }
    ensures text { BeginsNot (Some (codes "tftp-capture 1\n")) NotARecording }
{}

/// Of four frames the first is a fragment that waits; in the second its client asks for a file, and opens a transfer; with the third the
/// packet of the first is there whole, which is an acknowledgement of that transfer; and the fourth, which tells no time, is lost.
pub fn worked_recording()
    ensures { (content : Content) (frames : Vec ℕ) (asked acked : Datagram) → content_of content ≡ worked_content → frames.items ≡ 1 ∷ 3 ∷ []
        → IsDatagram (frame_at (at_second 2) request_bytes) request_packet request asked
        → IsDatagram (frame_at (at_second 3) last_bytes) last_part acknowledgement acked
        → IsNoticedOf [] (worked_steps content frames) (ack_carried ∷ request_carried ∷ []) worked_noticed }
{}

/// Of three frames the first is lost, the second is a copy, and the third of another link type: each is told once, and so as text.
pub fn worked_told()
    ensures noticed { IsNoticedOf [] told_steps [] told_noticed }
    ensures left_out { left_out_lines (told_in told_noticed)
        ≡ codes "1 datagram left out as copies (frame 2)" ∷ codes "1 datagram of another link type (frame 3)" ∷ [] }
    ensures lost { lines_of (told_in told_noticed).lost (codes "not there whole, so that datagrams may be missing")
        ≡ codes "1 datagram not there whole, so that datagrams may be missing (frame 1)" ∷ [] }
{}

/// Frames are told as many as they are, and the first five by their numbers; of none there is no line.
pub fn worked_lines()
    ensures none { lines_of [] (codes "left out as copies") ≡ [] }
    ensures two { lines_of (8 ∷ 3 ∷ []) (codes "left out as copies") ≡ codes "2 datagrams left out as copies (frames 3, 8)" ∷ [] }
    ensures five { lines_of (8 ∷ 6 ∷ 5 ∷ 3 ∷ 2 ∷ []) (codes "of another link type") ≡ codes "5 datagrams of another link type (frames 2, 3, 5, 6, 8)" ∷ [] }
    ensures six { lines_of (9 ∷ 8 ∷ 6 ∷ 5 ∷ 3 ∷ 2 ∷ []) (codes "of another link type") ≡ codes "6 datagrams of another link type (frames 2, 3, 5, 6, 8 ..)" ∷ [] }
{}

/// What is told of a recording beside its frames: a transfer that began before it, a header that is not read, how many packets its
/// recorder lost, where the reading stopped, and the ports at which something looks like a request.
pub fn worked_notes()
    ensures begun { pair_lines (record { one = worked_end 2000; other = worked_end 69; count = 3; first = 1; last = 12 })
        ≡ codes "3 datagrams between 192.0.2.1:2000 and 192.0.2.1:69 look like a transfer that began before the recording (frames 1 to 12)" ∷ [] }
    ensures few { pair_lines (record { one = worked_end 2000; other = worked_end 69; count = 2; first = 1; last = 12 }) ≡ [] }
    ensures behind { behind_words MacSec ≡ codes "behind MACsec (IEEE 802.1AE), which is not read" }
    ensures dropped { dropped_lines 1 ≡ codes "the recorder lost 1 packet, so that datagrams may be missing" ∷ [] }
    ensures kept { dropped_lines 0 ≡ [] }
    ensures fault { fault_lines (Some (record { kind = Truncated; frame = 12 })) ≡ codes "frame 12: the recording is cut" ∷ [] }
    ensures ports { ports_text (69 ∷ 1069 ∷ []) ≡ Some (codes " 69, 1069") }
    ensures no_port { ports_text [] ≡ None }
{}

/// Frames behind two headers are told in a line for each, that of the header first that came first; of none there is no line.
pub fn worked_headers()
    ensures two { behind_told worked_hidden
        ≡ codes "2 datagrams behind ESP (RFC 4303), which is not read (frames 2, 7)" ∷ codes "1 datagram behind MACsec (IEEE 802.1AE), which is not read (frame 5)" ∷ [] }
    ensures none { behind_told [] ≡ [] }
{}

/// A block, its ACK and the block once more pass between two endpoints, whichever way they go, and the request beside them between two
/// others: so three of them look like a transfer that began before the recording, and the request names its port, once. Of 17 pairs of
/// endpoints the first 16 are told.
pub fn worked_strays()
    ensures begun { begun_told worked_strays
        ≡ codes "3 datagrams between 192.0.2.1:69 and 192.0.2.1:2000 look like a transfer that began before the recording (frames 2 to 5)" ∷ [] }
    ensures few { begun_told (stray_at 2000 69 (ack_of 1) 3 ∷ stray_at 69 2000 block_1 2 ∷ []) ≡ [] }
    ensures request { goes_on (read_of (97 ∷ [])) ≡ false }
    ensures short { goes_on (0 ∷ 3 ∷ 0 ∷ []) ≡ false }
    ensures many { map (λ pair. pair.first) (begun_pairs many_strays) ≡ 1 ∷ 2 ∷ 3 ∷ 4 ∷ 5 ∷ 6 ∷ 7 ∷ 8 ∷ 9 ∷ 10 ∷ 11 ∷ 12 ∷ 13 ∷ 14 ∷ 15 ∷ 16 ∷ [] }
    ensures ports { asked_ports worked_strays ≡ 1069 ∷ [] }
    ensures once { asked_ports (stray_at 2001 1069 (read_of (98 ∷ [])) 6 ∷ worked_strays) ≡ 1069 ∷ [] }
{}

/// A frame that is told twice is refused, and one that is told as two things. At the time of the datagram before it none goes back.
pub fn worked_once()
    ensures once { AreEarlier 4 (3 ∷ 2 ∷ []) }
    ensures twice { AreEarlier 4 (2 ∷ 2 ∷ []) → ⊥ }
    ensures apart { AreApart (2 ∷ []) (3 ∷ []) }
    ensures both { AreApart (3 ∷ 2 ∷ []) (2 ∷ []) → ⊥ }
    ensures back { going_back 3 (Some 4) (5 ∷ []) (1 ∷ []) ≡ 3 ∷ 1 ∷ [] }
    ensures same_time { going_back 3 (Some 5) (5 ∷ []) (1 ∷ []) ≡ 1 ∷ [] }
{}

/// Of a packet of IPv6 in two fragments that overlap the first waits, and with the second both are lost: each is told once. Had the
/// recording ended before, the first alone would be. What is told twice is refused, and what is told as lost and as a copy.
pub fn worked_lost()
    ensures waits { IsNoticedOf [] (begun_step ∷ []) [] begun_noticed }
    ensures ended { (told_in (giving_up (frames_in begun_step.waits) begun_noticed)).lost ≡ 1 ∷ [] }
    ensures history { (frames : Vec ℕ) → frames.items ≡ 1 ∷ [] → IsHistory (torn_steps frames) }
    ensures torn { (frames : Vec ℕ) → frames.items ≡ 1 ∷ [] → IsNoticedOf [] (torn_steps frames) [] torn_noticed }
    ensures lost { (frames : Vec ℕ) → (told_in (giving_up (frames_in (waiting (torn_steps frames))) torn_noticed)).lost ≡ 2 ∷ 1 ∷ [] }
    ensures once { AreEachOnce (2 ∷ 1 ∷ []) }
    ensures twice { AreEachOnce (1 ∷ 2 ∷ 1 ∷ []) → ⊥ }
    ensures copy { IsLostAlone (record nothing_told { copies = 2 ∷ []; lost = 2 ∷ 1 ∷ [] }) → ⊥ }
{}

/// What is said of a datagram in frame 12, at 50 ms behind a second or at no time; which transfer of two the second client's is; and the
/// heading of a text.
pub fn worked_texts()
    ensures told { frame_text 12 (Some 1700000000050000000) ≡ codes "frame 12 time 1700000000.050000000" }
    ensures untold { frame_text 12 None ≡ codes "frame 12" }
    ensures second { ordinal 1 (placed [] two_clients) ≡ 2 }
    ensures unopened { ordinal 2 (placed [] two_clients) ≡ 0 }
    ensures heading { heading_text 2 (codes "boot.pcap") Client client server ≡ codes "transfer 2 of 'boot.pcap', at the client; client 192.0.2.7:40000, server 192.0.2.1:41000" }
{}

/// A classic recording and a pcapng one begin so, and a capture text does not.
pub fn worked_heads()
    ensures classic { is_recording (212 ∷ 195 ∷ 178 ∷ 161 ∷ 2 ∷ 0 ∷ []) ≡ true }
    ensures blocks { is_recording (10 ∷ 13 ∷ 13 ∷ 10 ∷ []) ≡ true }
    ensures text { is_recording (codes "tftp-capture 1") ≡ false }
    ensures short { is_recording (212 ∷ 195 ∷ 178 ∷ []) ≡ false }
{}
