//! Worked examples of the definitions in `specs/`. Each is the contract of a function that does nothing.

ghost use Rattle.std.specs.Prelude.{◌≡◌, ◌∷◌, ◌++◌, [], ℕ, Contains, List, Option, false, true, codes, Some, None};
ghost use Rattle.json.specs.Json.{string};
ghost use Rattle.net_udp.specs.Recording.{Step};
ghost use Rattle.tftp_packet.specs.{Client as ClientEnd, Server as ServerEnd};
ghost use Rattle.audit_flows.specs.{Endpoint};
ghost use Rattle.audit_recording.specs.{Accused};
ghost use Rattle.audit_recording.specs.Blame.Frames.{Carried};
ghost use Rattle.audit_recording.specs.Losses.Noted.{unread};
ghost use Rattle.audit_recording.specs.Losses.Noted.Event.{Loses};
ghost use Rattle.audit_recording.specs.Session.Noted.{Noticed, nothing_noticed};
ghost use Rattle.audit_recording.specs.declared.blame.missing.Missing.{Missing as MissingKind};
ghost use Rattle.audit_recording.specs.declared.blame.trail.Trail.{Trail as TrailKind};
ghost use Rattle.audit_recording.specs.declared.judges.judging.Judging.{Judging as JudgingKind};
ghost use Rattle.audit_recording.specs.declared.blame.reason.Reason.TheVariants.{Late, Lost};
ghost use Rattle.audit_recording.specs.declared.blame.stop.Stop.{Stop};
ghost use Rattle.audit_recording.specs.declared.rows.row.Place.TheVariants.{Between, Both, Client as AtClient};
ghost use Rattle.tftp_rows.specs.Accusing.{AccuseNobody, AccuseNobodyBetween, IsOfClient, IsOfServer};
ghost use Rattle.tftp_rows.specs.Asked.{options_text};
ghost use Rattle.tftp_rows.specs.Endings.{ended_text};
ghost use Rattle.tftp_rows.specs.Listing.{list_head, list_json, list_text};
ghost use Rattle.tftp_rows.specs.Members.{json_text};
ghost use Rattle.tftp_rows.specs.Objects.{row_json};
ghost use Rattle.tftp_rows.specs.Printing.{all_lines, verdict_lines};
ghost use Rattle.tftp_rows.specs.Rows.{accused_text, head_text, row_text};
ghost use Rattle.tftp_rows.specs.Times.{slow_text};
ghost use Rattle.tftp_rows.specs.Whole.{AreLacking, AreMissing, AreOf, IsDue, IsEndOf, IsPartOf, Part, Telling, all_rows, moment_of, numbers_of, so_far};
ghost use Rattle.tftp_rows.specs.Worked.{IsListed, IsNotFound, IsRow, RestsOn, client_at, end_at, first_host, repeated, second_host, server_at, slow, unreached_port, untimed, wide_host};
ghost use Rattle.tftp_rows.specs.declared.conclusion.Conclusion.TheVariants.{Aborted, Quiet, Silent, Unreached, Whole};
ghost use Rattle.tftp_rows.specs.declared.listing.ListRow.{ListRow};
ghost use Rattle.tftp_rows.specs.declared.printing.Form.TheVariants.{Json, Words};
ghost use Rattle.tftp_rows.specs.declared.row.VerdictRow.{VerdictRow};

/// Rows: the heads, one that is accepted, one with ICMP, one behind an ERROR, and one that goes on after block 65535.
pub fn worked_rows()
    ensures head { head_text 23 ≡ codes "file                     number  place    frame     accused                 verdict\n" }
    ensures accepted { (r : VerdictRow) → IsRow r (codes "examples/in-erspan.pcap") 1 Between None None (codes "accepted get octet blocks 3 bytes 1300") []
        → RestsOn r false None false → r.ended ≡ Whole → r.times ≡ untimed
        → row_text 23 r ≡ codes "examples/in-erspan.pcap  1       between  -         -                       accepted get octet blocks 3 bytes 1300" }
    ensures unreached { (r : VerdictRow) → IsRow r (codes "examples/loopback-repeated-oack.pcap") 1 Both (Some 8) (client_at second_host 47102) (codes "refused datagram 5 rule 25 BlockChanged") []
        → RestsOn r true (Some true) false → r.ended ≡ Unreached ClientEnd 0 unreached_port → r.times ≡ untimed
        → row_text 36 r ≡ codes "examples/loopback-repeated-oack.pcap  1       both     8         client 192.0.2.2:47102  refused datagram 5 rule 25 BlockChanged, whatever is missing except a request; ended: ICMP port unreachable from 192.0.2.2 frame 78" }
    ensures behind { (r : VerdictRow) (stop : Stop) → IsRow r (codes "examples/loopback-session.pcap") 3 Both (Some 17) (client_at first_host 34056) (codes "refused datagram 3 rule 26 AckAhead") []
        → RestsOn r true None false → IsNotFound stop → r.ended ≡ Aborted stop true → r.times ≡ untimed
        → row_text 30 r ≡ codes "examples/loopback-session.pcap  3       both     17        client 192.0.2.1:34056  aborted by server code 1, and then refused datagram 3 rule 26 AckAhead, if no frame is missing; ended: server ERROR 1 \"File not found\" frame 16" }
    ensures beyond { (r : VerdictRow) → IsRow r (codes "image.pcap") 1 Between (Some 131076) (server_at first_host 41000) (codes "refused datagram 131074 rule 20 BeyondBlock65535") []
        → RestsOn r true (Some true) true → r.ended ≡ Quiet ServerEnd 0 76 → r.times ≡ untimed
        → row_text 10 r ≡ codes "image.pcap  1       between  131076    server 192.0.2.1:41000  refused datagram 131074 rule 20 BeyondBlock65535, whatever is missing except a request; --end client --rollover 0 judges numbers that begin again" }
{}

/// A doubtful row with two reasons, whose transfer was slow.
pub fn worked_doubts()
    ensures { (r : VerdictRow) → IsRow r (codes "a") 2 AtClient (Some 4) None (codes "refused datagram 3 rule 26 AckAhead") (Late ∷ Lost 9 ∷ [])
        → RestsOn r true (Some true) false → r.ended ≡ Silent ServerEnd 10 2 → r.times ≡ slow 5400000000 5000000000
        → row_text 4 r ≡ codes "a     2       client   4         -                       doubtful refused datagram 3 rule 26 AckAhead: its client's endpoint had asked again; frame 9 is not there whole; ended: server silent for 10 s after frame 2; took 5.400 s, the server silent for 5.000 s before frame 2, sent again: 1 of the client, 0 of the server" }
{}

/// The object of a row of the pages, and signs in a text that are escaped.
pub fn worked_objects()
    ensures row { (r : VerdictRow) → IsRow r (codes "examples/loopback-repeated-oack.pcap") 2 Between (Some 9) (client_at second_host 46722) (codes "refused datagram 4 rule 25 BlockChanged") []
        → r.ended ≡ Quiet ServerEnd 0 76 → r.stands ≡ Some true → r.times ≡ repeated → r.rollover ≡ None
        → json_text (row_json r) ≡ codes "{\"file\":\"examples/loopback-repeated-oack.pcap\",\"number\":2,\"place\":\"between\",\"frame\":9,\"verdict\":\"refused datagram 4 rule 25 BlockChanged\",\"accused\":{\"role\":\"client\",\"host\":\"192.0.2.2\",\"port\":46722},\"doubts\":[],\"ended\":{\"how\":\"last\",\"role\":\"server\",\"code\":null,\"message\":null,\"frame\":76,\"seconds\":0,\"before_refusal\":false},\"stands\":true,\"times\":{\"nanoseconds\":5270000,\"bytes_per_second\":null,\"repeats\":{\"client\":9,\"server\":9},\"silence\":{\"nanoseconds\":1641000,\"role\":\"server\",\"frame\":3}},\"rollover\":null}" }
    ensures escaped { json_text (string (codes "a\"b\\c\nd")) ≡ codes "\"a\\\"b\\\\c\\nd\"" }
{}

/// A row of a list of the pages and another one's object, the heads, and options.
pub fn worked_lists()
    ensures head { list_head ≡ codes "number  client                 server                 kind  mode      file              options           datagrams  frames\n" }
    ensures row { (r : ListRow) (stop : Stop)
        → IsListed r 3 (end_at first_host 34056) (end_at first_host 42245) (codes "get") (codes "octet") (codes "\"missing.cfg\"") (codes "-") 3 15 17
        → IsNotFound stop → r.ended ≡ Aborted stop false → r.times ≡ untimed
        → list_text r ≡ codes "3       192.0.2.1:34056        192.0.2.1:42245        get   octet     \"missing.cfg\"     -                 3          15-17; ended: server ERROR 1 \"File not found\" frame 16" }
    ensures object { (r : ListRow) → IsListed r 1 (end_at first_host 34056) (end_at first_host 51973) (codes "get") (codes "octet") (codes "\"boot.cfg\"") (codes "-") 7 1 7
        → r.ended ≡ Quiet ClientEnd 0 7 → r.times ≡ untimed
        → json_text (list_json r) ≡ codes "{\"number\":1,\"client\":\"192.0.2.1:34056\",\"server\":\"192.0.2.1:51973\",\"kind\":\"get\",\"mode\":\"octet\",\"file\":\"\\\"boot.cfg\\\"\",\"options\":\"-\",\"datagrams\":7,\"first_frame\":1,\"last_frame\":7,\"ended\":{\"how\":\"last\",\"role\":\"client\",\"code\":null,\"message\":null,\"frame\":7,\"seconds\":0,\"before_refusal\":false},\"times\":{\"nanoseconds\":null,\"bytes_per_second\":null,\"repeats\":{\"client\":0,\"server\":0},\"silence\":null}}" }
    ensures options { options_text ((codes "blksize", codes "1024") ∷ (codes "x", codes "\"") ∷ []) ≡ codes "blksize=1024,x=\\x22" }
{}

/// The heads stand once, before the first row; rows of transfers stand in the order in which these were told.
pub fn worked_order()
    ensures words { (r s : VerdictRow) → all_lines (verdict_lines (Words 4)) false (r ∷ s ∷ [])
        ≡ (head_text 4 ++ (row_text 4 r ++ codes "\n")) ++ (row_text 4 s ++ codes "\n") }
    ensures objects { (r s : VerdictRow) → all_lines (verdict_lines Json) false (r ∷ s ∷ []) ≡ (json_text (row_json r) ++ codes "\n") ++ (json_text (row_json s) ++ codes "\n") }
    ensures rows { (first second : Telling) → all_rows (second ∷ first ∷ []) ≡ first.rows ++ second.rows }
    ensures numbers { (first second : Telling) → numbers_of (second ∷ first ∷ []) ≡ second.transfer.number ∷ first.transfer.number ∷ [] }
{}

/// One datagram of two is a part of a recording, and its end has all of them. It was read up to second 9, which two in a row have reached,
/// and not up to second 30. No transfer is of no datagram.
pub fn worked_reading()
    ensures part { (first second : Carried) (s t : Noticed) → IsPartOf (so_far [] (first ∷ []) s) (so_far [] (second ∷ first ∷ []) t) }
    ensures no_part { (first second : Carried) (s t : Noticed) → IsPartOf (so_far [] (second ∷ first ∷ []) t) (so_far [] (first ∷ []) s) → ⊥ }
    ensures end { (file : Option (List ℕ)) (all end : Part) → IsEndOf file all end → end.carried ≡ all.carried }
    ensures moment { moment_of (record nothing_noticed { times = 4000000000 ∷ 30000000000 ∷ 9000000000 ∷ [] }) ≡ 9000000000 }
    ensures none { (name named : List ℕ) (judging : JudgingKind) (t : Telling) → AreOf name judging named [] (t ∷ []) → ⊥ }
{}

/// A transfer whose last datagram passed at second 1 is not told at its first datagram, nor up to second 301; but when the recording ends.
pub fn worked_due()
    ensures before { (t : TrailKind) → IsDue None [] (so_far [] [] nothing_noticed) t → ⊥ }
    ensures at_once { (t : TrailKind) (history : List Step) (carried : List Carried) (s : Noticed) → t.last_time ≡ 1000000000 → s.times ≡ 1000000000 ∷ 1000000000 ∷ []
        → IsDue None [] (so_far history carried s) t → ⊥ }
    ensures soon { (t : TrailKind) (history : List Step) (carried : List Carried) (s : Noticed) → t.last_time ≡ 1000000000 → s.times ≡ 301000000000 ∷ 301000000000 ∷ []
        → IsDue None [] (so_far history carried s) t → ⊥ }
    ensures ended { (t : TrailKind) (history : List Step) (carried : List Carried) (s : Noticed) → IsDue (Some (so_far history carried s)) [] (so_far history carried s) t }
{}

/// Of a transfer in frames 3 to 6, the last at second 10, frame 5 is missing, and may be of it. Frame 9 is missing too where it passed at
/// second 311, but not of it. Were frame 5 missing and none told, a doubt would be left out.
pub fn worked_missing()
    ensures among { (m : MissingKind) (t : TrailKind) (s : Noticed) → t.first ≡ 3 → t.last ≡ 6 → t.last_time ≡ 10000000000 → s.events ≡ Loses (unread 5 9000000000) ∷ []
        → AreMissing m t s → (m.first ≡ Some 5) × (m.within ≡ Some 5) }
    ensures later { (m : MissingKind) (t : TrailKind) (s : Noticed) → t.first ≡ 3 → t.last ≡ 6 → t.last_time ≡ 10000000000 → s.events ≡ Loses (unread 9 311000000000) ∷ []
        → AreMissing m t s → (m.first ≡ Some 9) × (m.within ≡ None) }
    ensures left_out { (t : Telling) → t.judged.trail.last ≡ 6 → t.judged.doubted.missing.first ≡ None → AreLacking (Loses (unread 5 9000000000) ∷ []) (t ∷ []) → ⊥ }
    ensures nothing { (t : Telling) → AreLacking [] (t ∷ []) }
{}

/// An IPv6 address stands in brackets, less than a second is no silence, and nothing is said where nothing passed for no second.
pub fn worked_parts()
    ensures wide { accused_text (client_at wide_host 2000) ≡ codes "client [2001:db8::7]:2000" }
    ensures slow { slow_text (slow 2062000000 1000000000) ≡ codes "; took 2.062 s, the server silent for 1.000 s before frame 2, sent again: 1 of the client, 0 of the server" }
    ensures quick { slow_text (slow 5400000000 999999999) ≡ [] }
    ensures quiet { ended_text (Quiet ServerEnd 3 7) ≡ codes "; ended: nothing for 3 s after frame 7 of the server" }
    ensures no_second { ended_text (Quiet ServerEnd 0 7) ≡ [] }
{}

/// A row of both ends tells of the client, and accuses one of them: so not all rows of its client's transfers accuse nobody. Rows of no transfer do, and
/// a row of both is none of the server's alone.
pub fn worked_accusing()
    ensures accuses { (clients : List Endpoint) (t : Telling) (r : VerdictRow) (a : Accused) → Contains clients t.transfer.client → t.rows ≡ r ∷ [] → r.place ≡ Both
        → r.charge.accused ≡ Some a → AccuseNobody IsOfClient clients (t ∷ []) → ⊥ }
    ensures none { (clients : List Endpoint) → AccuseNobody IsOfServer clients [] }
    ensures between { (clients : List Endpoint) (carried : List Carried) → AccuseNobodyBetween clients carried [] }
    ensures both { IsOfServer Both → ⊥ }
{}
