//! Laws of the definitions in `specs/`, and worked examples of them. Each is the contract of a function that does nothing.

ghost use Rattle.std.specs.Prelude.{◌≡◌, ◌∷◌, [], ℕ, List, true, false, codes, Option, Some, None, Ok, Err};
ghost use Rattle.json.specs.Json.{boolean, null, string};
ghost use Rattle.audit_recording.specs.declared.session.requests.Asked.{Asked};
ghost use Rattle.audit_recording.specs.declared.session.session.Session.{Session};
ghost use Rattle.tftp_capture.specs.{Numbered};
ghost use Rattle.tftp_judge.specs.{Refused, Incomplete, Unlawful};
ghost use Rattle.tftp_packet.specs.{Client, Server};
ghost use Rattle.tftp_packet.specs.Hosts.{Datagram, Header};
ghost use Rattle.law_pair.specs.{begun, passed_in};
ghost use Rattle.judge_pair.specs.{SentLater, Stopped, Unsent, WrongEnd};
ghost use Rattle.judge_pair.specs.Counts.Worked.{at_the_client, at_the_server};
ghost use Rattle.judge_pair.specs.MatchTexts.{IsAllLawful};
ghost use Rattle.judge_pair.specs.MatchTexts.Datagrams.{HasDatagrams, capture_of};
ghost use Rattle.judge_pair.specs.MatchTexts.Said.{AreNumbersOf};
ghost use Rattle.judge_pair.specs.declared.counts.packets.CountedPacket.TheVariants.{Ack, Data, Error, Opening};
ghost use Rattle.judge_pair.specs.declared.judge.matched.Matched.{Matched};
ghost use Rattle.judge_pair.specs.declared.match_texts.said.PairSaid.{PairSaid};
ghost use Rattle.tftp_match.specs.{Captured, First};
ghost use Rattle.tftp_match.specs.Candidates.{AreMeant, ArePairs};
ghost use Rattle.tftp_match.specs.Choice.{matched_in, sole};
ghost use Rattle.tftp_match.specs.Copies.{HavePassed, copies_lines, copies_to, told_copies};
ghost use Rattle.tftp_match.specs.Firsts.{client_first, server_first};
ghost use Rattle.tftp_match.specs.Lines.{lines, third_line};
ghost use Rattle.tftp_rows.specs.Members.{count_json, object_of};
ghost use Rattle.tftp_match.specs.Captures.Capture.{Recording, Text};
ghost use Rattle.tftp_match.specs.Matching.{server_number};
ghost use Rattle.tftp_match.specs.Objects.{fault_word, json_line, together_json, words_of};
ghost use Rattle.tftp_match.specs.Status.{status_of};
ghost use Rattle.tftp_words.specs.declared.match_request.MatchRequest.{MatchRequest};
ghost use Rattle.tftp_match.specs.Worked.{AreNamed, Asks, counted, numbers, said, tried};

use tftp_judge::Rule;

/// That the other end never sent what came in is told only where all of the other capture was judged: it has no fault, and
/// none of its datagrams is refused.
pub fn unsent_is_told_of_what_was_judged()
    ensures client { (s : PairSaid) (first : First) → client_first s ≡ Some first → first.why ≡ Some Unsent → IsAllLawful s.server }
    ensures server { (s : PairSaid) (first : First) → server_first s ≡ Some first → first.why ≡ Some Unsent → IsAllLawful s.client }
{}

/// The lines of a pair that goes together, and the status.
pub fn worked_lines()
    ensures matched { lines (said (Refused (Incomplete 3)) (Refused (Incomplete 2)) (Ok (numbers 3 3 None 2 2 None (Some (record { lost = 1; repeated = 0 }))))) ≡ codes "incomplete after 3\nincomplete after 2\nmatched lost 1 repeated 0\n" }
    ensures status { status_of (said (Refused (Incomplete 3)) (Refused (Incomplete 2)) (Ok (numbers 3 3 None 2 2 None (Some (record { lost = 1; repeated = 0 }))))) ≡ 0 }
{}

/// The third line where the server's third datagram came in and was not sent as far as the client's capture is judged: the
/// client's is judged to its end, or refused at its second datagram.
pub fn worked_unsent()
    ensures judged { third_line (said (Refused (Incomplete 1)) (Refused (Incomplete 3)) (Ok (numbers 1 1 None 3 2 (Some Unsent) None))) ≡ codes "unmatched client datagram - server datagram 3 unsent\n" }
    ensures refused { third_line (said (Refused (Unlawful 2 Rule.NoRequest)) (Refused (Incomplete 3)) (Ok (numbers 1 1 None 3 2 (Some Unsent) None))) ≡ codes "unmatched client datagram 2 server datagram 3\n" }
    ensures later { third_line (said (Refused (Unlawful 2 Rule.NoRequest)) (Refused (Incomplete 3)) (Ok (numbers 1 1 None 3 2 (Some SentLater) None))) ≡ codes "unmatched client datagram 2 server datagram 3 waits\n" }
    ensures status { status_of (said (Refused (Unlawful 2 Rule.NoRequest)) (Refused (Incomplete 3)) (Ok (numbers 1 1 None 3 2 (Some Unsent) None))) ≡ 1 }
{}

/// The third line where a capture names the wrong end, and where it is not told how far they go together.
pub fn worked_apart()
    ensures wrong { third_line (said (Refused (Incomplete 1)) (Refused (Incomplete 3)) (Err (WrongEnd Server))) ≡ codes "fault server WrongEnd\n" }
    ensures stopped { third_line (said (Refused (Incomplete 1)) (Refused (Incomplete 3)) (Err Stopped)) ≡ [] }
    ensures status { status_of (said (Refused (Incomplete 1)) (Refused (Incomplete 3)) (Err Stopped)) ≡ 2 }
{}

/// Of pairs that were tried one alone goes together, or none does, or two do.
pub fn worked_choice()
    ensures one { sole (matched_in (tried 1 1 false ∷ tried 1 2 true ∷ tried 2 1 false ∷ [])) ≡ Some (tried 1 2 true) }
    ensures none { sole (matched_in (tried 1 1 false ∷ tried 1 2 false ∷ [])) ≡ None }
    ensures several { sole (matched_in (tried 1 1 true ∷ tried 1 2 false ∷ tried 2 1 true ∷ [])) ≡ None }
{}

/// Of the captures of judged texts that is counted which their datagrams are, as far as these are lawful.
pub fn counted_is_what_the_captures_have()
    ensures { (before other_before : Option (List ℕ)) (s : PairSaid) (m : Matched) → s.together ≡ Ok m → AreNumbersOf before other_before m
        → (text other_text : List ℕ) → before ≡ Some text → other_before ≡ Some other_text → (h k : Header) (ds es : List Numbered) → HasDatagrams text h ds → HasDatagrams other_text k es
        → HavePassed s (passed_in (begun m.client_lawful (capture_of h ds))) (passed_in (begun m.server_lawful (capture_of k es))) }
{}

/// Of DATA 1, which the server sent twice and the client took once, and ACK 1, which the client sent once and the server took
/// twice: what is told of them, and that nothing is where it was not asked for.
pub fn worked_copies()
    ensures copies { copies_to 2 at_the_client at_the_server ≡ counted Client (Ack 1) 1 2 ∷ counted Server (Data 1) 2 1 ∷ [] }
    ensures lines { copies_lines (Some (counted Client (Ack 1) 1 2 ∷ counted Server (Data 1) 2 1 ∷ [])) ≡ codes "client ACK 1 sent 1 taken 2\nserver DATA 1 sent 2 taken 1\n" }
    ensures openings { copies_lines (Some (counted Client Opening 1 1 ∷ counted Server Opening 1 0 ∷ counted Server Error 0 1 ∷ [])) ≡ codes "client request sent 1 taken 1\nserver OACK sent 1 taken 0\nserver ERROR sent 0 taken 1\n" }
    ensures unasked { (s : PairSaid) (client server : List Datagram) → told_copies false s client server ≡ None }
{}

/// The object of a pair that goes together, and of one that does not.
pub fn worked_objects()
    ensures words { words_of (codes "incomplete after 3\n") ≡ codes "incomplete after 3" }
    ensures matched { (client server : Captured) → AreNamed client server → json_line client server (said (Refused (Incomplete 3)) (Refused (Incomplete 2)) (Ok (numbers 3 3 None 2 2 None (Some (record { lost = 1; repeated = 0 }))))) (Some (counted Server (Data 1) 2 1 ∷ []))
        ≡ codes "{\"client\":{\"file\":\"a\",\"number\":null,\"verdict\":\"incomplete after 3\"},\"server\":{\"file\":\"b\",\"number\":2,\"verdict\":\"incomplete after 2\"},\"fault\":null,\"together\":{\"matched\":true,\"lost\":1,\"repeated\":0,\"client_datagram\":null,\"server_datagram\":null,\"client_why\":null,\"server_why\":null},\"counts\":[{\"from\":\"server\",\"packet\":\"DATA\",\"block\":1,\"sent\":2,\"taken\":1}]}\n" }
    ensures unmatched { together_json (said (Refused (Incomplete 1)) (Refused (Incomplete 3)) (Ok (numbers 1 1 None 3 2 (Some Unsent) (Some (record { lost = 1; repeated = 0 })))))
        ≡ object_of ((codes "matched", boolean false) ∷ (codes "lost", null) ∷ (codes "repeated", null) ∷ (codes "client_datagram", null) ∷ (codes "server_datagram", count_json 3) ∷ (codes "client_why", null) ∷ (codes "server_why", string (codes "unsent")) ∷ []) }
    ensures wrong { fault_word (said (Refused (Incomplete 1)) (Refused (Incomplete 3)) (Err (WrongEnd Server))) ≡ Some (codes "server WrongEnd") }
    ensures apart { together_json (said (Refused (Incomplete 1)) (Refused (Incomplete 3)) (Err Stopped)) ≡ null }
{}

/// Of a client's transfers that read `a` and `b` and a server's that read `b` and `a` the first goes with the second, and the
/// second with the first.
pub fn worked_pairs()
    ensures pairs { (first second one other : Asked) → Asks first 1 (codes "a") → Asks second 2 (codes "b") → Asks one 1 (codes "b") → Asks other 2 (codes "a") → ArePairs (first ∷ second ∷ []) (one ∷ other ∷ []) ((1, 2) ∷ (2, 1) ∷ []) }
    ensures meant { (first second one : Asked) → Asks first 1 (codes "a") → Asks second 2 (codes "b") → Asks one 1 (codes "b") → AreMeant (first ∷ second ∷ []) (one ∷ []) (2 ∷ []) }
    ensures sole { (first one : Asked) → Asks first 1 (codes "a") → Asks one 1 (codes "b") → AreMeant (first ∷ []) (one ∷ []) (1 ∷ []) }
{}

/// Beside a text one word or the other names the recorded transfer; beside a recording the word of the server does.
pub fn worked_names()
    ensures beside_text { (r : MatchRequest) → r.transfer ≡ Some 2 → r.server_transfer ≡ None → server_number r (Text None) ≡ Some 2 }
    ensures at_the_server { (r : MatchRequest) → r.server_transfer ≡ Some 3 → server_number r (Text None) ≡ Some 3 }
    ensures beside_recording { (r : MatchRequest) (session : Session) → r.transfer ≡ Some 2 → r.server_transfer ≡ None → server_number r (Recording session) ≡ None }
{}
