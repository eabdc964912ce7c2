//! Laws of the definitions in `specs/`. Each is the contract of a function that does nothing.

ghost use Rattle.std.specs.Prelude.{◌≡◌, ◌≢◌, ◌⊎◌, ◌≤◌, ℕ, List, Some, true, false, [], ◌∷◌, codes, filter, length};
ghost use Rattle.std.specs.List.{All};
ghost use Rattle.audit_flows.specs.Lines.{Recorded, Placed, asked_part, follows_request, is_apart, is_of, latest_in, line, live};
ghost use Rattle.audit_flows.specs.declared.lines.place.Place.{Place};
ghost use Rattle.audit_flows.specs.declared.lines.place.Transfer.{Transfer};
ghost use Rattle.audit_flows.specs.Transfers.Places.{place_of, placed};
ghost use Rattle.audit_flows.specs.Transfers.Settled.{is_settled};
ghost use Rattle.audit_flows.specs.Transfers.Views.{client_view, is_about, is_at_server, server_of, server_view};
ghost use Rattle.audit_flows.specs.Transfers.Doubts.{is_answered_apart, is_beside, is_doubtful, is_doubtful_at_client, is_doubtful_at_server, is_doubtful_between, some_of};
ghost use Rattle.audit_flows.specs.Transfers.Worked.{
  Where,
  where_all,
  asked_twice,
  asked_after_answer,
  asks_again_behind,
  asks_behind,
  asks_on,
  acked_late,
  acked_unheard,
  one_port,
  one_port_on,
  one_port_agrees,
  one_port_window,
  strayed_write,
  errors,
  begun_anew,
  acked_error,
  begun_within,
  told_another,
  doubtful_in,
  earlier_words,
  two_clients,
  reset,
  silent,
  patient,
  other_service,
  ack_of,
  data_of,
  error_of,
  read_of,
  seen_by_client,
  seen_by_server,
  is_doubted_in,
  is_asked_again_in,
  is_late_in,
  respelled,
  late_answer,
  next_server,
  server,
  stranger,
  stray_request,
  begins_to_ask,
  begun_late,
  begun_long_ago,
  wrong_ports,
  is_astray_in,
  follows_strays_in,
  follows_unanswered_in,
  follows_request_in,
  first_words,
};

/// A request that stands beside its equal repeats, and a stray is of the transfer at its client.
pub fn a_repeated_request_opens_no_transfer()
    ensures { where_all asked_twice
        ≡ Where.Client 0 ∷ Where.Client 0 ∷ Where.Client 0 ∷ Where.Repeats 0 ∷ Where.Opens 0 ∷ [] }
{}

/// A request that comes again after an answer opens a transfer, though it may be a repetition: hence a doubt.
pub fn a_request_after_an_answer_opens_a_transfer()
    ensures { where_all asked_after_answer
        ≡ Where.Client 0 ∷ Where.Client 2 ∷ Where.Opens 2 ∷ Where.Client 0 ∷ Where.Opens 0 ∷ [] }
{}

/// A server's one port goes over from transfer to transfer.
pub fn one_port_goes_from_transfer_to_transfer()
    ensures { where_all one_port
        ≡ Where.Client 3 ∷ Where.Client 3 ∷ Where.Opens 3 ∷ Where.Client 0 ∷ Where.Client 0 ∷ Where.Opens 0 ∷ [] }
{}

/// Each client has its own transfer, and a stray at a server is of that server's.
pub fn two_clients_have_a_transfer_each()
    ensures { where_all two_clients
        ≡ Where.Server 0 ∷ Where.Server 0 ∷ Where.Client 1 ∷ Where.Client 0 ∷ Where.Client 1 ∷ Where.Client 0
        ∷ Where.Opens 1 ∷ Where.Opens 0 ∷ [] }
{}

/// What the old server sends after a reset stays with the old transfer.
pub fn a_reset_opens_a_transfer()
    ensures { where_all reset
        ≡ Where.Client 3 ∷ Where.Client 3 ∷ Where.Client 0 ∷ Where.Opens 3 ∷ Where.Client 0 ∷ Where.Client 0
        ∷ Where.Opens 0 ∷ [] }
{}

/// After more than 300 s without a datagram nothing joins, and a request opens a transfer.
pub fn silence_ends_the_line()
    ensures ended { where_all silent ≡ Where.Opens 2 ∷ Where.Nowhere ∷ Where.Opens 0 ∷ [] }
    ensures goes_on { where_all patient ≡ Where.Client 0 ∷ Where.Repeats 0 ∷ Where.Opens 0 ∷ [] }
{}

/// A whole request makes its port a service port.
pub fn a_whole_request_makes_a_service_port()
    ensures { where_all other_service ≡ Where.Apart ∷ Where.Opens 2 ∷ Where.Client 0 ∷ Where.Opens 0 ∷ [] }
{}

/// At port 69 what begins as a request is one, and at another port only what is spelled whole (RFC 1350, sections 4 and 5).
pub fn at_port_69_each_request_counts()
    ensures there { where_all (begins_to_ask 69) ≡ Where.Opens 0 ∷ [] }
    ensures elsewhere { where_all (begins_to_ask 70) ≡ Where.Nowhere ∷ [] }
{}

/// Who was told an ERROR is no server with which the client went on: that is the one with which it talked.
pub fn who_was_told_an_error_is_not_the_server()
    ensures { server_of 1 (placed [] late_answer) ≡ Some next_server }
{}

/// The stray at the client is seen by the client alone, and the stray at the server by the server alone.
pub fn each_end_sees_its_own_strays()
    ensures client { seen_by_client 0 asked_twice
        ≡ ack_of 1 ∷ data_of 7 ∷ data_of 1 ∷ read_of (codes "f") ∷ read_of (codes "f") ∷ [] }
    ensures client_at_server { seen_by_server 0 asked_twice ≡ ack_of 1 ∷ data_of 1 ∷ read_of (codes "f") ∷ read_of (codes "f") ∷ [] }
    ensures server { seen_by_server 0 two_clients ≡ error_of 5 ∷ data_of 3 ∷ ack_of 1 ∷ data_of 1 ∷ read_of (codes "f") ∷ [] }
    ensures server_at_client { seen_by_client 0 two_clients ≡ ack_of 1 ∷ data_of 1 ∷ read_of (codes "f") ∷ [] }
{}

/// Where a request may be a repetition, a refusal is doubtful; and what comes late makes its own
/// transfer doubtful from there on.
pub fn doubts_are_where_transfers_meet()
    ensures none { is_doubted_in 0 asked_twice ≡ false }
    ensures again { is_doubted_in 2 asked_after_answer ≡ true }
    ensures earlier { is_doubted_in 0 asked_after_answer ≡ false }
    ensures reset { is_doubted_in 3 reset ≡ false }
    ensures after_error { is_asked_again_in 3 (asks_again_behind (error_of 0)) ≡ true }
    ensures after_ack { is_asked_again_in 3 (asks_again_behind (ack_of 1)) ≡ false }
    ensures late { is_late_in 0 reset ≡ true }
    ensures in_time { is_late_in 3 reset ≡ false }
{}

/// Where one port serves twice, what it sends may be late from the first transfer as far as that had come, and one block
/// more: a block of the second that is further on is not. At the client that is a doubt of what came to it; at the server, where a
/// request may come late, and between the two of all.
pub fn what_may_be_late_is_doubtful()
    ensures earlier { earlier_words (placed [] one_port_on)
        ≡ false ∷ false ∷ false ∷ true ∷ true ∷ true ∷ false ∷ false ∷ false ∷ false ∷ [] }
    ensures at_client { doubtful_in is_doubtful_at_client 3 one_port_on
        ≡ false ∷ false ∷ false ∷ true ∷ false ∷ true ∷ false ∷ false ∷ false ∷ false ∷ [] }
    ensures at_server { doubtful_in is_doubtful_at_server 3 one_port_on
        ≡ false ∷ false ∷ false ∷ true ∷ true ∷ true ∷ false ∷ false ∷ false ∷ false ∷ [] }
    ensures between { doubtful_in is_doubtful_between 3 one_port_on
        ≡ false ∷ false ∷ false ∷ true ∷ true ∷ true ∷ false ∷ false ∷ false ∷ false ∷ [] }
    ensures either_side { earlier_words (placed [] strayed_write)
        ≡ true ∷ true ∷ true ∷ false ∷ false ∷ false ∷ false ∷ false ∷ false ∷ false ∷ [] }
    ensures window { earlier_words (placed [] one_port_window) ≡ true ∷ true ∷ false ∷ false ∷ false ∷ false ∷ [] }
{}

/// An ERROR 5 is no end of a transfer, nor may be an ERROR behind it.
pub fn an_error_5_ends_nothing()
    ensures { doubtful_in is_doubtful 0 errors ≡ true ∷ true ∷ false ∷ false ∷ false ∷ false ∷ [] }
{}

/// Between the ends who told ERROR 5 may have begun anew with the same other end, by a request that did not pass there. At an end
/// that request would be there; and what passes with others is not doubtful by it.
pub fn between_the_ends_who_told_error_5_may_begin_anew()
    ensures between { doubtful_in is_doubtful_between 0 begun_anew
        ≡ true ∷ true ∷ true ∷ true ∷ true ∷ false ∷ false ∷ [] }
    ensures at_client { doubtful_in is_doubtful_at_client 0 begun_anew
        ≡ false ∷ false ∷ false ∷ false ∷ true ∷ false ∷ false ∷ [] }
    ensures another { doubtful_in is_doubtful_between 0 told_another ≡ false ∷ true ∷ false ∷ false ∷ false ∷ [] }
{}

/// What a client says first, and may say to an answer, is doubtful: that came before the recording began. It is no such word
/// where the client says more than it could, nor where it had heard an answer, as an ERROR is that refuses its request.
pub fn what_a_client_says_first_may_answer_what_came_before()
    ensures acknowledged { doubtful_in is_doubtful 0 (begun_within 1) ≡ true ∷ false ∷ [] }
    ensures too_far { doubtful_in is_doubtful 0 (begun_within 2) ≡ false ∷ false ∷ [] }
    ensures acked_error_0 { doubtful_in is_doubtful 0 (acked_error 0) ≡ true ∷ false ∷ false ∷ [] }
    ensures acked_refusal { doubtful_in is_doubtful 0 (acked_error 1) ≡ false ∷ false ∷ false ∷ [] }
    ensures heard { doubtful_in is_doubtful 0 wrong_ports ≡ false ∷ false ∷ false ∷ false ∷ false ∷ [] }
{}

/// An OACK may be late too: then all that may rest on it is doubtful at the client, by that alone.
pub fn what_may_rest_on_a_late_oack_is_a_doubt()
    ensures elsewhere { doubtful_in is_doubtful 3 one_port_agrees
        ≡ false ∷ false ∷ false ∷ false ∷ false ∷ false ∷ false ∷ [] }
    ensures earlier { earlier_words (placed [] one_port_agrees)
        ≡ false ∷ true ∷ true ∷ false ∷ false ∷ false ∷ false ∷ [] }
    ensures at_client { doubtful_in is_doubtful_at_client 3 one_port_agrees
        ≡ true ∷ false ∷ true ∷ false ∷ false ∷ false ∷ false ∷ [] }
{}

/// What comes to a client's own port is no request, whatever it spells.
pub fn a_client_is_asked_for_nothing()
    ensures { where_all stray_request ≡ Where.Client 0 ∷ Where.Client 0 ∷ Where.Client 0 ∷ Where.Opens 0 ∷ [] }
{}

/// A request for the same file may be a retransmission, in whatever spelling; and what may be answered late, or was under way
/// before, makes a refusal doubtful.
pub fn doubts_are_where_answers_may_be_late()
    ensures part { asked_part (read_of (codes "f")) ≡ 0 ∷ 1 ∷ codes "f" }
    ensures respelled { is_doubted_in 1 respelled ≡ true }
    ensures unanswered { follows_unanswered_in 1 late_answer ≡ true }
    ensures answered { follows_unanswered_in 3 reset ≡ false }
    ensures astray { is_astray_in 1 late_answer ≡ true }
    ensures followed { is_astray_in 0 asked_twice ≡ false }
    ensures begun { follows_strays_in 1 begun_late ≡ true }
    ensures long_ago { follows_strays_in 1 begun_long_ago ≡ false }
    ensures spoken { first_words (placed [] wrong_ports) ≡ true ∷ true ∷ false ∷ false ∷ false ∷ [] }
{}

/// A request is answered for sure once something comes and its client goes on in that transfer, or the host that it asked refuses
/// it: not by what comes alone, nor by a stranger's ERROR, nor by ERROR 0 or ERROR 5. Each request behind one that was left is
/// doubtful.
pub fn what_follows_no_sure_answer_is_doubtful()
    ensures block { follows_unanswered_in 2 (asks_behind server (data_of 1)) ≡ true }
    ensures refused { follows_unanswered_in 2 (asks_behind server (error_of 1)) ≡ false }
    ensures from_next_port { follows_unanswered_in 2 (asks_behind next_server (error_of 2)) ≡ false }
    ensures from_stranger { follows_unanswered_in 2 (asks_behind stranger (error_of 1)) ≡ true }
    ensures error_0 { follows_unanswered_in 2 (asks_behind server (error_of 0)) ≡ true }
    ensures error_5 { follows_unanswered_in 2 (asks_behind server (error_of 5)) ≡ true }
    ensures gone_on_before { follows_unanswered_in 5 acked_late ≡ true }
    ensures unheard { follows_unanswered_in 2 acked_unheard ≡ true }
    ensures left_once { follows_unanswered_in 5 (asks_on (data_of 1)) ≡ true }
    ensures left_nothing { follows_unanswered_in 5 (asks_on (error_of 1)) ≡ false }
{}

/// The same request again follows one, and so does a request for another file, in the transfer that it opens; after more than 300 s
/// without a datagram a request follows none.
pub fn what_a_client_asks_may_follow_a_request()
    ensures once { follows_request_in 0 wrong_ports ≡ false }
    ensures again { follows_request_in 0 asked_twice ≡ true }
    ensures another { follows_request_in 3 one_port ≡ true }
    ensures before { follows_request_in 0 one_port ≡ false }
    ensures silent { follows_request_in 2 silent ≡ false }
{}

/// The server sees what its client sends to the port that it had asked.
pub fn the_server_sees_its_service_port()
    ensures { seen_by_server 0 wrong_ports ≡ ack_of 1 ∷ ack_of 1 ∷ data_of 1 ∷ read_of (codes "f") ∷ [] }
{}

/// Where a client's line has been silent for more than 300 s, no datagram joins a transfer of that client.
pub fn nothing_joins_a_silent_line()
    ensures talks { (named : List ℕ) (older : List Placed) (now : ℕ) (d : Recorded) (x : Transfer)
        → live now (line x.client older) ≡ [] → place_of named older now d ≢ Place.Talks x }
    ensures repeats { (named : List ℕ) (older : List Placed) (now : ℕ) (d : Recorded) (x : Transfer)
        → live now (line x.client older) ≡ [] → place_of named older now d ≢ Place.Repeats x }
{}

/// A datagram is of one transfer at most, at the client and at the server; and what the server saw is of its client's
/// view or passed beside.
pub fn a_datagram_is_of_one_transfer()
    ensures client { (n m : ℕ) (p : Placed) → is_of n p ≡ true → is_of m p ≡ true → n ≡ m }
    ensures server { (n m : ℕ) (one other : List Placed) (p : Placed) → is_at_server n one p ≡ true → is_at_server m other p ≡ true → n ≡ m }
    ensures strays { (n : ℕ) (placed : List Placed) (p : Placed) → is_at_server n placed p ≡ true → (is_of n p ≡ true) ⊎ (is_beside p ≡ true) }
{}

/// Who the server of a transfer is, whether that is settled, and which datagrams it saw, the transfer's own datagrams
/// tell; and each end saw none but those and what passed beside the server.
pub fn a_transfers_own_datagrams_tell_its_views()
    ensures server { (n : ℕ) (placed : List Placed) → server_of n (filter (is_of n) placed) ≡ server_of n placed }
    ensures settled { (n : ℕ) (placed : List Placed) → is_settled n (filter (is_of n) placed) ≡ is_settled n placed }
    ensures at_server { (n : ℕ) (placed : List Placed) (p : Placed) → is_at_server n (filter (is_of n) placed) p ≡ is_at_server n placed p }
    ensures client_view { (n : ℕ) (placed : List Placed) → client_view n (filter (is_about n) placed) ≡ client_view n placed }
    ensures server_view { (n : ℕ) (placed : List Placed) → server_view n (filter (is_about n) placed) ≡ server_view n placed }
{}

/// A transfer's number is how many datagrams came before it was opened: none of those is about it or may be its answer.
pub fn no_datagram_before_an_opening_is_about_it()
    ensures number { (named : List ℕ) (older : List Placed) (now : ℕ) (d : Recorded) (x : Transfer)
        → place_of named older now d ≡ Place.Opens x → x.number ≡ length older }
    ensures about { (named : List ℕ) (recorded : List Recorded) (n : ℕ) → length recorded ≤ n → All (λ (p : Placed). is_about n p ≡ false) (placed named recorded) }
    ensures answers { (named : List ℕ) (recorded : List Recorded) (n : ℕ) → length recorded ≤ n → is_answered_apart n (placed named recorded) ≡ false }
{}

/// Where a client asked once, as far as its line was recorded, all that passed in the line is of that transfer, or apart.
pub fn who_asked_once_has_one_transfer()
    ensures { (named : List ℕ) (recorded : List Recorded) (x : Transfer) → latest_in (line x.client (placed named recorded)) ≡ Some x
        → some_of x.number follows_request (placed named recorded) ≡ false
        → All (λ (p : Placed). (is_of x.number p ≡ true) ⊎ (is_apart p ≡ true)) (line x.client (placed named recorded)) }
{}
