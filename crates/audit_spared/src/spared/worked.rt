//! Worked recordings: some meet the premises of the laws; and for a premise one meets all others, and a lawful end is accused.
//! Each law is the contract of a function that does nothing.

ghost use Rattle.std.specs.Prelude.{◌≡◌, ◌||◌, true, false, List, [], ◌∷◌, ◌++◌, codes, filter, map, reverse, Contains};
ghost use Rattle.law_end.specs.{IsLawful};
ghost use Rattle.audit_flows.specs.Lines.{Recorded, is_late, may_be_earlier};
ghost use Rattle.audit_flows.specs.{Endpoint};
ghost use Rattle.audit_flows.specs.Transfers.{ack_of, client, data_of, read_of, service, is_doubtful, is_doubtful_at_client, is_doubtful_at_server, is_doubtful_in_whole, is_led_astray, placed, some_of};
ghost use Rattle.audit_flows.specs.Transfers.Worked.{doubtful_in, error_of, seen_by_client, seen_by_server};
ghost use Rattle.audit_spared.specs.Spared.{
  AreAtHost,
  AreInOrder,
  AreInterleaved,
  AreServed,
  AreStrayed,
  AskersAreElsewhere,
  AsksInTime,
  FollowOneAnother,
  HasNoSilence,
  HaveNoServicePort,
  HaveOwnNames,
  IsServedCapture,
  IsTimelyCapture,
  IsWholeCapture,
  as_seen_by,
  as_served,
  at_client_of,
  at_server_of,
  is_doubted_there,
  is_shared,
  is_with,
  needs_doubt,
};
ghost use Rattle.audit_spared.specs.Spared.Worked.{
  IsAccusedAtClient,
  IsAccusedAtServer,
  ack_after_silence,
  ack_again,
  ack_of_answer,
  ack_of_block,
  asked_again_only,
  asked_by_stray,
  asked_late,
  asks_elsewhere,
  asks_two_hosts,
  back_in_time,
  back_in_time_there,
  begun_within,
  block_acked_again,
  block_came,
  is_late_block,
  is_of_before,
  late_ack,
  needs_doubt_there,
  newest,
  one_client,
  one_name,
  other_error,
  own_name,
  refused_elsewhere,
  served_by_asker,
  service_client,
  silent_capture,
  stray_is_told,
  to_second_host,
  told_by_namesake,
  two_captures,
  two_clients,
  two_served,
  written_late,
};

/// Two captures with a repeated request and strays meet all premises, at the client and at the server, whatever another client
/// does. Each transfer has its own datagrams, the stray's among them, and none of the doubts that the laws need.
pub fn two_captures_meet_the_premises()
    ensures client { AreInterleaved own_name one_client two_captures }
    ensures server { AreServed (IsTimelyCapture own_name) own_name service.address one_client two_served }
    ensures first { seen_by_client 0 two_captures
        ≡ ack_of 1 ∷ error_of 5 ∷ data_of 7 ∷ data_of 1 ∷ read_of (codes "f") ∷ read_of (codes "f") ∷ [] }
    ensures second { seen_by_client 8 two_captures ≡ ack_of 1 ∷ data_of 1 ∷ read_of (codes "g") ∷ [] }
    ensures first_there { seen_by_server 0 two_served
        ≡ ack_of 1 ∷ error_of 5 ∷ data_of 7 ∷ data_of 1 ∷ read_of (codes "f") ∷ read_of (codes "f") ∷ [] }
    ensures second_there { seen_by_server 8 two_served ≡ ack_of 1 ∷ data_of 1 ∷ read_of (codes "g") ∷ [] }
    ensures doubtless { map (λ n. is_doubted_there n (placed [] two_captures) || some_of n is_late (placed [] two_captures)) (0 ∷ 8 ∷ [])
        ≡ false ∷ false ∷ [] }
    ensures doubtless_there { map (λ n. is_doubted_there n (placed [] two_served) || some_of n is_late (placed [] two_served)) (0 ∷ 8 ∷ [])
        ≡ false ∷ false ∷ [] }
{}

/// Late blocks and other strays may come before the answer, and before the first request: a recording meets all premises, in the
/// view of its second transfer the stray stands first, and the client's lawful ACK is refused there. The fourth doubt alone is left
/// of those that the law needs.
pub fn strays_may_come_before_the_answer()
    ensures meets { AreStrayed own_name is_late_block is_of_before one_client (ack_of_answer ∷ begun_within) }
    ensures view { seen_by_client 7 (ack_of_answer ∷ begun_within)
        ≡ ack_of 1 ∷ data_of 1 ∷ error_of 5 ∷ data_of 1 ∷ read_of (codes "g") ∷ [] }
    ensures fourth { IsAccusedAtClient own_name needs_doubt ack_of_answer begun_within }
    ensures astray { is_led_astray 7 (placed [] (ack_of_answer ∷ begun_within)) (newest ack_of_answer begun_within) (placed [] begun_within) ≡ true }
{}

/// Who asks again at the port that answered is accused, at the client and at the server: all other premises are met.
pub fn captures_must_be_lawful()
    ensures captures { (c : Endpoint) → Contains one_client c → FollowOneAnother HasNoSilence (filter (is_with c) (asks_elsewhere ∷ block_came)) }
    ensures in_time { (c : Endpoint) → Contains one_client c → FollowOneAnother (AsksInTime c) (filter (is_with c) (asks_elsewhere ∷ block_came)) }
    ensures here { AreAtHost service.address one_client (asks_elsewhere ∷ block_came) }
    ensures others { AskersAreElsewhere one_client (asks_elsewhere ∷ block_came) }
    ensures hosts { (recorded : List Recorded) → HaveOwnNames own_name recorded }
    ensures ports { HaveNoServicePort one_client }
    ensures order { AreInOrder (asks_elsewhere ∷ block_came) }
    ensures accused { IsAccusedAtClient own_name is_doubtful asks_elsewhere block_came }
    ensures accused_there { IsAccusedAtServer own_name is_doubtful_at_server asks_elsewhere block_came }
{}

/// Where a recording begins within a capture, a lawful client is refused: it asked again after the block came, and all that is
/// recorded is this request and its ACK. The whole recording meets the premises. What it says first is a doubt, which the
/// captures of the theorem do not need.
pub fn recordings_may_begin_within_their_captures()
    ensures meets { AreInterleaved own_name one_client (ack_of_block ∷ asked_again_only ++ block_came) }
    ensures refused { IsAccusedAtClient own_name is_doubtful_in_whole ack_of_block asked_again_only }
    ensures doubted { doubtful_in is_doubtful 0 (ack_of_block ∷ asked_again_only) ≡ true ∷ false ∷ [] }
{}

/// Where a client asks again after a silence, its ACK of the block before is refused.
pub fn captures_must_be_steady()
    ensures captures { (c : Endpoint) → Contains one_client c
        → FollowOneAnother (λ (k : List Recorded). IsLawful (at_client_of 69) (map (as_seen_by own_name c) (reverse k))) (filter (is_with c) (ack_after_silence ∷ silent_capture)) }
    ensures captures_there { (c : Endpoint) → Contains one_client c
        → FollowOneAnother (λ (k : List Recorded). IsLawful (at_server_of 69) (map (as_served own_name c) (reverse k))) (filter (is_with c) (ack_after_silence ∷ silent_capture)) }
    ensures in_time { (c : Endpoint) → Contains one_client c → FollowOneAnother (AsksInTime c) (filter (is_with c) (ack_after_silence ∷ silent_capture)) }
    ensures here { AreAtHost service.address one_client (ack_after_silence ∷ silent_capture) }
    ensures others { AskersAreElsewhere one_client (ack_after_silence ∷ silent_capture) }
    ensures ports { HaveNoServicePort one_client }
    ensures order { AreInOrder (ack_after_silence ∷ silent_capture) }
    ensures hosts { (recorded : List Recorded) → HaveOwnNames own_name recorded }
    ensures accused { IsAccusedAtClient own_name is_doubtful_in_whole ack_after_silence silent_capture }
    ensures accused_there { IsAccusedAtServer own_name needs_doubt_there ack_after_silence silent_capture }
{}

/// Where a time goes back, a client's line ends too early.
pub fn times_must_not_go_back()
    ensures captures { (c : Endpoint) → Contains two_clients c → FollowOneAnother (IsWholeCapture own_name c) (filter (is_with c) (late_ack ∷ back_in_time)) }
    ensures captures_there { (c : Endpoint) → Contains two_clients c → FollowOneAnother (IsTimelyCapture own_name c) (filter (is_with c) (late_ack ∷ back_in_time_there)) }
    ensures here { AreAtHost service.address two_clients (late_ack ∷ back_in_time_there) }
    ensures others { AskersAreElsewhere two_clients (late_ack ∷ back_in_time) }
    ensures others_there { AskersAreElsewhere two_clients (late_ack ∷ back_in_time_there) }
    ensures ports { HaveNoServicePort two_clients }
    ensures hosts { (recorded : List Recorded) → HaveOwnNames own_name recorded }
    ensures accused { IsAccusedAtClient own_name is_doubtful_in_whole late_ack back_in_time }
    ensures accused_there { IsAccusedAtServer own_name needs_doubt_there late_ack back_in_time_there }
{}

/// Where an endpoint that is no client's asks, what it sends may be told of its own transfer.
pub fn none_else_may_ask()
    ensures captures { (c : Endpoint) → Contains one_client c → FollowOneAnother (IsWholeCapture own_name c) (filter (is_with c) (ack_of_block ∷ served_by_asker)) }
    ensures captures_there { (c : Endpoint) → Contains one_client c → FollowOneAnother (IsTimelyCapture own_name c) (filter (is_with c) (ack_of_block ∷ served_by_asker)) }
    ensures here { AreAtHost service.address one_client (ack_of_block ∷ served_by_asker) }
    ensures ports { HaveNoServicePort one_client }
    ensures order { AreInOrder (ack_of_block ∷ served_by_asker) }
    ensures hosts { (recorded : List Recorded) → HaveOwnNames own_name recorded }
    ensures accused { IsAccusedAtClient own_name is_doubtful_in_whole ack_of_block served_by_asker }
    ensures accused_there { IsAccusedAtServer own_name needs_doubt_there ack_of_block served_by_asker }
{}

/// Where two hosts have one name, a client may go on with the other; and at the server a stray's ERROR may be taken for the client's.
pub fn hosts_must_have_their_own_names()
    ensures captures { (c : Endpoint) → Contains one_client c → FollowOneAnother (IsWholeCapture one_name c) (filter (is_with c) (to_second_host ∷ refused_elsewhere)) }
    ensures others { AskersAreElsewhere one_client (to_second_host ∷ refused_elsewhere) }
    ensures ports { HaveNoServicePort one_client }
    ensures order { AreInOrder (to_second_host ∷ refused_elsewhere) }
    ensures accused { IsAccusedAtClient one_name is_doubtful_in_whole to_second_host refused_elsewhere }
    ensures captures_there { (c : Endpoint) → Contains one_client c → FollowOneAnother (IsTimelyCapture one_name c) (filter (is_with c) (other_error ∷ told_by_namesake)) }
    ensures here { AreAtHost service.address one_client (other_error ∷ told_by_namesake) }
    ensures others_there { AskersAreElsewhere one_client (other_error ∷ told_by_namesake) }
    ensures order_there { AreInOrder (other_error ∷ told_by_namesake) }
    ensures accused_there { IsAccusedAtServer one_name is_doubtful_at_server other_error told_by_namesake }
{}

/// At a server the clients must speak with one host, whatever the names are: a capture there tells none of its addresses.
pub fn clients_must_speak_with_one_host()
    ensures captures { (c : Endpoint) → Contains one_client c → FollowOneAnother (IsTimelyCapture own_name c) (filter (is_with c) (to_second_host ∷ asks_two_hosts)) }
    ensures others { AskersAreElsewhere one_client (to_second_host ∷ asks_two_hosts) }
    ensures ports { HaveNoServicePort one_client }
    ensures order { AreInOrder (to_second_host ∷ asks_two_hosts) }
    ensures hosts { (recorded : List Recorded) → HaveOwnNames own_name recorded }
    ensures accused { IsAccusedAtServer own_name needs_doubt_there to_second_host asks_two_hosts }
{}

/// Where a client has the service port, a stray's request opens a transfer, and what the client answers is refused but for the
/// doubt of ERROR 5.
pub fn clients_must_have_other_ports()
    ensures captures { (c : Endpoint) → Contains (service_client ∷ []) c → FollowOneAnother (IsWholeCapture own_name c) (filter (is_with c) (stray_is_told ∷ asked_by_stray)) }
    ensures others { AskersAreElsewhere (service_client ∷ []) (stray_is_told ∷ asked_by_stray) }
    ensures order { AreInOrder (stray_is_told ∷ asked_by_stray) }
    ensures hosts { (recorded : List Recorded) → HaveOwnNames own_name recorded }
    ensures accused { IsAccusedAtClient own_name needs_doubt stray_is_told asked_by_stray }
{}

/// At a server, where a request comes late and is answered, what the client sent before is refused in the transfer that it opens.
pub fn requests_must_not_come_late()
    ensures captures { (c : Endpoint) → Contains one_client c → FollowOneAnother (IsServedCapture own_name c) (filter (is_with c) (ack_again ∷ asked_late)) }
    ensures here { AreAtHost service.address one_client (ack_again ∷ asked_late) }
    ensures others { AskersAreElsewhere one_client (ack_again ∷ asked_late) }
    ensures hosts { (recorded : List Recorded) → HaveOwnNames own_name recorded }
    ensures ports { HaveNoServicePort one_client }
    ensures order { AreInOrder (ack_again ∷ asked_late) }
    ensures accused { IsAccusedAtServer own_name needs_doubt_there ack_again asked_late }
    ensures shared { is_shared (newest ack_again asked_late) (placed [] asked_late) ≡ true }
    ensures earlier { may_be_earlier (newest ack_again asked_late) (placed [] asked_late) ≡ true }
{}

/// A request to write comes late, and the server's ACK of the block before is refused in the transfer that this opens: it is
/// doubtful there, since it may be of the transfer before.
pub fn late_requests_are_doubtful()
    ensures meets { AreServed (IsServedCapture own_name) own_name service.address one_client (block_acked_again ∷ written_late) }
    ensures refused { IsAccusedAtServer own_name is_doubtful block_acked_again written_late }
    ensures shared { is_shared (newest block_acked_again written_late) (placed [] written_late) ≡ true }
    ensures earlier { may_be_earlier (newest block_acked_again written_late) (placed [] written_late) ≡ true }
    ensures doubted { is_doubtful_at_server 4 (placed [] (block_acked_again ∷ written_late)) (newest block_acked_again written_late) (placed [] written_late) ≡ true }
{}
