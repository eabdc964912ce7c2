//! Worked recordings: what comes after a silence of more than 300 s changes nothing of a transfer, and what comes after 300 s may.
//! Each law is the contract of a function that does nothing.

ghost use Rattle.std.specs.Prelude.{◌≡◌, false, true, [], ◌∷◌, codes, Some};
ghost use Rattle.audit_flows.specs.Transfers.{
  ack_of,
  client,
  data_of,
  is_doubtful_at_client,
  is_doubtful_at_server,
  is_doubtful_between,
  placed,
  read_of,
  server_of,
};
ghost use Rattle.audit_flows.specs.Transfers.Worked.{next_server, seen_by_client, seen_by_server, server};
ghost use Rattle.audit_spared.specs.Finality.{AreSameDoubts, IsFinal, IsSilent};
ghost use Rattle.audit_spared.specs.Finality.Worked.{
  doubts_after,
  goes_elsewhere,
  goes_on,
  patient,
  silent,
  silent_and_later,
};

/// A block came, and the client did not go on, so that a refusal at the block is doubtful. More than 300 s later its ACK is of no
/// transfer, and its next request opens another: each end saw what it had seen, and the doubt stands.
pub fn what_comes_after_silence_changes_nothing()
    ensures silent { IsSilent client (placed [] silent) }
    ensures client { seen_by_client 0 silent ≡ data_of 1 ∷ read_of (codes "f") ∷ [] }
    ensures client_later { seen_by_client 0 silent_and_later ≡ data_of 1 ∷ read_of (codes "f") ∷ [] }
    ensures server { seen_by_server 0 silent ≡ data_of 1 ∷ read_of (codes "f") ∷ [] }
    ensures server_later { seen_by_server 0 silent_and_later ≡ data_of 1 ∷ read_of (codes "f") ∷ [] }
    ensures doubts { doubts_after is_doubtful_at_client silent silent ≡ true ∷ true ∷ false ∷ [] }
    ensures doubts_later { doubts_after is_doubtful_at_client silent_and_later silent ≡ true ∷ true ∷ false ∷ [] }
    ensures doubts_there { doubts_after is_doubtful_at_server silent_and_later silent ≡ true ∷ true ∷ false ∷ [] }
    ensures doubts_between { doubts_after is_doubtful_between silent_and_later silent ≡ true ∷ true ∷ false ∷ [] }
    ensures next { seen_by_client 4 silent_and_later ≡ ack_of 1 ∷ data_of 1 ∷ read_of (codes "g") ∷ [] }
{}

/// After 300 s the client may still go on: then its view is longer, and the doubt is gone; or it goes on with another port, which
/// is the server then, and saw something else.
pub fn what_comes_before_silence_may_change_all()
    ensures not_silent { IsSilent client (placed [] patient) → ⊥ }
    ensures view { seen_by_client 0 patient ≡ data_of 1 ∷ read_of (codes "f") ∷ [] }
    ensures longer_view { seen_by_client 0 goes_on ≡ ack_of 1 ∷ data_of 1 ∷ read_of (codes "f") ∷ [] }
    ensures doubts { doubts_after is_doubtful_at_client patient patient ≡ true ∷ true ∷ false ∷ [] }
    ensures no_doubts { doubts_after is_doubtful_at_client goes_on patient ≡ false ∷ false ∷ false ∷ [] }
    ensures other_doubts { AreSameDoubts 0 (placed [] patient) (placed [] goes_on) → ⊥ }
    ensures server { server_of 0 (placed [] patient) ≡ Some server }
    ensures other_server { server_of 0 (placed [] goes_elsewhere) ≡ Some next_server }
    ensures other_view { seen_by_server 0 goes_elsewhere ≡ ack_of 1 ∷ read_of (codes "f") ∷ [] }
    ensures not_final { IsFinal 0 (placed [] patient) (placed [] goes_elsewhere) → ⊥ }
{}
