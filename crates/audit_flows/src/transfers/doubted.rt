//! The doubts of one transfer, of all its datagrams.

ghost use Rattle.std.specs.Prelude.{◌≡◌, ◌∷◌, ℕ, List, []};
ghost use Rattle.audit_flows.specs.Lines.{Placed, comes_in, doubts_of, follows_request, follows_strays, follows_unanswered, agrees_late, goes_on_with_first, is_late, says_first_word, says_unknown_id, is_disordered, is_asked_again};
ghost use Rattle.audit_flows.specs.Transfers.Doubts.{is_answered_apart, is_doubted, some_of};
ghost use Rattle.audit_flows.specs.Transfers.Kept.{IsDoubtedAfter};

use crate::transfers::attribution::Attributed;

/// What is doubtful of one transfer, by the datagrams that have been noted.
#[derive(Clone, Copy, Debug, PartialEq, Eq)]
pub struct TransferDoubts {
    number: u64,
    agrees_late: bool,
    says_unknown_id: bool,
    says_first_word: bool,
    is_late: bool,
    is_disordered: bool,
    is_asked_again: bool,
    is_answered_apart: bool,
    follows_strays: bool,
    follows_unanswered: bool,
    follows_request: bool,
    comes_in: bool,
    goes_on_with_first: bool,
}

impl TransferDoubts {
    /// Of the transfer with this number, before any datagram.
    pub fn new(number: u64) -> Self
        ensures stands { IsDoubtedAfter result [] }
        ensures number { result.number ≡ number }
    {
        TransferDoubts {
            number,
            agrees_late: false,
            says_unknown_id: false,
            says_first_word: false,
            is_late: false,
            is_disordered: false,
            is_asked_again: false,
            is_answered_apart: false,
            follows_strays: false,
            follows_unanswered: false,
            follows_request: false,
            comes_in: false,
            goes_on_with_first: false,
        }
    }

    /// Notes what one datagram makes doubtful, of this transfer or of another.
    pub fn note(&mut self, found: &Attributed)
        ensures stands { (p : Placed) (older : List Placed) → IsDoubtedAfter self.old older → found.now.place ≡ p.place
            → found.now.doubts ≡ doubts_of p older → IsDoubtedAfter self.new (p ∷ older) }
        ensures number { self.new.number ≡ self.old.number }
    {
        let doubts = &found.doubts;
        if found.place.is_of(self.number) {
            self.agrees_late = doubts.agrees_late || self.agrees_late;
            self.says_unknown_id = doubts.says_unknown_id || self.says_unknown_id;
            self.says_first_word = doubts.says_first_word || self.says_first_word;
            self.is_late = doubts.is_late || self.is_late;
            self.is_disordered = doubts.is_disordered || self.is_disordered;
            self.is_asked_again = doubts.is_asked_again || self.is_asked_again;
            self.follows_strays = doubts.follows_strays || self.follows_strays;
            self.follows_unanswered = doubts.follows_unanswered || self.follows_unanswered;
            self.follows_request = doubts.follows_request || self.follows_request;
            self.comes_in = doubts.comes_in || self.comes_in;
            self.goes_on_with_first = doubts.goes_on_with_first || self.goes_on_with_first;
        }
        if doubts.may_be_answer_of == Some(self.number) {
            self.is_answered_apart = true;
        }
    }

    /// How many datagrams came before the request that opened the transfer.
    pub fn number(&self) -> u64
        ensures { result ≡ self.now.number }
    {
        self.number
    }

    /// Whether each refusal of the transfer is doubtful.
    pub fn is_doubted(&self) -> bool
        ensures { (placed : List Placed) → IsDoubtedAfter self.now placed → result ≡ is_doubted self.now.number placed }
    {
        self.is_disordered
            || self.is_asked_again
            || self.is_answered_apart
            || self.follows_strays
            || self.follows_unanswered
    }

    /// Whether a refusal at the datagram that was noted last, or at a later one, is doubtful at least.
    pub fn is_late(&self) -> bool
        ensures { (placed : List Placed) → IsDoubtedAfter self.now placed → result ≡ some_of self.now.number is_late placed }
    {
        self.is_late
    }

    /// Whether an OACK came, up to the datagram that was noted last, that may be late from an earlier transfer between the
    /// same two (RFC 2347).
    pub fn agrees_late(&self) -> bool
        ensures { (placed : List Placed) → IsDoubtedAfter self.now placed → result ≡ some_of self.now.number agrees_late placed }
    {
        self.agrees_late
    }

    /// Whether an ERROR 5 passed, up to the datagram that was noted last: "Unknown transfer ID" (RFC 1350, section 5).
    pub fn says_unknown_id(&self) -> bool
        ensures { (placed : List Placed) → IsDoubtedAfter self.now placed → result ≡ some_of self.now.number (λ q before. says_unknown_id q) placed }
    {
        self.says_unknown_id
    }

    /// Whether its client has said, up to the datagram that was noted last, what it may say first to an answer (RFC 1350, section
    /// 4), where no answer had passed: that came before the recording began, it may be.
    pub fn says_first_word(&self) -> bool
        ensures { (placed : List Placed) → IsDoubtedAfter self.now placed → result ≡ some_of self.now.number says_first_word placed }
    {
        self.says_first_word
    }

    /// Whether one of its datagrams is older than one before it.
    pub fn is_disordered(&self) -> bool
        ensures { (placed : List Placed) → IsDoubtedAfter self.now placed → result ≡ some_of self.now.number is_disordered placed }
    {
        self.is_disordered
    }

    /// Whether the transfer before may go on in it, since its client had sent requests and ERRORs only.
    pub fn is_asked_again(&self) -> bool
        ensures { (placed : List Placed) → IsDoubtedAfter self.now placed → result ≡ some_of self.now.number is_asked_again placed }
    {
        self.is_asked_again
    }

    /// Whether a datagram of another transfer may be its first answer.
    pub fn is_answered_apart(&self) -> bool
        ensures { (placed : List Placed) → IsDoubtedAfter self.now placed → result ≡ is_answered_apart self.now.number placed }
    {
        self.is_answered_apart
    }

    /// Whether something of no line passed at its client's endpoint in the 300 s before its request: a transfer may have been under
    /// way whose request was not recorded.
    pub fn follows_strays(&self) -> bool
        ensures { (placed : List Placed) → IsDoubtedAfter self.now placed → result ≡ some_of self.now.number follows_strays placed }
    {
        self.follows_strays
    }

    /// Whether nobody had answered what its client had asked for before: what comes may be the late answer.
    pub fn follows_unanswered(&self) -> bool
        ensures { (placed : List Placed) → IsDoubtedAfter self.now placed → result ≡ some_of self.now.number follows_unanswered placed }
    {
        self.follows_unanswered
    }

    /// Whether its client has asked more than once in its line, up to the datagram that was noted last: once more in this transfer, or
    /// before it. This is no doubt of a recording that lacks nothing.
    pub fn has_asked_more(&self) -> bool
        ensures { (placed : List Placed) → IsDoubtedAfter self.now placed → result ≡ some_of self.now.number follows_request placed }
    {
        self.follows_request
    }

    /// Whether something came to its client, up to the datagram that was noted last.
    pub fn comes_in(&self) -> bool
        ensures { (placed : List Placed) → IsDoubtedAfter self.now placed → result ≡ some_of self.now.number comes_in placed }
    {
        self.comes_in
    }

    /// Whether its client went on with who first sent it something; a refusal of a transfer in which it never did, once something has come, is
    /// doubtful.
    pub fn goes_on_with_first(&self) -> bool
        ensures { (placed : List Placed) → IsDoubtedAfter self.now placed → result ≡ some_of self.now.number goes_on_with_first placed }
    {
        self.goes_on_with_first
    }
}
