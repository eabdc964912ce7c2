//! The rules at one end are the runs of two. Each law is the contract of a function that does nothing.

ghost use Rattle.std.specs.Prelude.{◌≡◌, ◌↔◌, ℕ, List, reverse};
ghost use Rattle.tftp_packet.specs.Hosts.{Datagram, Header};
ghost use Rattle.law_model.specs.Model.{Meaning, IsOneSided};
ghost use Rattle.law_end.specs.Dress.{TransferIds, Division, HaveLabels, HaveLabelsBy, view_in};
ghost use Rattle.law_end.specs.Accord.{Accords, AreRouted, AreRoutedBy, Starts};
ghost use Rattle.law_end.specs.Divisions.{says_some, FindPlaces, Divides};
ghost use Rattle.law_end.specs.Law.{IsSeen, IsLawful, ShowsBy, Shows};
ghost use Rattle.law_end.specs.OneEnd.{OneEnded, Meant};

/// The labels of a division are its routes, and what has such routes has labels, where the view begins with the client's
/// request and has no request of the server's. The view of such labels begins so, where it is one that one end might have.
pub fn labels_are_routes()
    ensures routes { (h : Header) (m : Meaning) (wire : List ℕ) (ids : TransferIds) (division : Division)
        → HaveLabels h m wire ids division → Starts h.named (view_in division) → AreRouted h m wire division }
    ensures labels { (h : Header) (m : Meaning) (wire : List ℕ) (division : Division) → AreRouted h m wire division
        → Starts h.named (view_in division) → (ids : TransferIds) × HaveLabels h m wire ids division }
    ensures starts { (h : Header) (m : Meaning) (wire : List ℕ) (ids : TransferIds) (division : Division)
        → HaveLabels h m wire ids division → IsOneSided m wire h.named (view_in division) → Starts h.named (view_in division) }
{}

/// A list divides, each main datagram spells a packet and the first of them is the client's request, exactly if no
/// datagram breaks one of the first five rules, and no request has a route of the peer's. The division is one, its labels
/// are the routes, and it is that of each run which shows the list, whatever the run means.
pub fn a_list_divides_in_one_way()
    ensures divides { (h : Header) (earlier : List Datagram) → FindPlaces h earlier ↔ Divides h earlier }
    ensures labels { (h : Header) (division : Division) → AreRoutedBy h says_some division → Starts h.named (view_in division)
        → (ids : TransferIds) × HaveLabelsBy h says_some ids division }
    ensures routes { (h : Header) (earlier : List Datagram) (x : Divides h earlier) → AreRoutedBy h says_some x.division }
    ensures one { (h : Header) (earlier : List Datagram) (x y : Divides h earlier) → x.division ≡ y.division }
    ensures of_run { (h : Header) (m : Meaning) (wire : List ℕ) (ids : TransferIds) (division : Division)
        → HaveLabels h m wire ids division → IsOneSided m wire h.named (view_in division)
        → HaveLabelsBy h says_some ids division × Starts h.named (view_in division) }
{}

/// What a run of two ends shows at the named end breaks no rule there, and is in accord with the run's meaning and wire.
pub fn runs_break_no_rule()
    ensures rules { (h : Header) (m : Meaning) (wire : List ℕ) (datagrams : List Datagram) → IsSeen h m wire datagrams
        → OneEnded h (reverse datagrams) }
    ensures accord { (h : Header) (m : Meaning) (wire : List ℕ) (datagrams : List Datagram) → IsSeen h m wire datagrams
        → Accords h m wire (reverse datagrams) }
{}

/// What breaks no rule at one end is shown by a run of two, of each meaning and wire that are in accord with it; and some
/// meaning and wire are.
pub fn what_breaks_no_rule_is_seen()
    ensures seen { (h : Header) (m : Meaning) (wire : List ℕ) (datagrams : List Datagram) → OneEnded h (reverse datagrams)
        → Accords h m wire (reverse datagrams) → IsSeen h m wire datagrams }
    ensures some { (h : Header) (earlier : List Datagram) → OneEnded h earlier
        → (m : Meaning) × (wire : List ℕ) × Accords h m wire earlier }
{}

/// So a capture is lawful exactly if its datagrams break no rule, and then it divides.
pub fn lawful_captures_break_no_rule()
    ensures lawful { (h : Header) (datagrams : List Datagram) → IsLawful h datagrams ↔ OneEnded h (reverse datagrams) }
    ensures divides { (h : Header) (earlier : List Datagram) → OneEnded h earlier → Divides h earlier }
{}

/// And what a capture means by the rules is what a whole run shows, by some wire; a capture shows one meaning at most.
pub fn captures_show_what_is_meant()
    ensures whole { (h : Header) (m : Meaning) (datagrams : List Datagram)
        → Meant h (reverse datagrams) m ↔ ((wire : List ℕ) × ShowsBy h m wire datagrams) }
    ensures one { (h : Header) (datagrams : List Datagram) (m n : Meaning) → Shows h m datagrams → Shows h n datagrams
        → m ≡ n }
{}
