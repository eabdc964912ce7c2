//! Laws of the definitions in `specs/`. Each is the contract of a function that does nothing.

ghost use Rattle.std.specs.Prelude.{◌≡◌, [], ◌++◌, ◌∷◌, ℕ, List, None, Option, Result, filter, reverse, false, true};
ghost use Rattle.tftp_packet.specs.Hosts.{Datagram, Header};
ghost use Rattle.law_model.specs.Model.{Meaning};
ghost use Rattle.tftp_packet.specs.{Rollover};
ghost use Rattle.tftp_judge.specs.{IsSaid, IsSaidBy, IsTextVerdictBy, Refusal};
ghost use Rattle.tftp_capture.specs.{text_with_hosts};
ghost use Rattle.audit_flows.specs.Lines.{Placed, may_be_answer_of};
ghost use Rattle.audit_flows.specs.Transfers.{placed, is_it, IsDoubtedAfter, is_about, is_at_server, server_of, server_view, asked_twice, is_settled};
ghost use Rattle.audit_flows.specs.Transfers.Worked.{two_clients};
ghost use Rattle.audit_flows.specs.{TransferDoubts};
ghost use Rattle.audit_views.specs.Views.Captured.{Naming, client_capture, server_capture};
ghost use Rattle.audit_views.specs.Views.Kept.{Client, IsClientAfterBy, IsViewAfterBy, View};
ghost use Rattle.audit_views.specs.Views.Judged.{AreWritten, IsWanting, of_text};
ghost use Rattle.audit_views.specs.Views.Worked.{asked_twice_at_client, asked_twice_at_server, by_bytes, first_transfer, two_clients_at_server};

/// What there is to say of datagrams is what there is to say of the text that has just them, whatever comes after block 65535.
pub fn verdict_is_that_of_the_text()
    ensures { (rollover : Option Rollover) (h : Header) (given : List Datagram) (said : Result Meaning Refusal) → AreWritten h given → IsSaid said
        → IsSaidBy rollover said h (reverse given) → IsTextVerdictBy rollover (text_with_hosts h (reverse given)) (of_text said) }
{}

/// Once it is known whom a client asked, who answered and with whom it went on, what of the recording is the server's
/// view stays, whatever comes.
pub fn settled_views_stay()
    ensures datagrams { (n : ℕ) (more placed : List Placed) → is_settled n placed ≡ true
        → (p : Placed) → is_at_server n (more ++ placed) p ≡ is_at_server n placed p }
    ensures view { (n : ℕ) (more placed : List Placed) → is_settled n placed ≡ true
        → server_view n (more ++ placed) ≡ filter (is_at_server n (more ++ placed)) more ++ server_view n placed }
    ensures server { (n : ℕ) (more placed : List Placed) → is_settled n placed ≡ true → server_of n (more ++ placed) ≡ server_of n placed }
{}

/// What an end sent goes out there; the client's stray comes in from its own host, and the server has not seen it.
pub fn worked_captures()
    ensures client { client_capture by_bytes first_transfer (placed [] asked_twice) ≡ asked_twice_at_client }
    ensures server { server_capture by_bytes first_transfer (placed [] asked_twice) (placed [] asked_twice) ≡ asked_twice_at_server }
    ensures settled { is_settled 0 (placed [] asked_twice) ≡ true }
    ensures beside { server_capture by_bytes first_transfer (placed [] two_clients) (placed [] two_clients) ≡ two_clients_at_server }
{}

/// Where nothing was captured, memory ran out for no datagram, and the transfer is not whole: so it is not wanting.
pub fn worked_wanting()
    ensures { (h : Header) (count : ℕ) → IsWanting None h [] count → ⊥ }
{}

/// A datagram that is not about a transfer tells its judges nothing, and makes nothing of it doubtful unless it may be its
/// first answer: what stands for the datagrams before it stands for it too.
pub fn what_is_not_about_a_transfer_changes_nothing()
    ensures client { (rollover : Option Rollover) (c : Client) (name : Naming) (p : Placed) (older : List Placed) → is_about c.transfer.number p ≡ false
        → IsClientAfterBy rollover c name older → IsClientAfterBy rollover c name (p ∷ older) }
    ensures server { (rollover : Option Rollover) (v : View) (name : Naming) (p : Placed) (older : List Placed) → is_about v.transfer.number p ≡ false
        → IsViewAfterBy rollover v name older → IsViewAfterBy rollover v name (p ∷ older) }
    ensures doubts { (t : TransferDoubts) (p : Placed) (older : List Placed) → is_about t.number p ≡ false
        → is_it t.number (may_be_answer_of p older) ≡ false → IsDoubtedAfter t older → IsDoubtedAfter t (p ∷ older) }
{}
