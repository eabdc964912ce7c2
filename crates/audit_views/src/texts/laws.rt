//! Laws of the definitions in `specs/`. Each is the contract of a function that does nothing.

ghost use Rattle.std.specs.Prelude.{◌≡◌, ◌^◌, ◌≤◌, [], ℕ, List, None, Option, Result, All, length, reverse};
ghost use Rattle.tftp_capture.specs.{IsCapture, IsLawful, IsPort, Numbered};
ghost use Rattle.tftp_packet.specs.Hosts.{Datagram, Header};
ghost use Rattle.law_model.specs.Model.{Meaning};
ghost use Rattle.tftp_judge.specs.{IsTextVerdictBy, unnumbered, IsSaid, IsSaidBy, Refusal};
ghost use Rattle.tftp_packet.specs.{Client, Rollover, Server};
ghost use Rattle.audit_flows.specs.Lines.{Placed};
ghost use Rattle.audit_flows.specs.Transfers.{asked_twice, placed};
ghost use Rattle.audit_flows.specs.{Transfer};
ghost use Rattle.audit_views.specs.Views.{Naming, client_capture, server_capture, of_text};
ghost use Rattle.audit_views.specs.Texts.Views.{IsTextOf, capture_at, entries_at};
ghost use Rattle.audit_views.specs.Texts.Worked.{asked_twice_entries, in_frames};
ghost use Rattle.audit_views.specs.Views.Worked.{by_bytes, first_transfer};

/// A text of datagrams that can stand in one is a capture of just these; and what there is to say of them is its verdict, whatever comes
/// after block 65535.
pub fn a_text_of_datagrams_is_their_capture()
    ensures read { (text : List ℕ) (h : Header) (given : List Datagram) → IsTextOf text h given → IsPort h.service → h.rollover ≡ None → All IsLawful (reverse given) → length text ≤ 2 ^ 40
        → (datagrams : List Numbered) × IsCapture text h datagrams × (unnumbered datagrams ≡ reverse given) }
    ensures verdict { (text : List ℕ) (h : Header) (given : List Datagram) → IsTextOf text h given → IsPort h.service → h.rollover ≡ None → All IsLawful (reverse given) → length text ≤ 2 ^ 40
        → (rollover : Option Rollover) (said : Result Meaning Refusal) → IsSaid said → IsSaidBy rollover said h (reverse given) → IsTextVerdictBy rollover text (of_text said) }
{}

/// What stands in the text of an end is what the judge of that end was given.
pub fn a_text_has_what_its_judge_was_given()
    ensures client { (name : Naming) (x : Transfer) (whole part : List Placed) → capture_at Client name x whole part ≡ client_capture name x part }
    ensures server { (name : Naming) (x : Transfer) (whole part : List Placed) → capture_at Server name x whole part ≡ server_capture name x whole part }
{}

/// Each datagram that the server saw stands behind its own comment; the stranger's block, in frame 4, does not.
pub fn worked_text()
    ensures { entries_at Server by_bytes first_transfer (placed [] asked_twice) (reverse (in_frames (placed [] asked_twice))) ≡ asked_twice_entries }
{}
