//! Laws of the definitions in `specs/`. Each is the contract of a function that does nothing.

ghost use Rattle.std.specs.Prelude.{◌≡◌, ◌≤◌, ◌^◌, ℕ, List, Some, length, reverse, false};
ghost use Rattle.std.specs.List.{AllByRecursion};
ghost use Rattle.audit_recording.specs.Between.{is_to_itself, sides_of};
ghost use Rattle.tftp_capture.specs.{text_with_hosts};
ghost use Rattle.audit_views.specs.Parties.{host_name};
ghost use Rattle.audit_recording.specs.Audit.Sound.{IsSoundDatagram};
ghost use Rattle.audit_recording.specs.Judges.{opened};
ghost use Rattle.law_tap.specs.{AreApart};
ghost use Rattle.audit_flows.specs.Transfers.{placed};
ghost use Rattle.audit_flows.specs.Lines.{Recorded};
ghost use Rattle.audit_flows.specs.{Transfer};
ghost use Rattle.audit_views.specs.Views.{client_capture, client_header, server_capture, server_header, AreWritten};

/// What each end of a transfer saw of a recording can be written as a capture text, unless that were longer than a capture
/// text may be: so the verdict that the judges of a recording give is that of this text.
pub fn captures_of_a_recording_can_be_written()
    ensures client { (named : List ℕ) (passed : List Recorded) (n : ℕ) (x : Transfer) → AllByRecursion IsSoundDatagram passed → opened n (placed named passed) ≡ Some x
        → length (text_with_hosts (client_header x) (reverse (client_capture host_name x (placed named passed)))) ≤ 2 ^ 40
        → AreWritten (client_header x) (client_capture host_name x (placed named passed)) }
    ensures server { (named : List ℕ) (passed : List Recorded) (n : ℕ) (x : Transfer) → AllByRecursion IsSoundDatagram passed → opened n (placed named passed) ≡ Some x
        → length (text_with_hosts (server_header x) (reverse (server_capture host_name x (placed named passed) (placed named passed)))) ≤ 2 ^ 40
        → AreWritten (server_header x) (server_capture host_name x (placed named passed) (placed named passed)) }
{}

/// Of a recording the sides of a transfer are hosts with addresses: unless its client asked itself, or is the server, it is
/// apart from both, so that what there is to say between the ends is their verdict.
pub fn sides_of_a_recording_are_apart()
    ensures { (named : List ℕ) (passed : List Recorded) (n : ℕ) (x : Transfer) → AllByRecursion IsSoundDatagram passed → opened n (placed named passed) ≡ Some x
        → is_to_itself x (placed named passed) ≡ false → AreApart (sides_of x (placed named passed)) }
{}
