//! Laws of the definitions in `specs/`. Each is the contract of a function that does nothing.

ghost use Rattle.std.specs.Prelude.{◌≡◌, ◌≢◌, ◌≤◌, ◌↔◌, ◌⊎◌, ℕ, List, [], ◌∷◌, ◌++◌, All, None, Option, length};
ghost use Rattle.tftp_packet.specs.{Mode, OptionMap, no_options, RequestParts, In, Out};
ghost use Rattle.tftp_nego.specs.{MayAgree, Holds, NegoFault};
ghost use Rattle.tftp_packet.specs.{Rollover};
ghost use Rattle.law_model.specs.Model.{Meaning};
ghost use Rattle.tftp_packet.specs.Hosts.{Datagram, Header};
ghost use Rattle.law_end.specs.Fitting.{IsWritable, ReadsAs, carried_file};
ghost use Rattle.law_end.specs.Writable.{CanBeNumbered, CanBeWritten};
ghost use Rattle.law_end.specs.Law.{Shows, IsLawful, IsLawfulUpTo};
ghost use Rattle.law_end.specs.Rules.{number_of, FirstBroken};
ghost use Rattle.law_end.specs.declared.rule.Rule.{Rule};
ghost use Rattle.law_end.specs.Aborted.{IsAborted, IsErrorBy, IsNotAborted};
ghost use Rattle.law_end.specs.declared.aborted_by.AbortedBy.{AbortedBy};
ghost use Rattle.law_end.specs.declared.aborted_by.AbortedBy.TheVariants.{Local, Peer};
ghost use Rattle.law_end.specs.OneEnd.{OneEnded, IsRefused, Meant};

/// Options that may be agreed have none of the faults of an OACK, where there are any (RFC 2347).
pub fn agreed_options_have_no_fault()
    ensures { (rollover : Option Rollover) (request : RequestParts) (oack : OptionMap) → MayAgree rollover request oack
        → oack ≢ no_options → (fault : NegoFault) → Holds rollover fault request oack → ⊥ }
{}

/// And options without a fault may be agreed.
#[tactic(auto, using(crate::proofs::FirstBroken::Agreed::without_fault))]
pub fn options_without_fault_may_be_agreed()
    ensures { (rollover : Option Rollover) (request : RequestParts) (oack : OptionMap)
        → ((fault : NegoFault) → Holds rollover fault request oack → ⊥) → MayAgree rollover request oack }
{}

/// A datagram has at most one first rule that it breaks, by the rule's number.
#[tactic(auto, using(crate::proofs::FirstBroken::FirstBroken::one_first_broken))]
pub fn first_broken_rule_is_one()
    ensures { (header : Header) (earlier : List Datagram) (d : Datagram) (r q : Rule) → FirstBroken header earlier d r
        → FirstBroken header earlier d q → number_of r ≡ number_of q }
{}

/// A datagram that is refused does not pass after those before it.
#[tactic(auto, using(crate::proofs::FirstBroken::FirstBroken::refused_does_not_pass))]
pub fn refused_does_not_pass()
    ensures { (header : Header) (earlier : List Datagram) (d : Datagram) (rule : Rule) → IsRefused header earlier d rule
        → OneEnded header (d ∷ earlier) → ⊥ }
{}

/// The ERROR that ended a transfer is one: it has one author and one code. And lawful datagrams have one, or none.
pub fn the_first_error_is_one()
    ensures one { (header : Header) (earlier : List Datagram) (by other : AbortedBy) (code number : ℕ)
        → IsAborted header earlier by code → IsAborted header earlier other number → (by ≡ other) × (code ≡ number) }
    ensures none { (header : Header) (earlier : List Datagram) (by : AbortedBy) (code : ℕ) → IsNotAborted header earlier
        → IsAborted header earlier by code → ⊥ }
    ensures either { (header : Header) (earlier : List Datagram) → OneEnded header earlier
        → ((by : AbortedBy) × (code : ℕ) × IsAborted header earlier by code) ⊎ IsNotAborted header earlier }
{}

/// An ERROR that goes out is this end's own, and one that comes in is the other end's.
pub fn an_error_is_of_the_end_that_sent_it()
    ensures own { (d : Datagram) (by : AbortedBy) (code : ℕ) → IsErrorBy d by code → d.dir ≡ Out → by ≡ Local }
    ensures others { (d : Datagram) (by : AbortedBy) (code : ℕ) → IsErrorBy d by code → d.dir ≡ In → by ≡ Peer }
{}

/// The ERROR that ended a transfer stays that one, whatever comes after it.
pub fn the_first_error_stays()
    ensures { (header : Header) (earlier : List Datagram) (d : Datagram) (by : AbortedBy) (code : ℕ) → IsAborted header earlier by code
        → IsAborted header (d ∷ earlier) by code }
{}

/// A capture that the rules accept has one meaning.
pub fn meaning_is_one()
    ensures { (header : Header) (earlier : List Datagram) (m n : Meaning) → Meant header earlier m → Meant header earlier n → m ≡ n }
{}

/// A wire carries one file, which can be computed from it (RFC 1350, section 1).
#[tactic(auto, using(crate::proofs::Whole::CarriedFile::carried_one))]
pub fn wire_carries_one_file()
    ensures { (mode : Mode) (wire file : List ℕ) → ReadsAs mode wire file ↔ (file ≡ carried_file mode wire) }
{}

/// A capture that shows a transfer is lawful.
pub fn shown_is_lawful()
    ensures { (header : Header) (m : Meaning) (datagrams : List Datagram) → Shows header m datagrams
        → IsLawful header datagrams }
{}

/// The empty capture is lawful, and so is what a lawful one begins with.
pub fn beginnings_are_lawful()
    ensures empty { (header : Header) → IsLawful header [] }
    ensures beginning { (header : Header) (datagrams more : List Datagram) → IsLawful header (datagrams ++ more)
        → IsLawful header datagrams }
{}

/// So a capture is unlawful from one datagram on.
pub fn first_unlawful_datagram_is_one()
    ensures { (header : Header) (datagrams : List Datagram) (i j : ℕ) → IsLawfulUpTo header datagrams i
        → IsLawfulUpTo header datagrams j → i ≡ j }
{}

/// Whatever a capture shows can be written, where no payload is longer than a packet of UDP holds.
pub fn shown_meaning_can_be_written()
    ensures { (h : Header) (m : Meaning) (datagrams : List Datagram) → All (λ (d : Datagram). length d.payload ≤ 65527) datagrams
        → Shows h m datagrams → CanBeWritten h.rollover m }
{}

/// What can be written with numbers that begin again can be written without, where it has few enough blocks.
#[tactic(auto, using(crate::proofs::Written::Written::by_two_bytes))]
pub fn few_blocks_need_no_rollover()
    ensures { (m : Meaning) → CanBeNumbered m → IsWritable None m → CanBeWritten None m }
{}
