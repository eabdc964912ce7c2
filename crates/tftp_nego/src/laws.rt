ghost use Rattle.std.specs.Prelude.{◌≡◌, ◌≢◌, None, Option, Some, codes};
ghost use Rattle.tftp_packet.specs.{OptionMap, no_options, RequestParts, map_of, Side};
ghost use Rattle.tftp_packet.specs.{Rollover};
ghost use Rattle.tftp_nego.specs.Agreement.{MayAgree};
ghost use Rattle.tftp_nego.specs.Faults.{AgreementBroken, FirstFault, Holds};
ghost use Rattle.tftp_nego.specs.Worked.{asks, one};
ghost use Rattle.tftp_nego.specs.declared.fault.NegoFault.{NegoFault};
ghost use Rattle.tftp_nego.specs.declared.rule.AgreementRule.{AgreementRule};

/// An OACK has at most one first fault.
#[tactic(auto, using(crate::proofs::FaultOrder::first_fault_unique))]
pub fn first_fault_is_one()
    ensures { (rollover : Option Rollover) (request : RequestParts) (agreed : OptionMap) (f g : NegoFault)
        → FirstFault rollover request agreed f → FirstFault rollover request agreed g → f ≡ g }
{}

/// What may be agreed to, and is not empty, has none of the faults.
#[tactic(auto, using(crate::proofs::Tested::no_fault))]
pub fn agreed_has_no_fault()
    ensures { (rollover : Option Rollover) (request : RequestParts) (agreed : OptionMap) (f : NegoFault)
        → agreed ≢ no_options → MayAgree rollover request agreed → FirstFault rollover request agreed f → ⊥ }
{}

/// Worked examples: a block size is lowered, and the size of a file that is read is told (RFC 2348, RFC 2349): at most 65535
/// blocks, and where numbers begin again more.
pub fn worked_agreements()
    ensures lowered { MayAgree None (asks Side.Get (one (codes "blksize") (codes "1024"))) (map_of (one (codes "blksize") (codes "0512"))) }
    ensures size { MayAgree None (asks Side.Get (one (codes "tsize") (codes "0"))) (map_of (one (codes "tsize") (codes "33553919"))) }
    ensures again { (rollover : Rollover) → MayAgree (Some rollover) (asks Side.Get (one (codes "tsize") (codes "0"))) (map_of (one (codes "tsize") (codes "4294966783"))) }
{}

/// Worked examples: a block size is raised (RFC 2348), the size of a file that is written is changed (RFC 2349), and
/// a file has one block too many (RFC 1350, section 5), with a rollover too.
pub fn worked_faults()
    ensures raised { AgreementBroken AgreementRule.OptionValue (asks Side.Get (one (codes "blksize") (codes "512"))) (map_of (one (codes "blksize") (codes "1024"))) }
    ensures changed { AgreementBroken AgreementRule.OptionValue (asks Side.Put (one (codes "tsize") (codes "10"))) (map_of (one (codes "tsize") (codes "11"))) }
    ensures beyond { Holds None NegoFault.BeyondBlock65535 (asks Side.Get (one (codes "tsize") (codes "0"))) (map_of (one (codes "tsize") (codes "33553920"))) }
    ensures beyond_again { (rollover : Rollover) → Holds (Some rollover) NegoFault.BeyondBlock65535 (asks Side.Get (one (codes "tsize") (codes "0"))) (map_of (one (codes "tsize") (codes "4294966784"))) }
{}
