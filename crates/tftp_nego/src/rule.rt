ghost use Rattle.std.specs.Prelude.{◌≡◌};
ghost use Rattle.tftp_nego.specs.AgreementNames.{agreement_name, agreement_number};

use thiserror::Error;

/// A rule on what the first OACK may agree to, in the order in which they are tried.
#[derive(Clone, Copy, Debug, PartialEq, Eq, Error)]
pub enum AgreementRule {
    /// The OACK has no option (RFC 2347).
    #[error("an OACK without options")]
    OackEmpty,
    /// The OACK names `multicast` (RFC 2090), which is not agreed to.
    #[error("multicast")]
    MulticastAgreed,
    /// An option that the request does not ask for (RFC 2347).
    #[error("an option that was not requested")]
    OptionNotRequested,
    /// An option that was asked for, but is none of `blksize`, `timeout`, `tsize` and `windowsize` (RFC 2347).
    #[error("an option that is not supported")]
    OptionOutsideProfile,
    /// A value that may not answer the value asked for (RFC 2348; RFC 2349; RFC 7440).
    #[error("a value that does not answer the request")]
    OptionValue,
}

impl AgreementRule {
    /// The rule's place among all rules, 11 to 15.
    pub fn number(self) -> u8
        ensures { result ≡ agreement_number self }
    {
        match self {
            AgreementRule::OackEmpty => 11,
            AgreementRule::MulticastAgreed => 12,
            AgreementRule::OptionNotRequested => 13,
            AgreementRule::OptionOutsideProfile => 14,
            AgreementRule::OptionValue => 15,
        }
    }

    /// The rule's name as it is printed.
    pub fn name(self) -> &'static str
        ensures { result.now ≡ agreement_name self }
    {
        match self {
            AgreementRule::OackEmpty => "OackEmpty",
            AgreementRule::MulticastAgreed => "MulticastAgreed",
            AgreementRule::OptionNotRequested => "OptionNotRequested",
            AgreementRule::OptionOutsideProfile => "OptionOutsideProfile",
            AgreementRule::OptionValue => "OptionValue",
        }
    }
}
