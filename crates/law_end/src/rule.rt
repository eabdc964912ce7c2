ghost use Rattle.std.specs.Prelude.{◌≡◌};
ghost use Rattle.law_end.specs.RuleNames.{rule_name};
ghost use Rattle.law_end.specs.Rules.{number_of};

use law_model::rules::{EndRule, PortRule};
use tftp_nego::AgreementRule;
use tftp_packet::PacketFault;

/// A rule that a datagram may break, in the order in which the rules are tried.
#[derive(Clone, Copy, Debug, PartialEq, Eq)]
pub enum Rule {
    /// A rule of ports and hosts (RFC 1350, section 4).
    Port(PortRule),
    /// The transfer does not begin with a request (RFC 1350, section 4).
    NoRequest,
    /// The payload spells no packet (RFC 1350, section 5; RFC 2347).
    Malformed(PacketFault),
    /// The sender has nothing of this kind to send (RFC 1350, sections 2 and 4).
    WrongKind,
    /// After an ERROR its end sent something else (RFC 1350, section 7).
    AfterError,
    /// A request that is not the first one again (RFC 1350, section 4).
    RequestChanged,
    /// A request after a block or an ACK of the client (RFC 1350, section 4).
    RequestAfterStart,
    /// An OACK where the request was answered without one (RFC 2347).
    ReplyChanged,
    /// A rule on what the first OACK may agree to (RFC 2347; RFC 2348; RFC 2349; RFC 7440).
    Agreement(AgreementRule),
    /// An OACK that is not the first one again (RFC 2347).
    OackChanged,
    /// The server of a read sends an OACK after a block (RFC 2347).
    OackAfterStart,
    /// A rule of blocks and acknowledgements (RFC 1350, sections 2, 4 and 5; RFC 2347; RFC 2348; RFC 2349; RFC 7440).
    Block(EndRule),
}

impl Rule {
    /// The rule's place in the order in which the rules are tried, from 1.
    pub fn number(self) -> u8
        ensures { result ≡ number_of self }
    {
        match self {
            Rule::Port(rule) => rule.number(),
            Rule::NoRequest => 4,
            Rule::Malformed(_) => 5,
            Rule::WrongKind => 6,
            Rule::AfterError => 7,
            Rule::RequestChanged => 8,
            Rule::RequestAfterStart => 9,
            Rule::ReplyChanged => 10,
            Rule::Agreement(rule) => rule.number(),
            Rule::OackChanged => 16,
            Rule::OackAfterStart => 17,
            Rule::Block(rule) => rule.number(),
        }
    }

    /// The rule's name as it is printed, without what is wrong with a payload.
    pub fn name(self) -> &'static str
        ensures { result.now ≡ rule_name self }
    {
        match self {
            Rule::Port(rule) => rule.name(),
            Rule::NoRequest => "NoRequest",
            Rule::Malformed(_) => "Malformed",
            Rule::WrongKind => "WrongKind",
            Rule::AfterError => "AfterError",
            Rule::RequestChanged => "RequestChanged",
            Rule::RequestAfterStart => "RequestAfterStart",
            Rule::ReplyChanged => "ReplyChanged",
            Rule::Agreement(rule) => rule.name(),
            Rule::OackChanged => "OackChanged",
            Rule::OackAfterStart => "OackAfterStart",
            Rule::Block(rule) => rule.name(),
        }
    }
}
