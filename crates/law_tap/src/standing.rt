ghost use Rattle.std.specs.Prelude.{◌↔◌, IsTrue};
ghost use Rattle.law_tap.specs.LossyRules.{StandsWhateverIsMissing};
ghost use Rattle.law_tap.specs.StandingAtEnd.{StandsAtEnd, StandsOfItsOwn};

use law_end::Rule;
use law_model::rules::{EndRule, PortRule};

/// Whether a refusal by this rule between the ends needs no premise of a whole recording: what breaks it after datagrams that
/// break none does so however many frames were missed (RFC 1350, sections 2, 4 and 7; RFC 2347).
pub fn stands_whatever_is_missing(rule: Rule) -> bool
    ensures { IsTrue result ↔ StandsWhateverIsMissing rule }
{
    match rule {
        Rule::Port(port) => match port {
            PortRule::Foreign | PortRule::BadAnswer => true,
            PortRule::Wrong => false,
        },
        Rule::Malformed(_) | Rule::WrongKind | Rule::AfterError | Rule::RequestChanged => true,
        Rule::Agreement(_) | Rule::OackChanged => true,
        Rule::Block(block) => matches!(block, EndRule::BlockZero | EndRule::BlockChanged),
        Rule::NoRequest | Rule::RequestAfterStart | Rule::ReplyChanged | Rule::OackAfterStart => {
            false
        }
    }
}

/// Whether a refusal by this rule at an end that knows the other one needs no premise of a whole recording (RFC 1350, sections 2, 4
/// and 7; RFC 2347).
pub fn stands_at_end(rule: Rule) -> bool
    ensures { IsTrue result ↔ StandsAtEnd rule }
{
    match rule {
        Rule::Port(_) => false,
        Rule::RequestAfterStart | Rule::OackAfterStart => true,
        _ => stands_whatever_is_missing(rule),
    }
}

/// The same of what an end sent itself, whether it knows the other one or not.
pub fn stands_of_its_own(rule: Rule) -> bool
    ensures { IsTrue result ↔ StandsOfItsOwn rule }
{
    !matches!(rule, Rule::AfterError) && stands_at_end(rule)
}
