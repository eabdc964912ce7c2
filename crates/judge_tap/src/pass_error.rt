ghost use Rattle.std.specs.Prelude.{◌≡◌};
ghost use Rattle.law_tap.specs.{is_of_ports};
ghost use Rattle.judge_tap.specs.TapStops.{smaller_of, error_by_refusal};

use law_end::Rule;
use tftp_judge::{PassError, Refusal};

/// Why the judge at an end does not go on.
pub fn error_of(refusal: Refusal) -> PassError
    ensures { result ≡ error_by_refusal refusal }
{
    match refusal {
        Refusal::Unlawful(_, rule) => PassError::Broken(rule),
        _ => PassError::Memory,
    }
}

/// The smaller of two rules that are the first of their kinds; where there is one of one kind alone, that one. A rule of ports that
/// the end that gets the file would find gives way: between the ends those are told by the two sides alone.
pub fn first_of(own: Option<Rule>, found: Result<(), PassError>) -> Result<(), PassError>
    ensures { result ≡ smaller_of own found }
{
    let Some(own) = own else {
        return found;
    };
    match found {
        Err(PassError::Broken(other)) if !tells_ports(other) && other.number() < own.number() => {
            Err(PassError::Broken(other))
        }
        _ => Err(PassError::Broken(own)),
    }
}

/// Whether this is one of the rules of ports and hosts (RFC 1350, section 4).
fn tells_ports(rule: Rule) -> bool
    ensures { result ≡ is_of_ports rule }
{
    matches!(rule, Rule::Port(_))
}
