//! Endpoints as they are shown.

ghost use Rattle.std.specs.Prelude.{◌≡◌, ◌++◌, IfOk, codes, decimal, string_bytes};
ghost use Rattle.audit_recording.specs.Session.Lines.{end_text, host_text};

use audit_flows::lines::{Address, Endpoint};
use std::alloc::{AllocError, Global};
use std::net::{IpAddr, Ipv4Addr, Ipv6Addr};

/// An endpoint as it is shown: the address and the port, an IPv6 address in brackets (RFC 3986, section 3.2.2).
pub fn shown(alloc: Global, end: Endpoint) -> Result<String, AllocError>
    ensures { IfOk result (λ text. string_bytes text ≡ end_text end) }
{
    let host = host_before_port(alloc, end.address)?;
    with_port(alloc, host.as_str(), end.port)
}

fn with_port(alloc: Global, host: &str, port: u16) -> Result<String, AllocError>
    ensures { IfOk result (λ text. string_bytes text ≡ host.now ++ (codes ":" ++ decimal port)) }
{
    format!(in alloc; "{host}:{port}")
}

fn host_before_port(alloc: Global, address: Address) -> Result<String, AllocError>
    ensures { IfOk result (λ text. string_bytes text ≡ host_text address) }
{
    match address {
        Address::V4(bytes) => {
            let host = Ipv4Addr::from(bytes);
            format!(in alloc; "{host}")
        }
        Address::V6(bytes) => {
            let host = Ipv6Addr::from(bytes);
            format!(in alloc; "[{host}]")
        }
    }
}

/// A host's address as it is shown.
pub fn shown_host(alloc: Global, address: Address) -> Result<String, AllocError> {
    let address = ip_of(address);
    format!(in alloc; "{address}")
}

fn ip_of(address: Address) -> IpAddr {
    match address {
        Address::V4(bytes) => IpAddr::V4(Ipv4Addr::from(bytes)),
        Address::V6(bytes) => IpAddr::V6(Ipv6Addr::from(bytes)),
    }
}
