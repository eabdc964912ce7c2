ghost use Rattle.std.specs.Prelude.{◌≡◌, ◌≤◌, length};
ghost use Rattle.std.specs.List.{All};
ghost use Rattle.std.specs.Net.Addr.{segments_of};
ghost use Rattle.std.specs.Net.Text.{ip_text, ipv4_text, ipv6_text};
ghost use Rattle.tftp_packet.specs.Hosts.{IsSign};
ghost use Rattle.audit_views.specs.Parties.Naming.{IsAddress, address_of, host_name};

use crate::views::Party;
use audit_flows::lines::{Address, Endpoint};
use net_udp::frames::write_address;
use std::net::IpAddr;
use tftp_packet::hosts::Host;

/// The address of a host, of the same version and with the same bytes.
pub fn address_of(address: IpAddr) -> Address
    ensures same { result ≡ address_of address }
    ensures address { IsAddress result }
{
    match address {
        IpAddr::V4(ipv4) => Address::V4(ipv4.octets()),
        IpAddr::V6(ipv6) => Address::V6(ipv6.octets()),
    }
}

/// What the host at an address is called in a capture text.
pub fn host_of(address: &Address) -> Host
    ensures name { result ≡ host_name address.now }
{
    match address {
        Address::V4(bytes) => ipv4_host(bytes),
        Address::V6(bytes) => ipv6_host(bytes),
    }
}

/// An end of a datagram, with the name of its host, which is what `write_address` writes of the address.
pub fn party_of(address: IpAddr, port: u16) -> Party
    ensures end { result.end ≡ record { address = address_of address; port = port } }
    ensures address { IsAddress result.end.address }
    ensures host { result.host ≡ host_name result.end.address }
    ensures text { result.host ≡ ip_text address }
{
    let address = address_of(address);
    let host = host_of(&address);
    Party {
        end: Endpoint { address, port },
        host,
    }
}

fn ipv4_host(bytes: &[u8; 4]) -> Host
    ensures { result ≡ ipv4_text bytes.now }
{
    host_written(&IpAddr::from(*bytes))
}

fn ipv6_host(bytes: &[u8; 16]) -> Host
    ensures { result ≡ ipv6_text (segments_of bytes.now) }
{
    host_written(&IpAddr::from(*bytes))
}

/// The host that the text of an address names.
fn host_written(address: &IpAddr) -> Host
    requires some { 1 ≤ length (ip_text address.now) }
    requires signs { All IsSign (ip_text address.now) }
    ensures { result ≡ ip_text address.now }
{
    let mut room = [0; 45];
    let len = write_address(address, &mut room);
    Host::new(&room[..len]).unwrap()
}
