ghost use Rattle.std.specs.Prelude.{◌≡◌, ◌≤◌, length};
ghost use Rattle.net_udp.specs.Frames.OverUdp.{is_tunnel_port, payload_of, is_vxlan, is_geneve, is_over_udp, over_udp_type, over_udp_size};

use crate::frames::number::{byte_at, pair_at};
use crate::frames::tag::is_said;

/// The port of VXLAN (RFC 7348, section 5).
const VXLAN: u16 = 4789;

/// The port of Geneve (RFC 8926, section 3.3).
const GENEVE: u16 = 6081;

/// The type of a frame of Ethernet in a tunnel (RFC 1701, section 3).
pub const ETHERNET: u16 = 0x6558;

/// Whether a port is that of a tunnel over UDP.
#[inline]
pub fn is_tunnel_port(port: u16) -> bool
    ensures { result ≡ is_tunnel_port port }
{
    port == VXLAN || port == GENEVE
}

/// What is there of the payload of a datagram, from its header on, and no more than its length says.
#[inline]
pub fn payload_of(bytes: &[u8]) -> &[u8]
    requires { 8 ≤ length bytes.now }
    ensures { result.now ≡ payload_of bytes.now }
{
    let rest = bytes.split_at(8).1;
    let said = usize::from(pair_at(bytes, 4)).saturating_sub(8);
    rest.split_at(said.min(rest.len())).0
}

/// Whether a payload begins with a header of VXLAN (RFC 7348, section 5), as far as its bytes go.
#[inline]
fn is_vxlan(payload: &[u8]) -> bool
    ensures { result ≡ is_vxlan payload.now }
{
    (is_said(payload, 0, 8) && is_said(payload, 1, 0))
        && (is_said(payload, 2, 0) && is_said(payload, 3, 0) && is_said(payload, 7, 0))
}

/// Whether a payload begins with a header of Geneve (RFC 8926, section 3.4), as far as its bytes go.
#[inline]
fn is_geneve(payload: &[u8]) -> bool
    ensures { result ≡ is_geneve payload.now }
{
    byte_at(payload, 0) < 64
        && (is_said(payload, 1, 0) || is_said(payload, 1, 64))
        && is_said(payload, 7, 0)
}

/// Whether a datagram, from its header on, is one of a tunnel.
#[inline]
pub fn is_over_udp(bytes: &[u8]) -> bool
    ensures { result ≡ is_over_udp bytes.now }
{
    if bytes.len() < 8 {
        return false;
    }
    let port = pair_at(bytes, 2);
    let payload = payload_of(bytes);
    (port == VXLAN && is_vxlan(payload)) || (port == GENEVE && is_geneve(payload))
}

/// The type of what a tunnel carries.
#[inline]
pub fn over_udp_type(bytes: &[u8], payload: &[u8]) -> u16
    requires long { 8 ≤ length bytes.now }
    requires head { 8 ≤ length payload.now }
    requires is { payload.now ≡ payload_of bytes.now }
    ensures { result ≡ over_udp_type bytes.now }
{
    if pair_at(bytes, 2) == VXLAN {
        ETHERNET
    } else {
        pair_at(payload, 2)
    }
}

/// How many bytes the header of a tunnel has, its options among them.
#[inline]
pub fn over_udp_size(bytes: &[u8], payload: &[u8]) -> usize
    requires long { 8 ≤ length bytes.now }
    requires is { payload.now ≡ payload_of bytes.now }
    ensures is { result ≡ over_udp_size bytes.now }
    ensures least { 8 ≤ result }
{
    if pair_at(bytes, 2) == VXLAN {
        8
    } else {
        8 + usize::from(byte_at(payload, 0)) * 4
    }
}
