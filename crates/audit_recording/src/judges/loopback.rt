//! Addresses that never leave a host.

ghost use Rattle.std.specs.Prelude.{◌≡◌};
ghost use Rattle.audit_recording.specs.Judges.Points.{is_loopback};

use audit_flows::lines::Address;

/// ::1, the loopback address of IP version 6 (RFC 4291, section 2.5.3).
const LOOPBACK: [u8; 16] = [0, 0, 0, 0, 0, 0, 0, 0, 0, 0, 0, 0, 0, 0, 0, 1];

/// Whether what is sent from this address never leaves its host: it is one of 127.0.0.0/8 (RFC 1122, section 3.2.1.3), or ::1.
pub fn is_loopback(address: &Address) -> bool
    ensures { result ≡ is_loopback address.now }
{
    match address {
        Address::V4(bytes) => bytes[0] == 127,
        Address::V6(bytes) => bytes.as_slice() == LOOPBACK.as_slice(),
    }
}
