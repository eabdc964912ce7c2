//! The numbers of blocks, which two bytes hold (RFC 1350, section 5).

ghost use Rattle.std.specs.Prelude.{◌≡◌, ◌≤◌};
ghost use Rattle.tftp_packet.specs.Rounds.{greatest_of};
ghost use Rattle.tftp_normal.specs.Normal.{number_by};

use tftp_packet::rounds::Rollover;

/// The number of a block in a datagram, by what comes after block 65535 where anything does.
#[inline]
pub(crate) fn number_of(rollover: Option<Rollover>, block: u32) -> u16
    requires { block ≤ greatest_of rollover }
    ensures { result ≡ number_by rollover block }
{
    match rollover {
        None => block as u16,
        Some(Rollover::Zero) => (block % 65_536) as u16,
        Some(Rollover::One) => {
            if block == 0 {
                return 0;
            }
            ((block - 1) % 65_535 + 1) as u16
        }
    }
}
