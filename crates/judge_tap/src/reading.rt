//! What a payload says between the ends, where numbers begin again after 65535 (RFC 1350, section 5, gives them two bytes and says no
//! more).

ghost use Rattle.std.specs.List.{AllByRecursion};
ghost use Rattle.std.specs.Prelude.{◌≡◌, ◌<◌, ◌≤◌, List, ℕ};
ghost use Rattle.tftp_packet.specs.Rounds.{position_of};
ghost use Rattle.law_rollover.specs.{unrolled_payload};
ghost use Rattle.law_tap.specs.{IsHighBetween, IsTakenBetween, TapDatagram};
ghost use Rattle.judge_tap.specs.TapFinds.{IsReadOf};

use tftp_packet::rounds::{Rollover, greatest_block};
use tftp_packet::{Packet, PacketFault, ack_of, block_of, read_packet};

/// The packet that a payload says, where no block above `highest` has passed: with a rollover its number is taken for the block near
/// that one.
pub fn read_taken(
    rollover: Option<Rollover>,
    highest: u32,
    payload: &[u8],
) -> Result<Packet<'_>, PacketFault>
    ensures { (passed : List TapDatagram) (now : List ℕ) → IsHighBetween passed highest → highest ≤ 8388607
        → IsTakenBetween rollover passed payload.now now → IsReadOf now result }
{
    match rollover {
        Some(rollover) => read_near(rollover, highest, payload),
        None => read_packet(payload),
    }
}

/// The same by this rollover.
fn read_near(rollover: Rollover, highest: u32, payload: &[u8]) -> Result<Packet<'_>, PacketFault>
    ensures { highest ≤ 8388607 → IsReadOf (unrolled_payload rollover highest payload.now) result }
{
    if let Some((number, bytes)) = block_of(payload) {
        let block = position(rollover, highest, number);
        return Ok(Packet::Data { block, bytes });
    }
    if let Some(number) = ack_of(payload) {
        let block = position(rollover, highest, number);
        return Ok(Packet::Ack { block });
    }
    read_packet(payload)
}

/// The block near the highest one that has this number.
fn position(rollover: Rollover, highest: u32, number: u16) -> u32
    ensures { highest ≤ 8388607 → result ≡ position_of rollover highest number }
{
    rollover.position(highest.min(greatest_block(Some(rollover))), number)
}

/// A payload is bytes. It does nothing.
pub fn holds_bytes(payload: &[u8])
    ensures { AllByRecursion (λ b. b < 256) payload.now }
{}
