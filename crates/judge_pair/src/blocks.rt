//! Which block a payload is of, where numbers begin again after 65535 (RFC 1350, section 5, gives them two bytes and says no more).

ghost use Rattle.std.specs.Prelude.{◌≡◌, ◌<◌, ◌≤◌, ℕ, List, Some, None, if◌then◌else◌, IfOk, IfErr, IfSome, IfNone};
ghost use Rattle.tftp_packet.specs.{Message, Rollover as RolloverKind, Spells, meaning};
ghost use Rattle.law_rollover.specs.{carries_number, unrolled_payload, with_place};
ghost use Rattle.judge_pair.specs.Blocks.{block_or, with_block};

use tftp_packet::rounds::{Rollover, greatest_block};
use tftp_packet::{Packet, PacketFault, ack_of, block_of, read_packet};

/// The block that was read, or else the number.
#[inline]
pub fn block_by(number: u16, block: Option<u32>) -> u32
    ensures { result ≡ block_or number block }
{
    match block {
        Some(block) => block,
        None => u32::from(number),
    }
}

/// The number of a block or an ACK, where the payload has one.
#[inline]
fn number_of(payload: &[u8]) -> Option<u16>
    ensures number { IfSome result (λ number. (place : ℕ → ℕ) → with_place place payload.now ≡ with_place (λ _. place number) payload.now) }
    ensures none { IfNone result ((place : ℕ → ℕ) → (if carries_number payload.now then with_place place payload.now else payload.now) ≡ payload.now) }
{
    if let Some((number, _)) = block_of(payload) {
        return Some(number);
    }
    ack_of(payload)
}

/// The block that the payload's number is of, where numbers begin again and no block above `highest` has passed.
#[inline]
pub fn block_in(rollover: Option<Rollover>, highest: u32, payload: &[u8]) -> Option<u32>
    ensures none { rollover ≡ None → result ≡ None }
    ensures near { (r : RolloverKind) → rollover ≡ Some r → highest ≤ 8388607 → with_block result payload.now ≡ unrolled_payload r highest payload.now }
    ensures low { IfSome result (λ block. block < 8421376) }
{
    let rollover = rollover?;
    let number = number_of(payload)?;
    Some(rollover.position(highest.min(greatest_block(Some(rollover))), number))
}

/// The packet that a payload spells with this block in the place of its number.
pub fn packet_by(block: Option<u32>, payload: &[u8]) -> Result<Packet<'_>, PacketFault>
    ensures found { IfOk result (λ packet. Spells (with_block block payload.now) (meaning packet)) }
    ensures none { IfErr result (λ _. (m : Message) → Spells (with_block block payload.now) m → ⊥) }
{
    let Some(block) = block else {
        return read_packet(payload);
    };
    if let Some((_, bytes)) = block_of(payload) {
        return Ok(Packet::Data { block, bytes });
    }
    if let Some(_) = ack_of(payload) {
        return Ok(Packet::Ack { block });
    }
    read_packet(payload)
}
