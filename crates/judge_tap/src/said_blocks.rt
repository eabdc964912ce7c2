ghost use Rattle.std.specs.Prelude.{◌≡◌, None, IfOk, OnErr};
ghost use Rattle.std.specs.FinMap as map;
ghost use Rattle.tftp_ends.specs.Blocks.Store.{Places, nothing_held};
ghost use Rattle.tftp_ends.specs.Blocks.Placement.{placing};

use std::alloc::{AllocError, Global};
use std::collections::BTreeMap;
use std::marker::Model;
use tftp_ends::blocks::PutOutcome;

/// The blocks of a transfer that were recorded, by their numbers, in whatever order they passed (RFC 1350, section 5).
#[derive(Drop)]
pub struct SaidBlocks {
    by_number: BTreeMap<u32, Vec<u8>>,
}

impl Model for SaidBlocks {
    ghost use Rattle.tftp_ends.specs.Blocks.Store.{Held};
    ghost use Rattle.tftp_ends.specs.Blocks.Kept.{held_in};
    ghost use Rattle.judge_tap.specs.Said.{blocks_code};

    ghost Value = { Held };

    ghost coded = { blocks_code };

    ghost view = { λ b. held_in b.by_number.entries };
}

impl SaidBlocks {
    /// No block. Takes no memory.
    pub fn none(alloc: Global) -> Self
        ensures { result ≡ nothing_held }
    {
        SaidBlocks {
            by_number: BTreeMap::new(alloc),
        }
    }

    /// Keeps a block, where none with its number is kept. Takes memory for such a one alone.
    pub fn put(
        &mut self,
        alloc: Global,
        number: u32,
        bytes: &[u8],
    ) -> Result<PutOutcome, AllocError>
        ensures ok { IfOk result (λ placed. Places self.old self.new number bytes.now (placing placed)) }
        ensures absent { OnErr result (map.get self.old number ≡ None) }
    {
        match self.by_number.get(&number) {
            Some(held) => {
                if held.as_slice() == bytes {
                    return Ok(PutOutcome::Same);
                }
                return Ok(PutOutcome::Differs);
            }
            None => {}
        }
        let copy = Vec::from_slice(alloc, bytes)?;
        self.by_number.insert(number, copy)?;
        Ok(PutOutcome::New)
    }
}
