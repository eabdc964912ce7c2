//! Laws of the definitions in `specs/`. Each is the contract of a function that does nothing.

ghost use Rattle.std.specs.Prelude.{◌≡◌, ◌≢◌, ℕ, List, [], ◌∷◌, None, Some, codes};
ghost use Rattle.std.specs.FinMap as map;
ghost use Rattle.tftp_ends.specs.Blocks.Store.{Held, IsHeldFront, JoinsSeveral, Takes, Placing, Places};
ghost use Rattle.tftp_ends.specs.Blocks.Ring.{total, IsRoom};
ghost use Rattle.tftp_ends.specs.Blocks.WorkedStore.{first_held, first_and_fourth};

/// A block that is handed over is held then, unless other bytes are, and the other blocks are as before.
pub fn placed_blocks_are_held()
    ensures held { (old new : Held) (k : ℕ) (bytes : List ℕ) (placing : Placing) → Places old new k bytes placing
        → placing ≢ Placing.Differs → map.get new k ≡ Some bytes }
    ensures others { (old new : Held) (k : ℕ) (bytes : List ℕ) (placing : Placing) → Places old new k bytes placing
        → (other : ℕ) → other ≢ k → map.get new other ≡ map.get old other }
{}

/// Blocks of eight bytes in a window of four, where the first is held, and then the fourth: the front is 1, so the
/// fifth may come and the sixth may not; and the third is not the last. The first alone is to be joined.
pub fn two_held_blocks()
    ensures new { Places first_held first_and_fourth 4 (codes "44444444") Placing.New }
    ensures same { Places first_held first_held 1 (codes "11111111") Placing.Same }
    ensures differs { Places first_held first_held 1 (codes "11111112") Placing.Differs }
    ensures front { IsHeldFront first_and_fourth 1 }
    ensures fifth { Takes 8 4 first_and_fourth 5 8 }
    ensures sixth { Takes 8 4 first_and_fourth 6 8 → ⊥ }
    ensures short_third { Takes 8 4 first_and_fourth 3 7 → ⊥ }
    ensures alone { JoinsSeveral first_and_fourth → ⊥ }
{}

/// Of a ring for blocks of eight bytes in a window of four: where one waits, 2,097,216 bytes may be kept and no more, and
/// where none does, none.
pub fn bytes_kept_of_a_ring()
    ensures total { total (None ∷ Some (codes "33333333") ∷ []) ≡ 8 }
    ensures most { IsRoom 8 4 (None ∷ Some (codes "33333333") ∷ []) 2097216 }
    ensures more { IsRoom 8 4 (None ∷ Some (codes "33333333") ∷ []) 2097217 → ⊥ }
    ensures none { IsRoom 8 4 [] 1 → ⊥ }
{}
