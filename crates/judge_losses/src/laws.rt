//! Laws of the definitions in `specs/Places.antt`. Each is the contract of a function that does nothing.

ghost use Rattle.std.specs.Prelude.{◌≡◌, ◌+◌, List, [], ◌∷◌, length, reverse};
ghost use Rattle.tftp_packet.specs.Hosts.{Datagram, Header};
ghost use Rattle.law_tap.specs.{IsLawfulWithLosses, hi_in, read_without_block, whole_read};
ghost use Rattle.judge_losses.specs.Places.{AreMissing, Fills, IsPlaceOf, missing_at};
ghost use Rattle.judge_losses.specs.declared.place.Place.{Place};

/// What is lawful with some that are put in is lawful with losses.
pub fn what_is_mended_is_lawful_with_losses()
    ensures { (h : Header) (places : List Place) (recorded : List Datagram) → AreMissing h places recorded → IsLawfulWithLosses h recorded }
{}

/// The numbers of all places tell how many are put in.
pub fn places_count_all()
    ensures { (h : Header) (places : List Place) (recorded : List Datagram) (x : AreMissing h places recorded)
        → length x.all ≡ length recorded + missing_at places }
{}

/// Of a read of one block the recorder missed the block. It came in before the ACK, which is the second datagram of the recording;
/// it did not go out, and came in no later.
pub fn a_missed_block_is_put_in_before_its_ack()
    ensures there { Fills (record { before = 2; came = 1; sent = 0 } ∷ []) (reverse whole_read) (reverse read_without_block) }
    ensures way { IsPlaceOf (record { before = 2; came = 0; sent = 1 }) 1 (hi_in ∷ []) → ⊥ }
    ensures late { IsPlaceOf (record { before = 3; came = 1; sent = 0 }) 1 (hi_in ∷ []) → ⊥ }
    ensures count { IsPlaceOf (record { before = 2; came = 2; sent = 0 }) 1 (hi_in ∷ []) → ⊥ }
{}
