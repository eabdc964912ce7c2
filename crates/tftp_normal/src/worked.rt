//! Worked normal captures, and how long the longest are. Each is the contract of a function that does nothing.

ghost use Rattle.std.specs.Prelude.{◌≡◌, ℕ, suc, length, Some, map as each};
ghost use Rattle.std.specs.FinMap as map;
ghost use Rattle.tftp_packet.specs.{Get, One, Zero};
ghost use Rattle.law_model.specs.Model.{Meaning, NothingAgreed, windowsize_of, two_bytes, six_blocks};
ghost use Rattle.law_end.specs.{blocks_of};
ghost use Rattle.tftp_normal.specs.Normal.{normal_datagram_by, normal_datagrams, normal_text, normal_count};
ghost use Rattle.tftp_normal.specs.Worked.{
  two_bytes_datagrams,
  two_bytes_text,
  six_blocks_datagrams,
  six_blocks_text,
  ten_bytes_written,
  ten_bytes_written_datagrams,
  line_end_cut,
  line_end_cut_datagrams,
  past_the_round,
  past_the_round_by_one,
  past_the_round_by_zero,
};

/// A read of two bytes without options (RFC 1350, section 4): the request, the block and its ACK.
pub fn two_bytes_are_normal()
    ensures datagrams { normal_datagrams two_bytes ≡ two_bytes_datagrams }
    ensures text { normal_text two_bytes ≡ two_bytes_text }
{}

/// A read of six blocks by windows of four (RFC 7440, section 4): the OACK, ACK 0, and an ACK after blocks 4 and 6 alone.
pub fn six_blocks_are_normal()
    ensures datagrams { normal_datagrams six_blocks ≡ six_blocks_datagrams }
    ensures text { normal_text six_blocks ≡ six_blocks_text }
    ensures count { normal_count six_blocks ≡ 11 }
{}

/// A write in blocks of eight bytes, in lock step (RFC 1350, section 2): the OACK stands for ACK 0 (RFC 2347).
#[tactic(auto, using(crate::proofs::Computed::lock_step_row))]
pub fn write_in_lock_step_is_normal()
    ensures { normal_datagrams ten_bytes_written ≡ ten_bytes_written_datagrams }
{}

/// A read in netascii whose first block ends between the CR and the LF of a line's end (RFC 764).
#[tactic(auto, using(crate::proofs::Computed::line_end_row))]
pub fn line_end_between_blocks_is_normal()
    ensures { normal_datagrams line_end_cut ≡ line_end_cut_datagrams }
{}

/// The blocks 65536, 65537, 131071 and 131072 of a read, and ACKs, by their numbers: where 0 comes after 65535, and where 1 does.
pub fn numbers_go_on_past_the_round()
    ensures by_zero { (m : Meaning) → m.side ≡ Get → each (normal_datagram_by (Some Zero) m) past_the_round ≡ past_the_round_by_zero m }
    ensures by_one { (m : Meaning) → m.side ≡ Get → each (normal_datagram_by (Some One) m) past_the_round ≡ past_the_round_by_one m }
{}

/// A read has the most blocks that are numbered: 131,071 datagrams in lock step without options, and 65,539 in one window.
/// Where numbers begin again it has 16,777,215 in lock step.
pub fn most_blocks_are_counted()
    ensures in_lock_step { (m : Meaning) → m.side ≡ Get → NothingAgreed m → blocks_of m ≡ 65535 → normal_count m ≡ 131071 }
    ensures in_one_window { (m : Meaning) (more : ℕ) → m.side ≡ Get → map.len m.agreed ≡ suc more → windowsize_of m ≡ 65535 → blocks_of m ≡ 65535
        → normal_count m ≡ 65539 }
    ensures again { (m : Meaning) → m.side ≡ Get → NothingAgreed m → blocks_of m ≡ 8388607 → normal_count m ≡ 16777215 }
{}
