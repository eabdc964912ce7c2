//! Laws of the definitions in `specs/`. Each is the contract of a function that does nothing.

ghost use Rattle.std.specs.Prelude.{◌≡◌, ◌⊎◌, ◌↔◌, ℕ, ◌+◌, ◌-◌, ◌<◌, ◌≤◌, List, [], ◌∷◌, codes};
ghost use Rattle.law_model.specs.Model.Meanings.{Meaning, SomethingAgreed, NothingAgreed, blksize_of, windowsize_of};
ghost use Rattle.law_model.specs.Model.Blocks.{block, block_count};
ghost use Rattle.law_model.specs.Model.Machines.{
  MachinePacket,
  Deed,
  History,
  HasSent,
  HasTaken,
  IsAcknowledged,
  IsStarted,
  MayAckZero,
  sender_of,
  receiver_of,
  other_end,
};
ghost use Rattle.law_model.specs.Model.Runs.{
  view_of,
  IsRun,
  InEachRun,
  SenderSent,
  SenderTook,
  ReceiverSent,
  ReceiverTook,
  IsView,
  IsComplete,
};
ghost use Rattle.law_model.specs.Model.OneSide.{IsOneSided};
ghost use Rattle.law_model.specs.Model.Worked.{
  two_bytes,
  two_bytes_view,
  two_bytes_server_view,
  two_bytes_written,
  two_bytes_written_view,
  ten_bytes,
  ten_bytes_view,
  asked_again_view,
  agreed_late_view,
};
ghost use Rattle.law_model.specs.Model.WorkedWindows.{
  six_blocks,
  six_blocks_steps,
  six_blocks_view,
  six_blocks_server_view,
  block_repeated,
  block_repeated_view,
  gone_back_view,
  window_repeated,
  window_repeated_view,
};
ghost use Rattle.law_model.specs.Model.WorkedErrors.{
  stopped_short,
  read_refused_view,
  read_refused_server_view,
  given_up_view,
  read_given_up_view,
  stopped_at_the_end_view,
  block_after_error_view,
  answer_to_late_ack_view,
};
ghost use Rattle.tftp_packet.specs.{End, Client, Server, Get, Put, no_options};

/// Five bytes are three blocks of two, the last of them short.
pub fn five_bytes_are_three_blocks()
    ensures count { block_count 2 (codes "abcde") ≡ 3 }
    ensures first { block 2 (codes "abcde") 1 ≡ codes "ab" }
    ensures second { block 2 (codes "abcde") 2 ≡ codes "cd" }
    ensures last { block 2 (codes "abcde") 3 ≡ codes "e" }
{}

/// Four bytes are three blocks of two, the last of them empty.
pub fn four_bytes_end_with_an_empty_block()
    ensures count { block_count 2 (codes "abcd") ≡ 3 }
    ensures last { block 2 (codes "abcd") 3 ≡ [] }
{}

/// The blocks of a wire determine it.
pub fn blocks_make_the_wire()
    ensures { (b : ℕ) (wire other : List ℕ) → 1 ≤ b → block_count b wire ≡ block_count b other
        → ((k : ℕ) → 1 ≤ k → k ≤ block_count b wire → block b wire k ≡ block b other k) → wire ≡ other }
{}

/// A read of two bytes in lock step is a run of the two ends, and complete at each of them.
pub fn two_bytes_are_a_run()
    ensures client { IsView two_bytes two_bytes.file Client two_bytes_view }
    ensures client_complete { IsComplete two_bytes two_bytes.file Client two_bytes_view }
    ensures server { IsView two_bytes two_bytes.file Server two_bytes_server_view }
    ensures server_complete { IsComplete two_bytes two_bytes.file Server two_bytes_server_view }
{}

/// So is a write of them, as its client sees it.
pub fn two_bytes_written_are_a_run()
    ensures view { IsView two_bytes_written two_bytes_written.file Client two_bytes_written_view }
    ensures complete { IsComplete two_bytes_written two_bytes_written.file Client two_bytes_written_view }
{}

/// So is a read of ten bytes in two blocks of eight, as its client sees it, one datagram having been lost.
pub fn ten_bytes_in_small_blocks_are_a_run()
    ensures blocks { block_count (blksize_of ten_bytes) ten_bytes.file ≡ 2 }
    ensures view { IsView ten_bytes ten_bytes.file Client ten_bytes_view }
    ensures complete { IsComplete ten_bytes ten_bytes.file Client ten_bytes_view }
{}

/// So is a read of six blocks in a window of four, of which one came late and the next one twice. Both ends see the
/// same run, and it is complete at each of them.
pub fn window_out_of_order_is_a_run()
    ensures blocks { block_count (blksize_of six_blocks) six_blocks.file ≡ 6 }
    ensures run { IsRun six_blocks six_blocks.file six_blocks_steps }
    ensures client { view_of Client six_blocks_steps ≡ six_blocks_view }
    ensures client_complete { IsComplete six_blocks six_blocks.file Client six_blocks_view }
    ensures server { view_of Server six_blocks_steps ≡ six_blocks_server_view }
    ensures server_complete { IsComplete six_blocks six_blocks.file Server six_blocks_server_view }
{}

/// So is a write in lock step whose client sends a block again that was acknowledged.
pub fn block_sent_again_is_a_run()
    ensures view { IsView block_repeated block_repeated.file Client block_repeated_view }
    ensures complete { IsComplete block_repeated block_repeated.file Client block_repeated_view }
{}

/// So is a write in a window of four whose client sends both blocks again, because an ACK 0 says that the first was
/// lost.
pub fn window_sent_again_is_a_run()
    ensures view { IsView window_repeated window_repeated.file Client window_repeated_view }
    ensures complete { IsComplete window_repeated window_repeated.file Client window_repeated_view }
{}

/// A read that the server refuses by an ERROR is a run, as both ends see it.
pub fn refused_read_is_a_run()
    ensures client { IsView two_bytes two_bytes.file Client read_refused_view }
    ensures server { IsView two_bytes two_bytes.file Server read_refused_server_view }
{}

/// So is one whose client gives it up and says so again, as it may. It may not go on, nor say anything else.
pub fn read_given_up_is_a_run()
    ensures view { IsView two_bytes two_bytes.file Client read_given_up_view }
    ensures no_ack { IsView two_bytes two_bytes.file Client (Deed.Sent (MachinePacket.Ack 1) ∷ given_up_view) → ⊥ }
    ensures no_other { IsView two_bytes two_bytes.file Client (Deed.Sent stopped_short ∷ given_up_view) → ⊥ }
{}

/// An ERROR that comes forbids nothing: a client that has all blocks may acknowledge the last one, and is done.
pub fn read_stopped_at_its_end_is_a_run()
    ensures view { IsView two_bytes two_bytes.file Client stopped_at_the_end_view }
    ensures complete { IsComplete two_bytes two_bytes.file Client stopped_at_the_end_view }
{}

/// A block that was sent before an ERROR may come after it. One that only an ACK allows which went out after the ERROR had
/// come was never sent.
pub fn blocks_after_an_error_were_sent_before_it()
    ensures view { IsView ten_bytes ten_bytes.file Client block_after_error_view }
    ensures late { IsView ten_bytes ten_bytes.file Client answer_to_late_ack_view → ⊥ }
{}

/// Worked cases of what no end does: a client asks again after its first ACK; a sender goes back in lock step; a server agrees to
/// options after its first block.
pub fn what_no_end_does()
    ensures asks_again { IsView ten_bytes ten_bytes.file Client asked_again_view → ⊥ }
    ensures goes_back { IsView block_repeated block_repeated.file Client gone_back_view → ⊥ }
    ensures agrees_late { IsView ten_bytes ten_bytes.file Server agreed_late_view → ⊥ }
{}

/// A read whose last block was not acknowledged is complete at neither end.
pub fn without_the_last_ack_no_read_is_complete()
    ensures client { IsComplete two_bytes two_bytes.file Client (Deed.Took (MachinePacket.Data 1) ∷ Deed.Sent MachinePacket.Req ∷ []) → ⊥ }
    ensures server { IsComplete two_bytes two_bytes.file Server (Deed.Sent (MachinePacket.Data 1) ∷ Deed.Took MachinePacket.Req ∷ []) → ⊥ }
{}

/// Where nothing was agreed a block has 512 bytes and one goes out at a time, whatever was asked for (RFC 1350, section 2; RFC 2347).
pub fn nothing_agreed_is_rfc_1350()
    ensures size { blksize_of two_bytes ≡ 512 }
    ensures window { windowsize_of two_bytes ≡ 1 }
    ensures refused { blksize_of (record ten_bytes { agreed = no_options }) ≡ 512 }
{}

/// What an end had done before its last deed was a view too.
pub fn each_earlier_view_is_a_view()
    ensures { (m : Meaning) (wire : List ℕ) (e : End) (last : Deed) (earlier : History) → IsView m wire e (last ∷ earlier)
        → IsView m wire e earlier }
{}

/// The network makes nothing up: what an end took, the other end sent.
pub fn taken_was_sent()
    ensures { InEachRun (λ m wire steps. (e : End) (p : MachinePacket) → HasTaken (view_of e steps) p
        → HasSent (view_of (other_end e) steps) p) }
{}

/// Blocks are the sender's, and those that it has sent are the blocks of the wire up to some number.
pub fn blocks_are_sent_in_order()
    ensures sender { InEachRun (λ m wire steps. (e : End) (k : ℕ) → HasSent (view_of e steps) (MachinePacket.Data k)
        → (e ≡ sender_of m.side) × (k ≤ block_count (blksize_of m) wire)) }
    ensures up_to { InEachRun (λ m wire steps. (top : ℕ)
        × ((k : ℕ) → SenderSent m steps (MachinePacket.Data k) ↔ ((1 ≤ k) × (k ≤ top)))) }
{}

/// Each block that was sent is at most a window above an acknowledgement that the sender took, and so the receiver
/// sent, or above the start. In lock step it is the next one.
pub fn blocks_keep_to_the_window()
    ensures taken { InEachRun (λ m wire steps. (k : ℕ) → SenderSent m steps (MachinePacket.Data k)
        → (a : ℕ) × IsAcknowledged (view_of (sender_of m.side) steps) a × (a < k) × (k ≤ a + windowsize_of m)) }
    ensures given { InEachRun (λ m wire steps. (k : ℕ) → SenderSent m steps (MachinePacket.Data k)
        → (a : ℕ) × ((a ≡ 0) ⊎ ReceiverSent m steps (MachinePacket.Ack a)) × (a < k) × (k ≤ a + windowsize_of m)) }
    ensures in_step { InEachRun (λ m wire steps. (k : ℕ) → windowsize_of m ≡ 1
        → SenderSent m steps (MachinePacket.Data k) → IsAcknowledged (view_of (sender_of m.side) steps) (k - 1)) }
{}

/// Acknowledgements are the receiver's. One of block j says that it took the blocks 1 to j, and so that the sender
/// sent them.
pub fn acknowledged_blocks_were_taken()
    ensures receiver { InEachRun (λ m wire steps. (e : End) (j : ℕ)
        → HasSent (view_of e steps) (MachinePacket.Ack j) → e ≡ receiver_of m.side) }
    ensures taken { InEachRun (λ m wire steps. (j k : ℕ) → ReceiverSent m steps (MachinePacket.Ack j)
        → 1 ≤ k → k ≤ j → ReceiverTook m steps (MachinePacket.Data k)) }
    ensures sent { InEachRun (λ m wire steps. (j k : ℕ) → ReceiverSent m steps (MachinePacket.Ack j)
        → 1 ≤ k → k ≤ j → SenderSent m steps (MachinePacket.Data k)) }
{}

/// An OACK is the server's, after a request, where something is agreed. The first block waits for what starts the
/// sender, and ACK 0 for what it answers.
pub fn answers_come_after_what_they_answer()
    ensures oack { InEachRun (λ m wire steps. (e : End) → HasSent (view_of e steps) MachinePacket.Oack
        → (e ≡ Server) × SomethingAgreed m × HasTaken (view_of e steps) MachinePacket.Req) }
    ensures data { InEachRun (λ m wire steps. (k : ℕ) → SenderSent m steps (MachinePacket.Data k)
        → IsStarted m (view_of (sender_of m.side) steps)) }
    ensures ack_zero { InEachRun (λ m wire steps. ReceiverSent m steps (MachinePacket.Ack 0)
        → MayAckZero m (view_of (receiver_of m.side) steps)) }
{}

/// Where options are agreed a block tells of the whole exchange before it: on a read of the OACK and the ACK 0 that
/// answers it, on a write of the OACK.
pub fn blocks_follow_the_agreement()
    ensures read { InEachRun (λ m wire steps. (k : ℕ) → m.side ≡ Get → SomethingAgreed m
        → SenderSent m steps (MachinePacket.Data k)
        → ReceiverSent m steps (MachinePacket.Ack 0) × ReceiverTook m steps MachinePacket.Oack) }
    ensures write { InEachRun (λ m wire steps. (k : ℕ) → m.side ≡ Put → SomethingAgreed m
        → SenderSent m steps (MachinePacket.Data k) → SenderTook m steps MachinePacket.Oack) }
    ensures plain_write { InEachRun (λ m wire steps. (k : ℕ) → m.side ≡ Put → NothingAgreed m
        → SenderSent m steps (MachinePacket.Data k) → SenderTook m steps (MachinePacket.Ack 0)) }
{}

/// Nothing goes before the request, and the client sends nothing else but an ERROR before something has come.
pub fn the_request_comes_first()
    ensures server { InEachRun (λ m wire steps. (p : MachinePacket) → HasSent (view_of Server steps) p
        → HasSent (view_of Client steps) MachinePacket.Req) }
    ensures request { InEachRun (λ m wire steps. (p : MachinePacket) → HasSent (view_of Client steps) p
        → HasSent (view_of Client steps) MachinePacket.Req) }
    ensures client { InEachRun (λ m wire steps. (p : MachinePacket) → HasSent (view_of Client steps) p
        → (p ≡ MachinePacket.Req) ⊎ ((code : ℕ) × (text : List ℕ) × (p ≡ MachinePacket.Error code text))
        ⊎ ((q : MachinePacket) × HasTaken (view_of Client steps) q)) }
{}

/// After an ERROR its end sends nothing but that ERROR again.
pub fn nothing_follows_an_error()
    ensures { (m : Meaning) (wire : List ℕ) (e : End) (p : MachinePacket) (earlier : History) (code : ℕ) (text : List ℕ)
        → IsView m wire e (Deed.Sent p ∷ earlier) → HasSent earlier (MachinePacket.Error code text)
        → p ≡ MachinePacket.Error code text }
{}

/// A history is what an end did in some run of both exactly if each deed is one that this end might do, by what it had
/// done itself: whatever it saw, another end can be made up that did its part.
pub fn one_side_makes_a_run()
    ensures alone { (m : Meaning) (wire : List ℕ) (e : End) (h : History) → IsView m wire e h → IsOneSided m wire e h }
    ensures with_other { (m : Meaning) (wire : List ℕ) (e : End) (h : History) → IsOneSided m wire e h → IsView m wire e h }
{}
