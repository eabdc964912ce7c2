//! Laws of the states of the two ends. Each is the contract of a function that does nothing.

ghost use Rattle.std.specs.Prelude.{◌≡◌, ◌↔◌, ℕ, List, ◌∷◌};
ghost use Rattle.tftp_packet.specs.{Message, Spells, Get, Put};
ghost use Rattle.tftp_packet.specs.Hosts.{Datagram};
ghost use Rattle.law_model.specs.Rules.{EndBroken};
ghost use Rattle.law_model.specs.{EndRule, NoReply, Plain, Terms};
ghost use Rattle.tftp_ends.specs.States.{Sender, Receiver, IsSenderAfter, IsReceiverAfter, IsAside, replied};

/// Requests, OACKs and an ERROR that goes out change nothing at a sender: it stands for what has passed with them.
pub fn sender_leaves_others_aside()
    ensures { (s : Sender) (passed : List Datagram) (d : Datagram) (m : Message) → IsSenderAfter s passed → Spells d.payload m
        → IsAside d.dir m → IsSenderAfter s (d ∷ passed) }
{}

/// They change nothing at a receiver.
pub fn receiver_leaves_others_aside()
    ensures { (r : Receiver) (passed : List Datagram) (d : Datagram) (m : Message) → IsReceiverAfter r passed → Spells d.payload m
        → IsAside d.dir m → IsReceiverAfter r (d ∷ passed) }
{}

/// Before a request is answered, its end breaks the rules that it would break if it were answered without an OACK, but
/// for blocks of a write, which wait for the reply (RFC 1350, section 4). So a state that begins with the reply can judge
/// the block or the ACK 0 that is the reply.
pub fn a_plain_reply_is_judged_as_one()
    ensures read { (t : Terms) (passed : List Datagram) (m : Message) (rule : EndRule) → t.side ≡ Get
        → EndBroken (replied NoReply t) passed m rule ↔ EndBroken (replied Plain t) passed m rule }
    ensures write { (t : Terms) (passed : List Datagram) (j : ℕ) (rule : EndRule) → t.side ≡ Put
        → EndBroken (replied NoReply t) passed (Message.Ack j) rule ↔ EndBroken (replied Plain t) passed (Message.Ack j) rule }
{}
