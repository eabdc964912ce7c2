//! How often each packet was sent and taken.

ghost use Rattle.std.specs.Prelude.{◌≡◌, ◌++◌, ◌∷◌, [], List, IfErr, IfOk, OnOk, option_map};
ghost use Rattle.tftp_packet.specs.Hosts.{Datagram};
ghost use Rattle.judge_pair.specs.Counts.{IsCountOf};
ghost use Rattle.tftp_match.specs.Copies.{HavePassed, IsCountFault, all_copies, block_of, blocks, kind_word, passed_copies, sender_word, told_copies, packets_to};

use crate::faults::MatchFault;
use judge_pair::counts::{CountedPacket, Counts};
use judge_pair::match_texts::PairSaid;
use std::alloc::{AllocError, Global};
use std::fmt;
use tftp_packet::End;

/// More than each block that is near one of 8,388,607 or less.
const BLOCKS: u32 = 8_421_376;

/// Copies of a packet: those that one end sent, and those that the other took.
#[derive(Clone, Copy, Debug, PartialEq, Eq)]
pub struct Copies {
    /// The end that sends the packet.
    pub from: End,
    /// The packet.
    pub packet: CountedPacket,
    /// How many copies that end sent.
    pub sent: u64,
    /// How many came in at the other end.
    pub taken: u64,
}

impl Copies {
    /// The end that sends the packet.
    pub fn sender(&self) -> &'static str
        ensures { result.now ≡ sender_word self.now.from }
    {
        match self.from {
            End::Client => "client",
            End::Server => "server",
        }
    }

    /// What the packet is.
    pub fn kind(&self) -> &'static str
        ensures { result.now ≡ kind_word self.now.from self.now.packet }
    {
        match (self.packet, self.from) {
            (CountedPacket::Opening, End::Client) => "request",
            (CountedPacket::Opening, End::Server) => "OACK",
            (CountedPacket::Error, _) => "ERROR",
            (CountedPacket::Data(_), _) => "DATA",
            (CountedPacket::Ack(_), _) => "ACK",
        }
    }

    /// Its block.
    pub fn block(&self) -> Option<u64>
        ensures { result ≡ block_of self.now.packet }
    {
        match self.packet {
            CountedPacket::Data(block) | CountedPacket::Ack(block) => Some(u64::from(block)),
            CountedPacket::Opening | CountedPacket::Error => None,
        }
    }
}

impl fmt::Display for Copies {
    ghost use Rattle.std.specs.Prelude.{Some};
    ghost use Rattle.tftp_match.specs.Copies.{copies_text};

    ghost output = { λ copies. Some (copies_text copies) };

    fn fmt<W: fmt::Write>(&self, f: &mut fmt::Formatter<W>) -> fmt::Result {
        let (sender, kind, sent, taken) = (self.sender(), self.kind(), self.sent, self.taken);
        match self.block() {
            Some(block) => write!(f, "{sender} {kind} {block} sent {sent} taken {taken}"),
            None => write!(f, "{sender} {kind} sent {sent} taken {taken}"),
        }
    }
}

/// How often each packet was sent and taken, where that is wanted and it is told how far the captures go together.
pub fn copies_of(
    alloc: Global,
    said: &PairSaid,
    is_wanted: bool,
) -> Result<Option<Vec<Copies>>, MatchFault>
    ensures copies { (client server : List Datagram) → HavePassed said.now client server → IfOk result (λ copies. option_map (λ all. all.items) copies ≡ told_copies is_wanted said.now client server) }
    ensures fault { IfErr result IsCountFault }
{
    let Ok(matched) = &said.together else {
        return Ok(None);
    };
    if !is_wanted {
        return Ok(None);
    }
    match (&matched.client_counts, &matched.server_counts) {
        (Some(client), Some(server)) => Ok(Some(copies_in(alloc, client, server)?)),
        _ => Err(MatchFault::Uncounted),
    }
}

/// The copies of each packet that passed, those of the client's packets first.
fn copies_in(alloc: Global, client: &Counts, server: &Counts) -> Result<Vec<Copies>, AllocError>
    ensures { (one other : List Datagram) → IsCountOf client.now one → IsCountOf server.now other → IfOk result (λ copies. copies.items ≡ all_copies one other) }
{
    let mut copies = Vec::new(alloc);
    add_from(&mut copies, End::Client, client, server)?;
    add_from(&mut copies, End::Server, server, client)?;
    Ok(copies)
}

/// Adds the copies of each packet of an end.
fn add_from(
    copies: &mut Vec<Copies>,
    from: End,
    sender: &Counts,
    receiver: &Counts,
) -> Result<(), AllocError>
    ensures { (one other : List Datagram) → IsCountOf sender.now one → IsCountOf receiver.now other → OnOk result (copies.new.items ≡ copies.old.items ++ passed_copies from one other (packets_to blocks)) }
{
    add(copies, from, CountedPacket::Opening, sender, receiver)?;
    add(copies, from, CountedPacket::Error, sender, receiver)?;
    for block in 0..BLOCKS {
        if !sender.reaches(block) && !receiver.reaches(block) {
            return Ok(());
        }
        add(copies, from, CountedPacket::Data(block), sender, receiver)?;
        add(copies, from, CountedPacket::Ack(block), sender, receiver)?;
    }
    Ok(())
}

/// Adds the copies of a packet, where there are any.
fn add(
    copies: &mut Vec<Copies>,
    from: End,
    packet: CountedPacket,
    sender: &Counts,
    receiver: &Counts,
) -> Result<(), AllocError>
    ensures { (one other : List Datagram) → IsCountOf sender.now one → IsCountOf receiver.now other → OnOk result (copies.new.items ≡ copies.old.items ++ passed_copies from one other (packet ∷ [])) }
{
    let (sent, taken) = (sender.sent(packet), receiver.taken(packet));
    if sent > 0 || taken > 0 {
        copies.push(Copies {
            from,
            packet,
            sent,
            taken,
        })?;
    }
    Ok(())
}
