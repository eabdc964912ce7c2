//! How far a transfer has come at an end, to tell what must have passed before a datagram. What is told is put in and then judged, so
//! nothing is promised of it.

ghost use Rattle.std.specs.Prelude.{◌≡◌, ◌≤◌, length, IfOk};

use std::alloc::{AllocError, Global};
use std::collections::BTreeSet;
use tftp_capture::Datagram;
use tftp_packet::hosts::{Dir, Host};
use tftp_packet::{
    Bytes, End, Mode, OptionsView, Packet, Side, ack_of, block_of, opcode, read_packet,
};

/// The most bytes that a block has (RFC 2348).
const LARGEST_BLOCK: u16 = 65464;

/// The most bytes that a datagram carries.
const LARGEST_PAYLOAD: usize = 65527;

/// What a datagram says of blocks.
#[derive(Clone, Copy)]
pub enum Said {
    Block(u16),
    Ack(u16),
    Other,
}

/// A datagram that must be missing.
#[derive(Clone, Copy)]
pub enum Missing {
    Block(u16),
    Ack(u16),
    Oack,
}

/// How the request was answered (RFC 1350, section 4; RFC 2347).
#[derive(Clone, Copy, PartialEq, Eq)]
enum Answer {
    Waits,
    Plain,
    Oack,
}

/// The two ends of a transfer, as the named end sees them.
#[derive(Clone, Copy)]
struct Talk {
    local: u16,
    host: Host,
    remote: u16,
}

/// How far a transfer has come at an end.
#[derive(Drop)]
pub struct Course {
    named: End,
    // which way the file goes, from the request on
    side: Option<Side>,
    octet: bool,
    talk: Option<Talk>,
    answer: Answer,
    block_size: u16,
    window: u16,
    // how many bytes the file has, where that was agreed
    size: Option<u64>,
    // each block up to it has passed
    front: u16,
    // blocks that passed beyond one that did not
    above: BTreeSet<u16>,
    // the highest ACK
    acked: u16,
    zero: bool,
    stopped: bool,
}

impl Course {
    /// Before the request, at this end. Takes no memory.
    pub fn new(alloc: Global, named: End) -> Self {
        Course {
            named,
            side: None,
            octet: false,
            talk: None,
            answer: Answer::Waits,
            block_size: 512,
            window: 1,
            size: None,
            front: 0,
            above: BTreeSet::new(alloc),
            acked: 0,
            zero: false,
            stopped: false,
        }
    }

    /// What a datagram says of the blocks of this transfer. After an ERROR of the other end nothing tells what it had taken before.
    pub fn said(&self, datagram: &Datagram) -> Said {
        if self.stopped || !self.is_ours(datagram) {
            return Said::Other;
        }
        let payload = datagram.payload.as_slice();
        let goes_with_blocks = datagram.dir == self.way_of_blocks();
        match block_of(payload) {
            Some((number, _)) if goes_with_blocks => return Said::Block(number),
            _ => {}
        }
        match ack_of(payload) {
            Some(number) if !goes_with_blocks => Said::Ack(number),
            _ => Said::Other,
        }
    }

    /// What must have passed next before a datagram that says this; nothing once all has. An OACK is told only where there is one.
    pub fn missing_before(&self, said: Said, has_oack: bool) -> Option<Missing> {
        if has_oack && self.lacks_oack(said) {
            return Some(Missing::Oack);
        }
        match said {
            Said::Block(number) => self.missing_before_block(number),
            Said::Ack(number) => self.missing_before_ack(number),
            Said::Other => None,
        }
    }

    /// Whether the request has passed.
    pub fn has_begun(&self) -> bool {
        self.side.is_some()
    }

    /// Whether a datagram is the server's OACK.
    pub fn is_oack(&self, datagram: &Datagram) -> bool {
        self.is_ours(datagram)
            && datagram.dir == self.way_of_server()
            && opcode(datagram.payload.as_slice()) == 6
    }

    /// Whether a block with this number comes late: what has passed shows that it must have passed before, and it has not. A block
    /// with a higher number shows that, and an ACK of it.
    pub fn is_late(&self, number: u16) -> bool {
        if number <= self.front || self.above.contains(&number) {
            return false;
        }
        match self.above.last() {
            Some(highest) => number < *highest || number <= self.acked,
            None => number <= self.acked,
        }
    }

    /// The datagram that is missing, with the payload that is known of it. A block of which none is known has zeros.
    pub fn made(
        &self,
        alloc: Global,
        missing: Missing,
        known: Option<&[u8]>,
        beside: &Datagram,
    ) -> Result<Datagram, AllocError>
        ensures short { IfOk result (λ made. length made.payload ≤ 65527) }
    {
        let payload = match known {
            Some(payload) => copied(alloc, payload)?,
            None => self.unknown(alloc, missing)?,
        };
        Ok(Datagram {
            dir: self.way_of(missing),
            local_port: beside.local_port,
            remote_host: beside.remote_host,
            remote_port: beside.remote_port,
            payload: Bytes::of(payload),
        })
    }

    /// Notes a datagram that was accepted.
    pub fn note(&mut self, datagram: &Datagram) -> Result<(), AllocError> {
        let payload = datagram.payload.as_slice();
        if self.side.is_none() {
            self.note_request(payload);
            return Ok(());
        }
        if !self.is_ours(datagram) || matches!(opcode(payload), 1 | 2) {
            return Ok(());
        }
        self.talk = Some(Talk {
            local: datagram.local_port,
            host: datagram.remote_host,
            remote: datagram.remote_port,
        });
        match self.said(datagram) {
            Said::Block(number) => self.note_block(number)?,
            Said::Ack(number) => self.note_ack(number),
            Said::Other => self.note_other(datagram.dir, payload),
        }
        Ok(())
    }

    /// Whether a block or an ACK goes on from an OACK that has not passed. The ACK 0 of a write is a reply itself (RFC 1350, section 4).
    fn lacks_oack(&self, said: Said) -> bool {
        let goes_on = match said {
            Said::Block(_) => true,
            Said::Ack(number) => number > 0 || self.side == Some(Side::Get),
            Said::Other => false,
        };
        goes_on && self.answer == Answer::Waits
    }

    fn missing_before_block(&self, number: u16) -> Option<Missing> {
        if self.waits() {
            return Some(Missing::Ack(0));
        }
        let acked = number.saturating_sub(self.window);
        let passed = if self.way_of_blocks() == Dir::Out {
            number.saturating_sub(1)
        } else {
            acked
        };
        if self.front < passed {
            return Some(self.next());
        }
        if self.acked < acked {
            return Some(Missing::Ack(self.front));
        }
        None
    }

    fn missing_before_ack(&self, number: u16) -> Option<Missing> {
        let answers_nothing = number == 0
            && self.front == 0
            && self.above.is_empty()
            && self.side == Some(Side::Put)
            && self.answer == Answer::Oack;
        if self.front < number || answers_nothing {
            return Some(self.next());
        }
        None
    }

    /// What must have passed next, so that the next block has.
    fn next(&self) -> Missing {
        if self.waits() {
            return Missing::Ack(0);
        }
        if self.front >= self.acked.saturating_add(self.window) {
            return Missing::Ack(self.front);
        }
        Missing::Block(self.front.saturating_add(1))
    }

    /// Whether blocks wait for an ACK 0 (RFC 1350, section 4; RFC 2347).
    fn waits(&self) -> bool {
        match self.side {
            Some(Side::Put) => self.answer == Answer::Waits,
            _ => self.answer == Answer::Oack && !self.zero,
        }
    }

    /// The payload of a datagram that is missing, of which nothing is known.
    fn unknown(&self, alloc: Global, missing: Missing) -> Result<Vec<u8>, AllocError>
        ensures short { IfOk result (λ payload. length payload.items ≤ 65527) }
    {
        match missing {
            Missing::Block(number) => numbered(alloc, 3, number, self.length_of(number)),
            Missing::Ack(number) => numbered(alloc, 4, number, 0),
            Missing::Oack => copied(alloc, &[0, 6]),
        }
    }

    fn way_of(&self, missing: Missing) -> Dir {
        match missing {
            Missing::Block(_) => self.way_of_blocks(),
            Missing::Ack(_) => back(self.way_of_blocks()),
            Missing::Oack => self.way_of_server(),
        }
    }

    fn way_of_server(&self) -> Dir {
        match self.named {
            End::Client => Dir::In,
            End::Server => Dir::Out,
        }
    }

    /// How many bytes a block has, where it is not known to be the last.
    fn length_of(&self, number: u16) -> u16 {
        let block_size = self.block_size.max(8);
        match self.size {
            Some(size) if size / u64::from(block_size) < u64::from(number) => {
                (size % u64::from(block_size)) as u16
            }
            _ => block_size,
        }
    }

    fn way_of_blocks(&self) -> Dir {
        match (self.named, self.side) {
            (End::Client, Some(Side::Put)) => Dir::Out,
            (End::Server, Some(Side::Get)) => Dir::Out,
            _ => Dir::In,
        }
    }

    /// Whether a datagram goes between the two ends, as far as both are known.
    fn is_ours(&self, datagram: &Datagram) -> bool {
        match &self.talk {
            Some(talk) => {
                talk.local == datagram.local_port
                    && talk.remote == datagram.remote_port
                    && talk.host == datagram.remote_host
            }
            None => self.side.is_some(),
        }
    }

    fn note_request(&mut self, payload: &[u8]) {
        if let Ok(Packet::Request(request)) = read_packet(payload) {
            self.side = Some(request.side());
            self.octet = request.mode() == Mode::Octet;
        }
    }

    fn note_block(&mut self, number: u16) -> Result<(), AllocError> {
        self.begin();
        if number <= self.front {
            return Ok(());
        }
        self.above.insert(number)?;
        for block in u32::from(self.front) + 1..65536 {
            if !self.above.remove(&(block as u16)) {
                return Ok(());
            }
            self.front = block as u16;
        }
        Ok(())
    }

    fn note_ack(&mut self, number: u16) {
        self.begin();
        self.acked = self.acked.max(number);
        if number == 0 {
            self.zero = true;
        }
    }

    fn note_other(&mut self, dir: Dir, payload: &[u8]) {
        match read_packet(payload) {
            Ok(Packet::Oack(oack)) => self.note_oack(&oack),
            Ok(Packet::Error { .. }) => self.stopped = self.stopped || dir == Dir::In,
            _ => {}
        }
    }

    fn note_oack(&mut self, oack: &OptionsView<'_>) {
        if self.answer != Answer::Waits {
            return;
        }
        self.answer = Answer::Oack;
        self.block_size = small(oack.number(b"blksize"), 512);
        self.window = small(oack.number(b"windowsize"), 1);
        if self.octet {
            self.size = oack.number(b"tsize");
        }
    }

    /// A block or an ACK answers the request, unless something has.
    fn begin(&mut self) {
        if self.answer == Answer::Waits {
            self.answer = Answer::Plain;
        }
    }
}

/// The way back.
fn back(way: Dir) -> Dir {
    match way {
        Dir::In => Dir::Out,
        Dir::Out => Dir::In,
    }
}

/// An agreed number of two bytes, or what is usual.
fn small(agreed: Option<u64>, usual: u16) -> u16 {
    match agreed {
        Some(number) => number.min(65535) as u16,
        None => usual,
    }
}

/// A packet with this opcode, a number and so many zeros.
fn numbered(alloc: Global, opcode: u8, number: u16, zeros: u16) -> Result<Vec<u8>, AllocError>
    ensures short { IfOk result (λ payload. length payload.items ≤ 65527) }
{
    let [high, low] = number.to_be_bytes();
    let mut payload = Vec::from_slice(alloc, &[0, opcode, high, low])?;
    payload.resize(4 + usize::from(zeros.min(LARGEST_BLOCK)), 0)?;
    Ok(payload)
}

/// A payload again, as far as a datagram carries it.
fn copied(alloc: Global, payload: &[u8]) -> Result<Vec<u8>, AllocError>
    ensures short { IfOk result (λ copy. length copy.items ≤ 65527) }
{
    let size = payload.len().min(LARGEST_PAYLOAD);
    Vec::from_slice(alloc, &payload[..size])
}
