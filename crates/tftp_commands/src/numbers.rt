ghost use Rattle.std.specs.Prelude.{◌≡◌, ◌+◌, ◌^◌, ◌<◌, ◌≤◌, ℕ, List, [], ◌∷◌, None, Some, false, option_map};
ghost use Rattle.tftp_capture.specs.{datagram_of, header_of};
ghost use Rattle.tftp_packet.specs.Hosts.{Datagram as DatagramParts, Header as HeaderParts, peer_of, same_peer};
ghost use Rattle.tftp_packet.specs.{End as EndKind, Rollover as RolloverKind};
ghost use Rattle.tftp_packet.specs.Rounds.{position_of};
ghost use Rattle.law_model.specs.Rules.{IsHigh, asks as asks_by, transfer_of};
ghost use Rattle.tftp_commands.specs.Beside.{other_block as other_block_by};
ghost use Rattle.tftp_commands.specs.KeptNumbers.{IsKept, IsKeptBy, answers as answers_by, begun_by, first_answer, header_in, is_between as is_between_by, read_as, sides_of};

use tftp_capture::{Datagram, Header};
use tftp_packet::hosts::{Dir, Peer};
use tftp_packet::rounds::Rollover;
use tftp_packet::{End, block_of, opcode};

/// Half a round: how many blocks late a block or an ACK may pass.
const HALF_ROUND: u64 = 32_767;

/// The one block near that has this number, where no block above `highest` has passed: `Rollover::position`, beyond the
/// greatest block too, since what a capture has that is not judged may go on so far.
fn block_near(rollover: Rollover, highest: u64, number: u32) -> u64
    requires { highest < 2 ^ 60 }
    ensures { result ≡ position_of rollover highest number }
{
    let oldest = highest.saturating_sub(HALF_ROUND);
    match rollover {
        Rollover::Zero => oldest + (65_536 + u64::from(number) - oldest % 65_536) % 65_536,
        Rollover::One => {
            if number == 0 {
                return 0;
            }
            let below = oldest.saturating_sub(1);
            1 + below + (65_534 + u64::from(number) - below % 65_535) % 65_535
        }
    }
}

/// The two sides of a datagram: a port at the named end, and the other side.
#[derive(Clone, Copy)]
struct Sides {
    local: u16,
    peer: Peer,
}

/// The two sides of it.
fn sides_in(datagram: &Datagram) -> Sides
    ensures { result ≡ sides_of (datagram_of datagram.now) }
{
    Sides {
        local: datagram.local_port,
        peer: Peer {
            host: datagram.remote_host,
            port: datagram.remote_port,
        },
    }
}

/// Whether a datagram is between the named end and this peer.
fn is_with(datagram: &Datagram, peer: &Peer) -> bool
    ensures { result ≡ same_peer (peer_of (datagram_of datagram.now)) peer.now }
{
    datagram.remote_port == peer.port && datagram.remote_host == peer.host
}

/// What the numbers of a capture are read by, where they begin again after 65535 (RFC 1350, section 5, gives them two
/// bytes and says no more). It keeps no list of datagrams, and takes no memory.
#[derive(Drop)]
pub struct Numbers {
    rollover: Option<Rollover>,
    named: End,
    service: u16,
    /// Of the first request.
    asked: Option<Sides>,
    /// Of the first datagram from the server's side.
    answered: Option<Sides>,
    highest: u64,
}

impl Numbers {
    /// Of a capture with this header, of which nothing has passed.
    pub fn new(rollover: Option<Rollover>, header: &Header) -> Self
        ensures kept { IsKept rollover result (header_of header.now) [] }
        ensures rollover { result.rollover ≡ rollover }
        ensures none { result.highest ≡ 0 }
    {
        Numbers {
            rollover,
            named: header.named,
            service: header.service,
            asked: None,
            answered: None,
            highest: 0,
        }
    }

    /// The block that a number is of after the datagrams that have passed, where it is another than the number.
    pub fn other_block(&self, number: u32) -> Option<u64>
        requires few { self.now.highest < 2 ^ 60 }
        ensures { result ≡ other_block_by self.now.rollover self.now.highest number }
    {
        let block = block_near(self.rollover?, self.highest, number);
        if block == u64::from(number) {
            return None;
        }
        Some(block)
    }

    /// Takes the next datagram.
    pub fn pass(&mut self, datagram: &Datagram)
        requires few { self.old.highest < 2 ^ 60 }
        ensures kept { (h : HeaderParts) (earlier : List DatagramParts) → IsKept self.old.rollover self.old h earlier
            → IsKept self.old.rollover self.new h (datagram_of datagram.now ∷ earlier) }
        ensures rollover { self.new.rollover ≡ self.old.rollover }
        ensures rises { self.new.highest ≤ self.old.highest + 2 ^ 17 }
    {
        let Some(rollover) = self.rollover else {
            return;
        };
        if self.asked.is_none() && self.asks(datagram) {
            self.begin(datagram);
        } else {
            self.pass_by(rollover, datagram);
        }
    }

    /// Begins with the first request.
    fn begin(&mut self, datagram: &Datagram)
        ensures { self.new ≡ begun_by self.old (datagram_of datagram.now) }
    {
        self.asked = Some(sides_in(datagram));
        self.highest = 0;
    }

    /// Takes the next datagram, where it is not the first request.
    fn pass_by(&mut self, rollover: Rollover, datagram: &Datagram)
        requires few { self.old.highest < 2 ^ 60 }
        ensures kept { (h : HeaderParts) (earlier : List DatagramParts) → IsKeptBy rollover self.old h earlier
            → (self.old.asked ≡ None → asks_by h (datagram_of datagram.now) ≡ false)
            → IsKeptBy rollover self.new h (datagram_of datagram.now ∷ earlier) }
        ensures rollover { self.new.rollover ≡ self.old.rollover }
        ensures rises { self.new.highest ≤ self.old.highest + 2 ^ 17 }
    {
        let highest = self.highest_with(rollover, datagram);
        self.answered = self.answer_with(datagram);
        self.highest = highest;
    }

    /// The highest block, with a datagram that is not the first request.
    fn highest_with(&self, rollover: Rollover, datagram: &Datagram) -> u64
        requires few { self.now.highest < 2 ^ 60 }
        ensures high { (h : HeaderParts) (earlier : List DatagramParts) (kept : IsKeptBy rollover self.now h earlier)
            → IsHigh (transfer_of h (read_as rollover self.now.highest (datagram_of datagram.now) ∷ kept.unrolled)) result }
        ensures rises { result ≤ self.now.highest + 2 ^ 17 }
    {
        if !self.is_between(datagram) {
            return self.highest;
        }
        match block_of(datagram.payload.as_slice()) {
            Some((number, _)) => {
                let block = block_near(rollover, self.highest, u32::from(number));
                self.highest.max(block)
            }
            None => self.highest,
        }
    }

    /// The first answer, with a datagram that is not the first request.
    fn answer_with(&self, datagram: &Datagram) -> Option<Sides>
        ensures { (named : EndKind) (high : ℕ) (rollover : RolloverKind) (unrolled : List DatagramParts) → self.now.named ≡ named
            → self.now.answered ≡ option_map sides_of (first_answer named unrolled self.now.asked)
            → result ≡ option_map sides_of (first_answer named (read_as rollover high (datagram_of datagram.now) ∷ unrolled) self.now.asked) }
    {
        match (&self.asked, &self.answered) {
            (Some(first), None) if self.answers(first, datagram) => Some(sides_in(datagram)),
            _ => self.answered,
        }
    }

    /// Whether it is a request to the service port.
    fn asks(&self, datagram: &Datagram) -> bool
        ensures { result ≡ asks_by (header_in self.now) (datagram_of datagram.now) }
    {
        let (is_out, port) = match self.named {
            End::Client => (matches!(datagram.dir, Dir::Out), datagram.remote_port),
            End::Server => (matches!(datagram.dir, Dir::In), datagram.local_port),
        };
        is_out && matches!(opcode(datagram.payload.as_slice()), 1 | 2) && port == self.service
    }

    /// Whether it comes from the server's side, after this first request.
    fn answers(&self, first: &Sides, datagram: &Datagram) -> bool
        ensures { result ≡ answers_by self.now.named first.now (datagram_of datagram.now) }
    {
        match (self.named, datagram.dir) {
            (End::Client, Dir::In) => true,
            (End::Client, Dir::Out) | (End::Server, Dir::In) => false,
            (End::Server, Dir::Out) => is_with(datagram, &first.peer),
        }
    }

    /// Whether a datagram that is no request is of the transfer.
    fn is_between(&self, datagram: &Datagram) -> bool
        ensures { result ≡ is_between_by self.now.named self.now.asked self.now.answered (datagram_of datagram.now) }
    {
        let Some(first) = &self.asked else {
            return true;
        };
        match (self.named, &self.answered) {
            (End::Client, None) => datagram.local_port == first.local
                && matches!(datagram.dir, Dir::In),
            (End::Client, Some(answer)) => datagram.local_port == first.local
                && is_with(datagram, &answer.peer),
            (End::Server, None) => matches!(datagram.dir, Dir::Out)
                && is_with(datagram, &first.peer),
            (End::Server, Some(answer)) => datagram.local_port == answer.local
                && is_with(datagram, &first.peer),
        }
    }
}
