ghost use Rattle.std.specs.Prelude.{◌≡◌, ◌<◌, ◌≤◌, ◌^◌, true, false, None, Some, is_some};
ghost use Rattle.net_streams.specs.{Standing};
ghost use Rattle.tftp_packet.specs.{End as EndKind, Rollover as RolloverKind};
ghost use Rattle.law_model.specs.Model.Roles.{other_end};
ghost use Rattle.judge_pair.specs.Judge.{HasSame, IsNumbered, side_at};
ghost use Rattle.judge_pair.specs.MatchTexts.Merging.{BothRun, Runs, judge_at};
ghost use Rattle.judge_pair.specs.MatchTexts.Reading.{seen};

use crate::judge::PairJudge;
use crate::match_texts::reading::{Halt, Reading};
use net_streams::streams::Latched;
use std::alloc::Global;
use std::io::Read;
use tftp_capture::Datagram;
use tftp_ends::blocks::RingDelivered;
use tftp_packet::End;
use tftp_packet::rounds::Rollover;

impl Reading {
    /// Reads the text of an end till its last datagram waits for the other end, or no more of it is read.
    fn read_on<R: Read>(
        &mut self,
        alloc: Global,
        rollover: Option<Rollover>,
        pair: &mut PairJudge<RingDelivered>,
        end: End,
        reader: &mut Latched<R>,
        datagram: &mut Datagram,
    )
        requires goes { self.old.halt ≡ None }
        requires open { self.old.capture.standing ≡ Standing.Open }
        requires lines { (judge_at end pair.old).fed < self.old.capture.handed }
        requires free { (side_at end pair.old).held ≡ None }
        requires numbered { (r : RolloverKind) → rollover ≡ Some r → IsNumbered (side_at end pair.old) }
        ensures runs { Runs rollover end (seen (R.remaining reader.old.0) reader.old.1 self.old.halt self.old.capture) pair.old
            (seen (R.remaining reader.new.0) reader.new.1 self.new.halt self.new.capture) pair.new }
        ensures other { HasSame (side_at (other_end end) pair.old) (side_at (other_end end) pair.new) }
        ensures open { self.new.halt ≡ None → self.new.capture.standing ≡ Standing.Open }
        ensures lines { self.new.halt ≡ None → (judge_at end pair.new).fed < self.new.capture.handed }
        ensures rises { self.new.halt ≡ None → self.old.capture.handed < self.new.capture.handed }
        ensures line { self.new.halt ≡ None → self.new.capture.handed ≤ 2 ^ 40 }
        ensures numbered { (e : EndKind) → IsNumbered (side_at e pair.old) → IsNumbered (side_at e pair.new) }
    {
        while self.next(reader, datagram) {
            match pair.take(alloc, rollover, end, datagram) {
                Ok(()) => {}
                Err(_) => {
                    self.halt = Some(Halt::Refused);
                    return;
                }
            }
            if pair.waits(end) {
                return;
            }
        }
    }

    /// Whether more of the text of an end is to be read before the other end's.
    fn goes_on(&self, pair: &PairJudge<RingDelivered>, end: End) -> bool
        ensures goes { result ≡ true → (self.now.halt ≡ None) × ((side_at end pair.now).held ≡ None) }
        ensures stuck { result ≡ false → self.now.halt ≡ None → is_some (side_at end pair.now).held ≡ true }
    {
        self.halt.is_none() && !pair.waits(end)
    }
}

/// Reads two texts, the one till it waits and then the other, till neither goes further.
pub fn merge<R: Read, S: Read>(
    alloc: Global,
    rollover: Option<Rollover>,
    pair: &mut PairJudge<RingDelivered>,
    client: &mut Reading,
    client_reader: &mut Latched<R>,
    server: &mut Reading,
    server_reader: &mut Latched<S>,
    datagram: &mut Datagram,
)
    requires client_open { client.old.halt ≡ None → client.old.capture.standing ≡ Standing.Open }
    requires server_open { server.old.halt ≡ None → server.old.capture.standing ≡ Standing.Open }
    requires client_lines { client.old.halt ≡ None → pair.old.client.judge.fed < client.old.capture.handed }
    requires server_lines { server.old.halt ≡ None → pair.old.server.judge.fed < server.old.capture.handed }
    requires numbered { (r : RolloverKind) (e : EndKind) → rollover ≡ Some r → IsNumbered (side_at e pair.old) }
    ensures runs { BothRun rollover (seen (R.remaining client_reader.old.0) client_reader.old.1 client.old.halt client.old.capture)
        (seen (S.remaining server_reader.old.0) server_reader.old.1 server.old.halt server.old.capture) pair.old
        (seen (R.remaining client_reader.new.0) client_reader.new.1 client.new.halt client.new.capture)
        (seen (S.remaining server_reader.new.0) server_reader.new.1 server.new.halt server.new.capture) pair.new }
    ensures client_open { client.new.halt ≡ None → client.new.capture.standing ≡ Standing.Open }
    ensures server_open { server.new.halt ≡ None → server.new.capture.standing ≡ Standing.Open }
    ensures client_lines { client.new.halt ≡ None → pair.new.client.judge.fed < client.new.capture.handed }
    ensures server_lines { server.new.halt ≡ None → pair.new.server.judge.fed < server.new.capture.handed }
    ensures client_waits { client.new.halt ≡ None → is_some pair.new.client.held ≡ true }
    ensures server_waits { server.new.halt ≡ None → is_some pair.new.server.held ≡ true }
    ensures numbered { (e : EndKind) → IsNumbered (side_at e pair.old) → IsNumbered (side_at e pair.new) }
{
    loop {
        if client.goes_on(pair, End::Client) {
            client.read_on(alloc, rollover, pair, End::Client, client_reader, datagram);
        } else if server.goes_on(pair, End::Server) {
            server.read_on(alloc, rollover, pair, End::Server, server_reader, datagram);
        } else {
            return;
        }
    }
}
