ghost use Rattle.std.specs.Prelude.{◌≡◌, ◌<◌, ◌≤◌, true, None, Some, is_some};
ghost use Rattle.net_streams.specs.{Standing};
ghost use Rattle.tftp_packet.specs.{Rollover as RolloverKind};
ghost use Rattle.law_model.specs.Model.Roles.{other_end};
ghost use Rattle.judge_pair.specs.Judge.{IsNumbered, left_at};
ghost use Rattle.judge_pair.specs.MatchTexts.Merging.{AloneRuns, RestRuns, left_judge_at};
ghost use Rattle.judge_pair.specs.MatchTexts.Reading.{seen};
ghost use Rattle.judge_pair.specs.declared.match_texts.reading.Halt.{Halt as HaltKind};

use crate::judge::PairRest;
use crate::judge::side::judge_next;
use crate::match_texts::reading::{Halt, Reading};
use net_streams::streams::Latched;
use std::alloc::Global;
use std::io::Read;
use tftp_capture::Datagram;
use tftp_ends::blocks::RingDelivered;
use tftp_judge::Judge;
use tftp_packet::End;
use tftp_packet::rounds::Rollover;

impl Reading {
    /// Reads what is left of the text of an end, where its last datagram waited.
    pub fn read_rest<R: Read>(
        &mut self,
        alloc: Global,
        rollover: Option<Rollover>,
        rest: &mut PairRest<RingDelivered>,
        end: End,
        reader: &mut Latched<R>,
        datagram: &mut Datagram,
    )
        requires open { self.old.halt ≡ None → self.old.capture.standing ≡ Standing.Open }
        requires lines { self.old.halt ≡ None → (left_judge_at end rest.old).fed < self.old.capture.handed }
        requires waited { self.old.halt ≡ None → is_some (left_at end rest.old).side.held ≡ true }
        requires numbered { (r : RolloverKind) → rollover ≡ Some r → IsNumbered (left_at end rest.old).side }
        ensures runs { RestRuns rollover end (seen (R.remaining reader.old.0) reader.old.1 self.old.halt self.old.capture) rest.old
            (seen (R.remaining reader.new.0) reader.new.1 self.new.halt self.new.capture) rest.new }
        ensures halts { (halt : HaltKind) × (self.new.halt ≡ Some halt) }
        ensures other { left_at (other_end end) rest.new ≡ left_at (other_end end) rest.old }
    {
        if self.halt.is_some() {
            return;
        }
        while self.next(reader, datagram) {
            match rest.take(alloc, rollover, end, datagram) {
                Ok(()) => {}
                Err(_) => {
                    self.halt = Some(Halt::Refused);
                    return;
                }
            }
        }
    }

    /// Reads a text that is judged alone.
    pub fn read_alone<R: Read>(
        &mut self,
        alloc: Global,
        rollover: Option<Rollover>,
        judge: &mut Judge<RingDelivered>,
        reader: &mut Latched<R>,
        datagram: &mut Datagram,
    )
        requires goes { self.old.halt ≡ None }
        requires open { self.old.capture.standing ≡ Standing.Open }
        requires lines { judge.old.fed < self.old.capture.handed }
        ensures runs { AloneRuns rollover (seen (R.remaining reader.old.0) reader.old.1 self.old.halt self.old.capture) judge.old
            (seen (R.remaining reader.new.0) reader.new.1 self.new.halt self.new.capture) judge.new }
        ensures halts { (halt : HaltKind) × (self.new.halt ≡ Some halt) }
    {
        while self.next(reader, datagram) {
            match judge_next(judge, alloc, rollover, datagram) {
                Ok(()) => {}
                Err(_) => {
                    self.halt = Some(Halt::Refused);
                    return;
                }
            }
        }
    }
}
