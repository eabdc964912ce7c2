ghost use Rattle.std.specs.Prelude.{◌≡◌, ◌+◌, ◌^◌, ◌<◌, ◌≤◌, ◌++◌, List, [], ◌∷◌, length, reverse, true, OnOk, OnErr, IfOk, IsErr};
ghost use Rattle.tftp_capture.specs.{datagram_of, header_of};
ghost use Rattle.tftp_packet.specs.Hosts.{Datagram as DatagramParts, Header as HeaderParts};
ghost use Rattle.tftp_packet.specs.{In, Out};
ghost use Rattle.tftp_judge.specs.Kept.{IsJudgeAfter};
ghost use Rattle.judge_losses.specs.Places.{AreMissing, going};
ghost use Rattle.judge_losses.specs.Mended.{IsMended};

use crate::clues::Clues;
use crate::course::Course;
use crate::place::Place;
use crate::unmended::Unmended;
use std::alloc::{AllocError, Global};
use std::marker::Model;
use tftp_capture::{Datagram, Header};
use tftp_ends::blocks::RingDelivered;
use tftp_judge::Judge;
use tftp_packet::hosts::Dir;

/// How many datagrams a judge takes.
const MOST_FED: u64 = 1 << 40;

/// How many datagrams are put in at one place.
const MOST_AT_ONE_PLACE: u32 = 1 << 18;

/// How many bytes are put in, at all places.
const MOST_BYTES: usize = 1 << 25;

/// How many datagrams came in and went out.
#[derive(Clone, Copy)]
pub struct Put {
    came: u64,
    sent: u64,
}

/// A judge of what was recorded at an end that puts in what must be missing. Before each datagram it puts in blocks and ACKs that must
/// have passed before it, and has its judge take all of them; an OACK too, where clues tell one. A block that it puts in has the bytes
/// with which it comes later by the clues, else zeros. It gives up where its judge refuses something all the same: where an end did not
/// keep the rules, and where a request, an ERROR or a stray is missing, or an OACK that no clue tells. So it does where a block was
/// shorter than can be told, and where too much is missing.
pub struct Mender {
    judge: Judge<RingDelivered>,
    course: Course,
    places: Vec<Place>,
    recorded: u64,
    gave_up: bool,
    bytes: usize,
}

impl Drop for Mender {
    // written out, since the prover takes a derived one apart again wherever a value is let go
    fn drop(self) {
        let Mender {
            judge: _,
            course: _,
            places: _,
            recorded: _,
            gave_up: _,
            bytes: _,
        } = self;
    }
}

impl Model for Mender {
    ghost use Rattle.std.specs.Prelude.{reverse};
    ghost use Rattle.std.specs.Coded.{codes};
    ghost use Rattle.tftp_ends.specs.StatesKept.{sender_code, receiver_code};
    ghost use Rattle.tftp_packet.specs.Owned.{options_code, parts_code};
    ghost use Rattle.judge_losses.specs.Mended.{Mender};

    ghost Value = { Mender };

    ghost coded = { Prim.hlevel (codes, sender_code, receiver_code, options_code, parts_code) };

    ghost view = { λ m. record { judge = m.judge; places = reverse m.places.items; recorded = m.recorded; gave_up = m.gave_up } };
}

impl Mender {
    /// A mender that was fed nothing, of a capture with this header. Takes no memory.
    pub fn new(alloc: Global, header: &Header) -> Self
        ensures { IsMended result (header_of header.now) [] }
    {
        Mender {
            judge: Judge::new(alloc, header),
            course: Course::new(alloc, header.named),
            places: Vec::new(alloc),
            recorded: 0,
            gave_up: false,
            bytes: 0,
        }
    }

    /// Takes the next datagram, with what must have passed before it, of which clues may tell the bytes. After an error it answers
    /// one for good.
    pub fn feed(
        &mut self,
        alloc: Global,
        clues: &Clues,
        datagram: &Datagram,
    ) -> Result<(), Unmended>
        requires few { self.old.recorded < 2 ^ 40 }
        requires short { length datagram.now.payload ≤ 65527 }

        // For all datagrams that it stands for: it stands for them with this one.
        ensures mends { (h : HeaderParts) (recorded : List DatagramParts) → IsMended self.old h recorded
            → OnOk result (IsMended self.new h (datagram_of datagram.now ∷ recorded)) }
        ensures gives_up { OnErr result (self.new.gave_up ≡ true) }
        ensures for_good { self.old.gave_up ≡ true → IsErr result × (self.new ≡ self.old) }
        ensures counts { OnOk result (self.new.recorded ≡ self.old.recorded + 1) }
    {
        if self.gave_up {
            return Err(Unmended::Unexplained);
        }
        let mended = self.mend(alloc, clues, datagram);
        self.gave_up = mended.is_err();
        mended
    }

    /// The same of a mender that has not given up.
    fn mend(&mut self, alloc: Global, clues: &Clues, datagram: &Datagram) -> Result<(), Unmended>
        requires few { self.old.recorded < 2 ^ 40 }
        requires short { length datagram.now.payload ≤ 65527 }
        ensures mends { (h : HeaderParts) (recorded : List DatagramParts) → IsMended self.old h recorded
            → OnOk result (IsMended self.new h (datagram_of datagram.now ∷ recorded)) }
        ensures counts { OnOk result (self.new.recorded ≡ self.old.recorded + 1) }
        ensures gave_up { self.new.gave_up ≡ self.old.gave_up }
    {
        let put = self.put_in(alloc, clues, datagram)?;
        self.take(alloc, datagram)?;
        self.recorded += 1;
        if put.came > 0 || put.sent > 0 {
            self.keep(Place {
                before: self.recorded,
                came: put.came,
                sent: put.sent,
            })?;
        }
        Ok(())
    }

    /// Puts in what must have passed before this datagram.
    fn put_in(&mut self, alloc: Global, clues: &Clues, datagram: &Datagram) -> Result<Put, Unmended>
        ensures puts { (h : HeaderParts) (all : List DatagramParts) → IsJudgeAfter self.old.judge h all
            → IfOk result (λ made. (put : List DatagramParts) × IsJudgeAfter self.new.judge h (put ++ all)
            × (made.came ≡ going In put) × (made.sent ≡ going Out put)) }
        ensures places { self.new.places ≡ self.old.places }
        ensures recorded { self.new.recorded ≡ self.old.recorded }
        ensures gave_up { self.new.gave_up ≡ self.old.gave_up }
    {
        let said = self.course.said(datagram);
        let mut put = Put { came: 0, sent: 0 };
        for turn in 0..MOST_AT_ONE_PLACE {
            let Some(missing) = self.course.missing_before(said, clues.has_oack()) else {
                return Ok(put);
            };
            let known = clues.payload_of(missing);
            let made = self.course.made(alloc, missing, known, datagram)?;
            self.spend(made.payload.as_slice().len())?;
            self.take(alloc, &made)?;
            match made.dir {
                Dir::In => put.came += 1,
                Dir::Out => put.sent += 1,
            }
        }
        Err(Unmended::Unexplained)
    }

    /// Has the judge take a datagram, and notes how far the transfer has come with it.
    fn take(&mut self, alloc: Global, datagram: &Datagram) -> Result<(), Unmended>
        requires short { length datagram.now.payload ≤ 65527 }
        ensures judged { (h : HeaderParts) (all : List DatagramParts) → IsJudgeAfter self.old.judge h all
            → OnOk result (IsJudgeAfter self.new.judge h (datagram_of datagram.now ∷ all)) }
        ensures places { self.new.places ≡ self.old.places }
        ensures recorded { self.new.recorded ≡ self.old.recorded }
        ensures gave_up { self.new.gave_up ≡ self.old.gave_up }
    {
        if self.judge.fed() >= MOST_FED {
            return Err(Unmended::Unexplained);
        }
        self.judge.feed(alloc, datagram)?;
        self.course.note(datagram)?;
        Ok(())
    }

    /// Counts the bytes that are put in, of which there may not be too many.
    fn spend(&mut self, bytes: usize) -> Result<(), Unmended>
        ensures { self.new ≡ self.old }
    {
        self.bytes = self.bytes.saturating_add(bytes);
        if self.bytes > MOST_BYTES {
            return Err(Unmended::Unexplained);
        }
        Ok(())
    }

    /// Keeps one more place.
    fn keep(&mut self, place: Place) -> Result<(), AllocError>
        ensures judge { self.new.judge ≡ self.old.judge }
        ensures places { OnOk result (self.new.places ≡ place ∷ self.old.places) }
        ensures recorded { self.new.recorded ≡ self.old.recorded }
        ensures gave_up { self.new.gave_up ≡ self.old.gave_up }
    {
        self.places.push(place)?;
        Ok(())
    }

    /// How many datagrams it has taken, without what was put in.
    #[inline]
    pub fn recorded(&self) -> u64
        ensures { result ≡ self.now.recorded }
    {
        self.recorded
    }

    /// Where datagrams must be missing of those that it was fed, and how many: with some of just that number and those ways they are
    /// lawful, perhaps with fewer too.
    pub fn into_places(self) -> Vec<Place>
        ensures { (h : HeaderParts) (recorded : List DatagramParts) → IsMended self h recorded → AreMissing h result.items (reverse recorded) }
    {
        let Mender {
            judge: _judge,
            course: _course,
            places,
            recorded: _,
            gave_up: _,
            bytes: _,
        } = self;
        places
    }
}
