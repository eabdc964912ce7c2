ghost use Rattle.std.specs.Prelude.{◌≡◌, ◌≢◌, ◌+◌, ◌*◌, ◌^◌, ◌<◌, ◌≤◌, ◌⊎◌, ◌∷◌, [], ℕ, List, Option, Some, None, length, true, false, Ok, IfOk, OnOk, OnErr, IsTrue, ◌↔◌, IsSomeAnd, MatchOption};
ghost use Rattle.net_udp.specs.Fragments.Whole.{end_of};
ghost use Rattle.net_udp.specs.Fragments.Pieces.{content_of, part_of, IsComplete, IsHeld};
ghost use Rattle.net_udp.specs.Fragments.Key.{same_key};
ghost use Rattle.net_udp.specs.Fragments.Set.{MayJoin, SetState};
ghost use Rattle.net_udp.specs.Fragments.Store.{set_at, room_of_all, most_room, is_long, frames_of, Comes, CountsAt, HasRoom, PutEnds, MayBePut, IsTried, JoinEnds, WantsMemory};

use crate::fragments::content::Content;
use crate::fragments::key::Key;
use crate::fragments::outcome::Outcome;
use crate::fragments::part::Part;
use crate::fragments::set::Set;
use std::alloc::{AllocError, Global};
use std::collections::BTreeMap;
use std::marker::Model;

/// The most bytes that wait.
const ROOM: usize = 1 << 26;

/// How many bytes more than two for each of its own a fragment may be counted for.
const SPARE: usize = 276;

/// The most bytes of a packet's content.
const LONGEST: usize = 65535;

/// After how many nanoseconds the fragments of a packet are no longer waited for.
const PATIENCE: u64 = 30_000_000_000;

/// The fragments that wait for others of their packets.
#[derive(Drop)]
pub struct Fragments {
    sets: BTreeMap<Key, Set>,
    waiting: usize,
}

impl Model for Fragments {
    ghost use Rattle.net_udp.specs.Fragments.Store.{Sets, IsCounted};

    ghost Value = { Sets };

    ghost view = { λ f. f.sets.entries };

    ghost invariant = { λ f. IsCounted f.sets.entries f.waiting };
}

/// What became of a fragment beside those that wait under its key.
#[derive(Drop)]
enum Joined {
    /// None waits there.
    NoSet,
    /// It waits with them.
    Waits,
    /// None is missing.
    Whole,
    /// No packet is put together of it and them, whose frames these are.
    Apart(Vec<u64>),
}

impl Fragments {
    /// Nothing waits. Takes no memory.
    pub fn new(alloc: Global) -> Self
        ensures { result ≡ [] }
    {
        Fragments {
            sets: BTreeMap::new(alloc),
            waiting: 0,
        }
    }

    /// For how many bytes all that waits is counted.
    pub fn room(&self) -> usize
        ensures value { result ≡ room_of_all self.now }
        ensures few { result ≤ most_room }
    {
        self.waiting
    }

    /// Lets go what waits under a key, and answers its frames, where it began more than 30 s before that time or after it
    /// (in nanoseconds; RFC 8200, section 4.5, waits 60 s, and most systems 30).
    pub fn let_go_old(&mut self, key: Key, time: Option<u64>) -> Option<Vec<u64>>
        ensures other { (other : Key) → same_key key other ≡ false → set_at other self.new ≡ set_at other self.old }
        ensures room { CountsAt key self.old self.new }
        ensures gone { (s : SetState) → set_at key self.old ≡ Some s → is_long s.began time ≡ true → (set_at key self.new ≡ None) × IsSomeAnd result (λ frames. frames.items ≡ s.frames) }
        ensures kept { (s : SetState) → set_at key self.old ≡ Some s → is_long s.began time ≡ false → (set_at key self.new ≡ Some s) × (result ≡ None) }
        ensures none { set_at key self.old ≡ None → (set_at key self.new ≡ None) × (result ≡ None) }
        ensures young { (s : SetState) → set_at key self.new ≡ Some s → is_long s.began time ≡ false }
    {
        let old = match self.sets.get(&key) {
            Some(set) => is_long(set.began(), time),
            None => false,
        };
        if old { self.let_go(key) } else { None }
    }

    /// Lets go what waits under a key, and answers its frames.
    fn let_go(&mut self, key: Key) -> Option<Vec<u64>>
        ensures other { (other : Key) → same_key key other ≡ false → set_at other self.new ≡ set_at other self.old }
        ensures room { CountsAt key self.old self.new }
        ensures gone { set_at key self.new ≡ None }
        ensures frames { MatchOption result (set_at key self.old ≡ None) (λ frames. (s : SetState) × (set_at key self.old ≡ Some s) × (frames.items ≡ s.frames)) }
    {
        match self.sets.remove(&key) {
            Some(set) => {
                self.waiting -= set.room();
                Some(set.into_frames())
            }
            None => None,
        }
    }

    /// Lets go what waits under one of the keys, and answers the key and its frames; none where nothing waits. At the end of
    /// a recording these are of packets that were never whole.
    pub fn let_go_any(&mut self) -> Option<(Key, Vec<u64>)>
        ensures { MatchOption result ((self.old ≡ []) × (self.new ≡ [])) (λ gone. (s : SetState) × (self.old ≡ (gone.0, s) ∷ self.new) × (gone.1.items ≡ s.frames)) }
    {
        let (key, set) = self.sets.pop_first()?;
        self.waiting -= set.room();
        Some((key, set.into_frames()))
    }

    /// Takes a fragment, which came in a frame of that number at that time (in nanoseconds). What waits under its key is not
    /// older: `let_go_old` lets go what is. A fragment that has come already changes nothing but that its frame waits too.
    pub fn put(
        &mut self,
        alloc: Global,
        key: Key,
        part: &Part,
        time: Option<u64>,
        frame: u64,
    ) -> Result<Outcome, AllocError>
        requires young { (s : SetState) → set_at key self.old ≡ Some s → is_long s.began time ≡ false }
        ensures other { (other : Key) → same_key key other ≡ false → set_at other self.new ≡ set_at other self.old }
        ensures room { CountsAt key self.old self.new }
        ensures ends { IfOk result (PutEnds (set_at key self.old) (set_at key self.new) (room_of_all self.old) (record { part = part_of part.now; time = time; frame = frame })) }
        ensures tried { IfOk result (IsTried (room_of_all self.old) (part_of part.now)) }
        ensures full { result ≡ Ok Outcome.Full → self.new ≡ self.old }
        ensures wants { OnErr result (WantsMemory (set_at key self.old) (room_of_all self.old) (part_of part.now)) }
        ensures err { OnErr result ((self.new ≡ self.old) ⊎ Comes (set_at key self.old) (set_at key self.new) (record { part = part_of part.now; time = time; frame = frame })) }
    {
        let end = part.place as usize + part.content.len();
        if part.content.is_empty() {
            return Ok(Outcome::Empty);
        }
        if end + usize::from(part.more) > LONGEST {
            return Ok(Outcome::TooLong);
        }
        if self.waiting + 2 * end + SPARE > ROOM {
            return Ok(Outcome::Full);
        }
        match self.join(alloc, key, part, frame)? {
            Joined::NoSet => self.begin(alloc, key, part, time, frame),
            Joined::Waits => Ok(Outcome::Waits),
            Joined::Whole => {
                let (content, frames) = self.hand_out(alloc, key)?;
                Ok(Outcome::Whole { content, frames })
            }
            Joined::Apart(frames) => Ok(Outcome::Apart(frames)),
        }
    }

    /// Takes the first fragment of a packet.
    fn begin(
        &mut self,
        alloc: Global,
        key: Key,
        part: &Part,
        time: Option<u64>,
        frame: u64,
    ) -> Result<Outcome, AllocError>
        requires none { set_at key self.old ≡ None }
        requires some { 1 ≤ length part.now.content.now }
        requires short { end_of (part_of part.now) ≤ 65535 }
        requires room { HasRoom (room_of_all self.old) (part_of part.now) }
        ensures other { (other : Key) → same_key key other ≡ false → set_at other self.new ≡ set_at other self.old }
        ensures room { CountsAt key self.old self.new }
        ensures taken { result ≢ Ok Outcome.Full }
        ensures tried { MayBePut (part_of part.now) → IfOk result (IsTried (room_of_all self.old) (part_of part.now)) }
        ensures ends { IfOk result (PutEnds None (set_at key self.new) (room_of_all self.old) (record { part = part_of part.now; time = time; frame = frame })) }
        ensures err { OnErr result (self.new ≡ self.old) }
    {
        let mut set = Set::new(alloc, time);
        let _apart = set.take(alloc, part, frame)?;
        if set.is_whole() {
            let content = set.content(alloc)?;
            let frames = set.into_frames();
            return Ok(Outcome::Whole { content, frames });
        }
        let room = set.room();
        self.sets.insert(key, set)?;
        self.waiting += room;
        Ok(Outcome::Waits)
    }

    /// Hands out the content of a packet of which no part is missing, and its frames, and lets its fragments go.
    fn hand_out(&mut self, alloc: Global, key: Key) -> Result<(Content, Vec<u64>), AllocError>
        requires { (s : SetState) × (set_at key self.old ≡ Some s) × IsComplete s.held }
        ensures other { (other : Key) → same_key key other ≡ false → set_at other self.new ≡ set_at other self.old }
        ensures room { CountsAt key self.old self.new }
        ensures content { IfOk result (λ out. (s : SetState) → set_at key self.old ≡ Some s → IsHeld s.held (content_of out.0)) }
        ensures frames { IfOk result (λ out. (s : SetState) → set_at key self.old ≡ Some s → out.1.items ≡ s.frames) }
        ensures gone { OnOk result (set_at key self.new ≡ None) }
        ensures err { OnErr result (self.new ≡ self.old) }
    {
        let content = self.content_at(alloc, key)?;
        match self.let_go(key) {
            Some(frames) => Ok((content, frames)),
            None => Ok((content, Vec::new(alloc))),
        }
    }

    /// The content of a packet of which no part is missing.
    fn content_at(&self, alloc: Global, key: Key) -> Result<Content, AllocError>
        requires { (s : SetState) × (set_at key self.now ≡ Some s) × IsComplete s.held }
        ensures { IfOk result (λ content. (s : SetState) → set_at key self.now ≡ Some s → IsHeld s.held (content_of content)) }
    {
        let content = match self.sets.get(&key) {
            Some(set) => set.content(alloc)?,
            None => Content {
                protocol: 0,
                bytes: Vec::new(alloc),
            },
        };
        Ok(content)
    }

    /// Takes a fragment to those that wait under its key.
    fn join(
        &mut self,
        alloc: Global,
        key: Key,
        part: &Part,
        frame: u64,
    ) -> Result<Joined, AllocError>
        requires some { 1 ≤ length part.now.content.now }
        requires short { end_of (part_of part.now) ≤ 65535 }
        requires room { HasRoom (room_of_all self.old) (part_of part.now) }
        ensures other { (other : Key) → same_key key other ≡ false → set_at other self.new ≡ set_at other self.old }
        ensures room { CountsAt key self.old self.new }
        ensures none { IfOk result (λ joined. joined ≡ Joined.NoSet → self.new ≡ self.old) }
        ensures wants { OnErr result ((s : SetState) → set_at key self.old ≡ Some s → (s.spoiled ≡ false) × MayJoin s (part_of part.now)) }
        ensures ends { IfOk result (JoinEnds (set_at key self.old) (set_at key self.new) (part_of part.now) frame) }
        ensures err { OnErr result (self.new ≡ self.old) }
    {
        let Some(set) = self.sets.get_mut(&key) else {
            return Ok(Joined::NoSet);
        };
        let before = set.room();
        let taken = set.take(alloc, part, frame)?;
        let after = set.room();
        let whole = set.is_whole();
        self.waiting = self.waiting - before + after;
        match taken {
            Some(frames) => Ok(Joined::Apart(frames)),
            None if whole => Ok(Joined::Whole),
            None => Ok(Joined::Waits),
        }
    }
}

/// Whether more than 30 s lie between the two times.
fn is_long(began: Option<u64>, time: Option<u64>) -> bool
    ensures { result ≡ is_long began time }
{
    match (began, time) {
        (Some(began), Some(time)) => began.abs_diff(time) > PATIENCE,
        _ => false,
    }
}
