ghost use Rattle.std.specs.Prelude.{◌≡◌, ◌+◌, ◌*◌, ◌^◌, ◌<◌, ◌≤◌, ◌∷◌, [], ℕ, List, Option, Some, None, length, true, false, IfOk, OnErr, IsTrue, ◌↔◌};
ghost use Rattle.net_udp.specs.Fragments.Whole.{end_of};
ghost use Rattle.net_udp.specs.Fragments.Overlaps.{OneOf, Overlap};
ghost use Rattle.net_udp.specs.Fragments.Pieces.{content_of, part_of, nothing_held, IsComplete, IsHeld};
ghost use Rattle.net_udp.specs.Fragments.Set.{Arrival, IsSetOf, MayJoin, Spoils, TakeEnds, room_of};

use crate::fragments::content::Content;
use crate::fragments::extent::Extent;
use crate::fragments::part::Part;
use crate::fragments::parts::Parts;
use std::alloc::{AllocError, Global};
use std::marker::Model;
use std::mem;

/// How many bytes a set is counted for beside its parts and their frames.
const SET_ROOM: usize = 256;

/// How many bytes a frame is counted for, with the extent of its part.
const FRAME_ROOM: usize = 20;

/// The fragments of one packet: their parts, and the frames that brought them. Once two have come of which no packet is put
/// together, none of them is kept.
#[derive(Drop)]
pub(crate) struct Set {
    parts: Parts,
    frames: Vec<u64>,
    extents: Vec<Extent>,
    began: Option<u64>,
    spoiled: bool,
}

impl Model for Set {
    ghost use Rattle.net_udp.specs.Fragments.Set.{SetState};

    ghost Value = { SetState };

    ghost use Rattle.net_udp.specs.Fragments.Set.{IsSound};

    ghost view = { λ s. record { held = s.parts; frames = s.frames.items; extents = s.extents.items; began = s.began; spoiled = s.spoiled } };

    ghost invariant = { λ s. IsSound s.parts s.frames.items s.extents.items s.spoiled };
}

impl Set {
    /// No fragment. Takes no memory.
    pub(crate) fn new(alloc: Global, began: Option<u64>) -> Self
        ensures { result ≡ record { held = nothing_held; frames = []; extents = []; began = began; spoiled = false } }
    {
        Set {
            parts: Parts::new(alloc),
            frames: Vec::new(alloc),
            extents: Vec::new(alloc),
            began,
            spoiled: false,
        }
    }

    /// When its first fragment came.
    pub(crate) fn began(&self) -> Option<u64>
        ensures { result ≡ self.now.began }
    {
        self.began
    }

    /// How many bytes it is counted for.
    pub(crate) fn room(&self) -> usize
        ensures { result ≡ room_of self.now }
    {
        2 * self.parts.reach() + FRAME_ROOM * self.frames.len() + SET_ROOM
    }

    /// Whether all of the packet's content has come.
    pub(crate) fn is_whole(&self) -> bool
        ensures { IsTrue result ↔ ((self.now.spoiled ≡ false) × IsComplete self.now.held) }
    {
        !self.spoiled && self.parts.are_whole()
    }

    /// Whether a part may come to those before: it may be of one packet with them, and overlaps with none where it may not.
    fn may_join(&self, part: &Part) -> bool
        requires room { end_of (part_of part.now) ≤ 65535 }
        ensures joins { result ≡ true → MayJoin self.now (part_of part.now) }
        ensures spoils { result ≡ false → Spoils self.now (part_of part.now) }
    {
        if part.may_overlap {
            return self.parts.agree(part);
        }
        self.parts.agree(part) && !self.has_one_under(Extent::of(part))
    }

    /// Whether a part of that extent overlaps with one that has come.
    fn has_one_under(&self, extent: Extent) -> bool
        ensures { IsTrue result ↔ OneOf (Overlap extent) self.now.extents }
    {
        self.extents.iter().any(|before| before.overlaps(extent))
    }

    /// Whether a part of just that extent has come.
    fn has_one_of(&self, extent: Extent) -> bool
        ensures { IsTrue result ↔ OneOf (λ e. e ≡ extent) self.now.extents }
    {
        self.extents.iter().any(|before| *before == extent)
    }

    /// Takes a fragment. Where no packet is put together of it and those before, the answer is their frames, which are not kept.
    pub(crate) fn take(
        &mut self,
        alloc: Global,
        part: &Part,
        frame: u64,
    ) -> Result<Option<Vec<u64>>, AllocError>
        requires some { 1 ≤ length part.now.content.now }
        requires room { end_of (part_of part.now) ≤ 65535 }
        requires few { length self.old.frames < 2 ^ 40 }
        ensures ends { IfOk result (TakeEnds self.old self.new (part_of part.now) frame) }
        ensures agrees { self.old.spoiled ≡ false → MayJoin self.old (part_of part.now) → IfOk result (λ frames. frames ≡ None) }
        ensures wants { OnErr result ((self.old.spoiled ≡ false) × MayJoin self.old (part_of part.now)) }
        ensures began { self.new.began ≡ self.old.began }
        ensures err { OnErr result (self.new ≡ self.old) }
    {
        if self.spoiled {
            return Ok(Some(Vec::new(alloc)));
        }
        if !self.may_join(part) {
            self.spoiled = true;
            self.parts = Parts::new(alloc);
            self.extents = Vec::new(alloc);
            return Ok(Some(mem::replace(&mut self.frames, Vec::new(alloc))));
        }
        let extent = Extent::of(part);
        let is_noted = self.has_one_of(extent);
        self.frames.reserve(1)?;
        self.extents.reserve(1)?;
        self.parts.add(part)?;
        self.frames.push(frame)?;
        if is_noted {
            return Ok(None);
        }
        self.extents.push(extent)?;
        Ok(None)
    }

    /// The packet's content.
    pub(crate) fn content(&self, alloc: Global) -> Result<Content, AllocError>
        requires { IsComplete self.now.held }
        ensures { IfOk result (λ content. IsHeld self.now.held (content_of content)) }
    {
        self.parts.content(alloc)
    }

    /// The frames of the fragments that wait.
    pub(crate) fn into_frames(self) -> Vec<u64>
        ensures { result.items ≡ self.frames }
    {
        self.frames
    }
}
