ghost use Rattle.std.specs.Prelude.{◌≡◌, [], IfOk, IsOk};
ghost use Rattle.audit_views.specs.Views.Kept.{held_of};

use crate::views::held::Held;
use crate::views::party::Party;
use audit_flows::lines::Place;
use std::alloc::{AllocError, Global};
use tftp_packet::Bytes;

/// A datagram of a recording, as the judges of its transfers are fed it.
#[derive(Clone, Copy)]
pub struct Fed<'a> {
    /// Where it belongs.
    pub place: &'a Place,
    /// Where it came from.
    pub source: &'a Party,
    /// Where it went.
    pub target: &'a Party,
    /// What it carried.
    pub payload: &'a [u8],
}

impl<'a> Fed<'a> {
    /// A copy of it, to be held. It takes memory for the payload alone.
    pub fn held(&self, alloc: Global) -> Result<Held, AllocError>
        ensures held { IfOk result (λ held. held ≡ held_of self.now) }
        ensures none { self.now.payload.now ≡ [] → IsOk result }
    {
        let mut payload = Vec::new(alloc);
        payload.extend_from_slice(self.payload)?;
        Ok(Held {
            place: *self.place,
            source: *self.source,
            target: *self.target,
            payload: Bytes::of(payload),
        })
    }
}
