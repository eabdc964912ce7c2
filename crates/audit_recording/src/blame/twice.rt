//! Whether each datagram of a transfer stands beside its equal: then it was recorded twice.

ghost use Rattle.std.specs.Prelude.{◌≡◌, ◌∷◌, List, [], OnOk};
ghost use Rattle.audit_recording.specs.Reasons.Twice.{IsTwiceAfter, Sent, are_twice, is_kept, sent};

use crate::blame::passing::Passing;
use audit_flows::lines::Endpoint;
use std::alloc::{AllocError, Global};

/// The datagrams of a transfer, as far as it takes to tell whether each stands beside its equal.
#[derive(Drop)]
pub struct Twice {
    last: Vec<u8>,
    ends: Option<(Endpoint, Endpoint)>,
    /// How often the last one has passed in a row.
    row: u64,
    /// One stood alone.
    is_broken: bool,
}

impl Twice {
    /// Before any datagram.
    pub fn new(alloc: Global) -> Self
        ensures { IsTwiceAfter result [] }
    {
        Twice {
            last: Vec::new(alloc),
            ends: None,
            row: 0,
            is_broken: false,
        }
    }

    /// Notes the next datagram. After an error, which is want of memory, it stands for nothing.
    pub fn note(&mut self, passing: &Passing<'_>) -> Result<(), AllocError>
        ensures { (older : List Sent) → IsTwiceAfter self.old older
            → OnOk result (IsTwiceAfter self.new (sent passing.now.source passing.now.target passing.now.payload.now ∷ older)) }
    {
        if self.is_broken {
            return Ok(());
        }
        if self.is_last(passing) {
            self.row = self.row.saturating_add(1);
            return Ok(());
        }
        self.is_broken = self.row == 1;
        self.row = 1;
        self.ends = Some((passing.source, passing.target));
        self.last.clear();
        self.last.extend_from_slice(passing.payload)
    }

    /// Whether a datagram is equal to the last one.
    fn is_last(&self, passing: &Passing<'_>) -> bool
        ensures { result ≡ is_kept self.now.ends self.now.last.items (sent passing.now.source passing.now.target passing.now.payload.now) }
    {
        match self.ends {
            Some((source, target)) => {
                source == passing.source
                    && target == passing.target
                    && self.last.as_slice() == passing.payload
            }
            None => false,
        }
    }

    /// Whether all that have passed stand beside their equals.
    pub fn are_all_twice(&self) -> bool
        ensures { (seen : List Sent) → IsTwiceAfter self.now seen → result ≡ are_twice seen }
    {
        !self.is_broken && self.row > 1
    }
}
