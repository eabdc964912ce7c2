//! What a recording tells of the datagrams that must be missing of it. What is put in by it is judged, so nothing is promised of it.

use crate::course::{Course, Missing, Said};
use crate::supposed::supposed_oack;
use std::alloc::{AllocError, Global};
use std::collections::BTreeMap;
use tftp_capture::{Datagram, Header};

/// How many bytes of blocks that come late are kept.
const MOST_BYTES: usize = 1 << 25;

/// What a recording tells of the datagrams that must be missing of it: the bytes of a block that must have passed before, and comes
/// later, as one does that is sent again; and the OACK.
#[derive(Drop)]
pub struct Clues {
    course: Course,
    // the payloads of blocks that first passed late
    late: BTreeMap<u16, Vec<u8>>,
    // how many bytes these have
    bytes: usize,
    // the request, empty until it passed
    request: Vec<u8>,
    // the first OACK that passed, else the one that is supposed
    oack: Option<Vec<u8>>,
    // the most bytes that a block had, and whether any but the first passed
    longest: usize,
    several: bool,
}

impl Clues {
    /// What is known before the first datagram. Takes no memory.
    pub fn new(alloc: Global, header: &Header) -> Self {
        Clues {
            course: Course::new(alloc, header.named),
            late: BTreeMap::new(alloc),
            bytes: 0,
            request: Vec::new(alloc),
            oack: None,
            longest: 0,
            several: false,
        }
    }

    /// Notes the next datagram. It takes the memory of a request, of an OACK, and of a block that comes late, up to 32 MB for all of
    /// these; what comes late beyond that is not known.
    pub fn note(&mut self, alloc: Global, datagram: &Datagram) -> Result<(), AllocError> {
        let payload = datagram.payload.as_slice();
        if !self.course.has_begun() {
            self.request = Vec::from_slice(alloc, payload)?;
        }
        if self.oack.is_none() && self.course.is_oack(datagram) {
            self.oack = Some(Vec::from_slice(alloc, payload)?);
        }
        if let Said::Block(number) = self.course.said(datagram) {
            self.note_block(alloc, number, payload)?;
        }
        self.course.note(datagram)
    }

    /// Supposes that the server agreed to what it was asked for, where no OACK passed. False where that tells nothing.
    pub(crate) fn suppose_oack(&mut self, alloc: Global) -> Result<bool, AllocError> {
        if self.oack.is_some() {
            return Ok(false);
        }
        self.oack = supposed_oack(alloc, self.request.as_slice(), self.longest_block())?;
        Ok(self.oack.is_some())
    }

    /// Whether there is an OACK that may be missing.
    pub(crate) fn has_oack(&self) -> bool {
        self.oack.is_some()
    }

    /// The payload of a datagram that is missing, where it is known.
    pub(crate) fn payload_of(&self, missing: Missing) -> Option<&[u8]> {
        match missing {
            Missing::Block(number) => match self.late.get(&number) {
                Some(payload) => Some(payload.as_slice()),
                None => None,
            },
            Missing::Oack => match &self.oack {
                Some(payload) => Some(payload.as_slice()),
                None => None,
            },
            Missing::Ack(_) => None,
        }
    }

    fn note_block(&mut self, alloc: Global, number: u16, payload: &[u8]) -> Result<(), AllocError> {
        self.longest = self.longest.max(payload.len().saturating_sub(4));
        self.several = self.several || number > 1;
        if self.course.is_late(number) {
            self.keep(alloc, number, payload)?;
        }
        Ok(())
    }

    /// Keeps a block, unless too much is kept.
    fn keep(&mut self, alloc: Global, number: u16, payload: &[u8]) -> Result<(), AllocError> {
        let bytes = self.bytes.saturating_add(payload.len());
        if bytes > MOST_BYTES {
            return Ok(());
        }
        let copy = Vec::from_slice(alloc, payload)?;
        self.late.insert(number, copy)?;
        self.bytes = bytes;
        Ok(())
    }

    /// How many bytes a block has at most, as far as blocks tell it: a block alone may be the last, and shorter.
    fn longest_block(&self) -> u64 {
        if self.several {
            self.longest as u64
        } else {
            u64::MAX
        }
    }
}
