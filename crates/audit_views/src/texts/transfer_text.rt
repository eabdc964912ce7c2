//! The datagrams of one transfer, kept for its capture text.

ghost use Rattle.std.specs.Prelude.{◌≡◌, ◌+◌, ◌^◌, ◌<◌, ◌≤◌, ◌∷◌, ◌++◌, ℕ, List, [], All, Option, length, IfSome, OnErr, OnOk, None, Ok, true, false};
ghost use Rattle.tftp_capture.specs.CaptureText.{Header as HeaderParts};
ghost use Rattle.tftp_capture.specs.{IsPort, Entry, HasWrittenHosts};
ghost use Rattle.net_streams.specs.Streams.{Sink, Wrote};
ghost use Rattle.audit_flows.specs.Transfers.{AreEndsAfter, is_about};
ghost use Rattle.audit_flows.specs.Lines.{Placed};
ghost use Rattle.audit_views.specs.Views.{Naming, IsFed, held_of};
ghost use Rattle.audit_views.specs.Texts.Kept.{AreNotesAfter, CanBeWritten, IsNoted};
ghost use Rattle.audit_views.specs.Texts.Comments.{Worded, placed_in};
ghost use Rattle.audit_views.specs.Texts.Views.{HasComment, IsTextOf, capture_at, entries_of, header_at, is_seen, text_at, way_at};

use crate::texts::comment::Comment;
use crate::texts::noted::Noted;
use crate::views::{Fed, sides, way_at_client, way_at_server};
use audit_flows::lines::{Endpoint, Place, Transfer};
use audit_flows::transfers::TransferEnds;
use net_streams::streams::{LineWriter, WriteFault};
use std::alloc::{AllocError, Global};
use std::io::Write;
use std::marker::Model;
use tftp_capture::{Header, HostCaptureWriter};
use tftp_packet::End;
use tftp_packet::hosts::Dir;

/// The most datagrams that are kept.
const MOST: usize = 1 << 40;

/// The datagrams of one transfer (RFC 1350, section 2), fed with a recording from its first datagram to its last, for the
/// capture text of either end.
#[derive(Drop)]
pub struct TransferText {
    transfer: Transfer,
    ends: TransferEnds,
    noted: Vec<Noted>,
}

impl Model for TransferText {
    ghost use Rattle.std.specs.Prelude.{◌≡◌, ◌^◌, ◌≤◌, All, vec_len};
    ghost use Rattle.tftp_capture.specs.CaptureText.{IsPort};
    ghost use Rattle.audit_views.specs.Texts.Kept.{CanBeWritten, Notes};

    ghost Value = { Notes };

    ghost view = { λ t. record { transfer = t.transfer; ends = t.ends; noted = t.noted.items } };

    ghost invariant = { λ t. (t.ends.number ≡ t.transfer.number) × IsPort t.transfer.asked.port × (vec_len t.noted ≤ 2 ^ 40) × All CanBeWritten t.noted.items };
}

impl TransferText {
    /// Of this transfer, before any datagram; of none whose request went to port 0, as no datagram does (RFC 768).
    pub fn new(alloc: Global, transfer: Transfer) -> Option<Self>
        ensures after { (name : Naming) → IfSome result (λ t. AreNotesAfter t name []) }
        ensures transfer { IfSome result (λ t. t.transfer ≡ transfer) }
        ensures none { result ≡ None → transfer.asked.port ≡ 0 }
    {
        if transfer.asked.port == 0 {
            return None;
        }
        Some(TransferText {
            transfer,
            ends: TransferEnds::new(transfer.number),
            noted: Vec::new(alloc),
        })
    }

    /// The transfer whose text it is.
    pub fn transfer(&self) -> Transfer
        ensures { result ≡ self.now.transfer }
    {
        self.transfer
    }

    /// Takes the next datagram of the recording, of this transfer or of another, which belongs there, with its comment.
    /// Where there is no memory for it, it was not taken.
    pub fn note(&mut self, alloc: Global, fed: &Fed<'_>, comment: Comment) -> Result<(), AllocError>
        requires source { IsPort fed.now.source.now.end.port }
        requires target { IsPort fed.now.target.now.end.port }
        requires short { length fed.now.payload.now ≤ 65527 }
        ensures after { (name : Naming) (w : Worded) (older : List Worded) → AreNotesAfter self.old name older
            → IsFed name w.placed (held_of fed.now) → comment ≡ w.words → OnOk result (AreNotesAfter self.new name (w ∷ older)) }
        ensures others { (p : Placed) → fed.now.place.now ≡ p.place → is_about self.old.transfer.number p ≡ false → (result ≡ Ok tt) × (self.new ≡ self.old) }
        ensures same { OnErr result (self.new ≡ self.old) }
        ensures transfer { self.new.transfer ≡ self.old.transfer }
    {
        if !self.ends.is_about(fed.place) {
            return Ok(());
        }
        if self.noted.len() >= MOST {
            return Err(AllocError);
        }
        let held = fed.held(alloc)?;
        self.noted.push(Noted { held, comment })?;
        self.ends
            .note(fed.place, fed.source.end, fed.target.end, fed.payload);
        Ok(())
    }

    /// Writes the text of an end: this comment after its header, and before each datagram that the end saw its own comment.
    pub fn write<W: Write>(
        &self,
        writer: &mut LineWriter<W>,
        end: End,
        heading: &Comment,
    ) -> Result<(), WriteFault>
        ensures written { (name : Naming) (worded : List Worded) → AreNotesAfter self.now name worded
            → OnOk result ((text : List ℕ) × Wrote W.contents writer.old writer.new text
            × IsTextOf text (header_at end self.now.transfer) (capture_at end name self.now.transfer (placed_in worded) (placed_in worded))) }
        ensures exact { (name : Naming) (worded : List Worded) → AreNotesAfter self.now name worded
            → OnOk result (Wrote W.contents writer.old writer.new (text_at end name self.now.transfer heading.now worded)) }
        ensures failed { OnErr result (writer.new.failed ≡ true) }
    {
        let header = Header {
            named: end,
            service: self.transfer.asked.port,
            rollover: None,
        };
        let mut capture = HostCaptureWriter::begin(writer, &header)?;
        capture.comment(writer, heading.words())?;
        for noted in self.noted.iter() {
            self.put(writer, &mut capture, end, noted)?;
        }
        capture.close(writer)
    }

    /// Writes a datagram with its comment, if it is in the end's view.
    fn put<W: Write>(
        &self,
        writer: &mut LineWriter<W>,
        capture: &mut HostCaptureWriter,
        end: End,
        noted: &Noted,
    ) -> Result<(), WriteFault>
        requires few { capture.old < 2 ^ 40 }
        requires whole { CanBeWritten noted.now }
        ensures counted { OnOk result (capture.new ≤ capture.old + 1) }
        ensures failed { OnErr result (writer.new.failed ≡ true) }
        ensures written { (start : Sink W) (header : HeaderParts) (entries : List Entry)
            → HasWrittenHosts W.contents start writer.old capture.old header entries
            → OnOk result ((more : List Entry) × HasWrittenHosts W.contents start writer.new capture.new header (entries ++ more) × All HasComment more
            × ((name : Naming) (w : Worded) (placed : List Placed) → AreEndsAfter self.now.ends placed → self.now.ends.number ≡ self.now.transfer.number
            → IsNoted name noted.now w
            → more ≡ entries_of end name self.now.transfer placed w)) }
    {
        let (place, source, target) = (&noted.held.place, &noted.held.source, &noted.held.target);
        if !self.is_seen(end, place, source.end, target.end) {
            return Ok(());
        }
        capture.comment(writer, noted.comment.words())?;
        let payload = noted.held.payload.as_slice();
        let dir = self.way(end, place, source.end);
        let (local, remote) = sides(dir, source, target);
        capture.put(writer, dir, local, &remote.host, remote.end.port, payload)
    }

    /// Whether a datagram that belongs there is in the end's view.
    fn is_seen(&self, end: End, place: &Place, source: Endpoint, target: Endpoint) -> bool
        ensures { (placed : List Placed) (p : Placed) → AreEndsAfter self.now.ends placed → place.now ≡ p.place
            → p.datagram.source ≡ source → p.datagram.target ≡ target → result ≡ is_seen end self.now.ends.number placed p }
    {
        match end {
            End::Client => self.ends.is_at_client(place),
            End::Server => self.ends.is_at_server(place, source, target),
        }
    }

    /// Which way a datagram that belongs there passed the end.
    fn way(&self, end: End, place: &Place, source: Endpoint) -> Dir
        ensures { (placed : List Placed) (p : Placed) → AreEndsAfter self.now.ends placed → self.now.ends.number ≡ self.now.transfer.number
            → place.now ≡ p.place → p.datagram.source ≡ source → result ≡ way_at end self.now.transfer placed p }
    {
        match end {
            End::Client => way_at_client(&self.transfer, source),
            End::Server => way_at_server(&self.transfer, &self.ends, place, source),
        }
    }
}
