ghost use Rattle.std.specs.List.{AllByRecursion};
ghost use Rattle.std.specs.Prelude.{◌≡◌, ◌↔◌, ◌<◌, List, [], ◌∷◌, Some, true, IfErr, IsTrue, Err, OnOk, OnErr};
ghost use Rattle.tftp_packet.specs.{Message, Spells, meaning, parts};
ghost use Rattle.tftp_capture.specs.{datagram_of, header_of};
ghost use Rattle.tftp_packet.specs.Hosts.{Datagram as DatagramParts, Header as HeaderParts};
ghost use Rattle.tftp_ends.specs.{among_all};
ghost use Rattle.law_model.specs.Rules.{route_of, is_of_transfer, transfer_of};
ghost use Rattle.law_rollover.specs.{IsTaken, IsTakenFor};
ghost use Rattle.law_end.specs.{OneEnded};
ghost use Rattle.tftp_judge.specs.Found.{FindsOf, error_by_port};
ghost use Rattle.tftp_judge.specs.Kept.{HasKept, IsKept, IsTransferAfter, Transfer as TransferParts};
ghost use Rattle.tftp_judge.specs.Memory.{TakesMemory};
ghost use Rattle.tftp_judge.specs.SentByKept.{HasSentIn, flags_of};
ghost use Rattle.tftp_judge.specs.declared.pass_error.PassError.{PassError as PassErrorKind};

use crate::pass_error::PassError;
use crate::sent_acks::SentAcks;
use crate::transfer::Transfer;
use law_end::Rule;
use law_model::rules::PortRule;
use std::alloc::Global;
use std::marker::Model;
use tftp_capture::{Datagram, Header};
use tftp_ends::blocks::Delivered;
use tftp_ends::{PortFault, Ports, Route, says_unknown_id};
use tftp_packet::hosts::Dir;
use tftp_packet::rounds::Rollover;
use tftp_packet::{Bytes, Packet, RequestView, ack_of, block_of, opcode, own_request, read_packet};

/// What is kept of the datagrams that have passed: the transfer ids, and the transfer from its first request on.
#[derive(Drop)]
pub struct JudgeState<D: Delivered + Drop> {
    header: Header,
    ports: Ports,
    transfer: Option<Transfer<D>>,
    // the bytes of the first request, once it has passed
    asked: Bytes,
    /// Whether the last datagram that passed its ports was one of the transfer.
    of_transfer: bool,
}

impl<D: Delivered + Drop> Model for JudgeState<D> {
    ghost use Rattle.std.specs.Coded.{codes};
    ghost use Rattle.tftp_ends.specs.StatesKept.{sender_code, receiver_code};
    ghost use Rattle.tftp_packet.specs.Owned.{options_code, parts_code};
    ghost use Rattle.tftp_capture.specs.Fields.{header_of};
    ghost use Rattle.tftp_judge.specs.Kept.{AreBytesOf, JudgeState};

    ghost Value = { JudgeState };

    ghost coded = { Prim.hlevel (codes, sender_code, receiver_code, options_code, parts_code) };

    ghost view = { λ k. record {
      header = header_of k.header;
      ports = k.ports;
      transfer = k.transfer;
      of_transfer = k.of_transfer;
    } };

    ghost invariant = { λ k. AreBytesOf k.asked k.transfer };
}

impl<D: Delivered + Drop> JudgeState<D> {
    /// Before the first datagram of a capture with this header. Takes no memory.
    pub fn new(alloc: Global, header: &Header) -> Self
        ensures { HasKept result (header_of header.now) [] }
    {
        JudgeState {
            header: *header,
            ports: Ports::new(alloc, header.named, header.service),
            transfer: None,
            asked: Bytes::of(Vec::new(alloc)),
            of_transfer: false,
        }
    }

    /// What is found of a datagram after those that have passed; where it passes it is kept. Where numbers begin again after 65535, a
    /// number is taken for the block near the highest that has passed (RFC 1350, section 5).
    pub fn pass(
        &mut self,
        alloc: Global,
        rollover: Option<Rollover>,
        datagram: &Datagram,
    ) -> Result<(), PassError>
        ensures finds { (h : HeaderParts) (earlier : List DatagramParts) (d : DatagramParts) → OneEnded h earlier → HasKept self.old h earlier
            → IsTaken rollover (transfer_of h earlier) (datagram_of datagram.now) d → FindsOf h earlier d (HasKept self.new h (d ∷ earlier)) result }
        ensures memory { (h : HeaderParts) (earlier : List DatagramParts) (d : DatagramParts) → HasKept self.old h earlier
            → IsTaken rollover (transfer_of h earlier) (datagram_of datagram.now) d → result ≡ Err PassErrorKind.Memory → TakesMemory h earlier d }
        ensures routed { (h : HeaderParts) (earlier : List DatagramParts) (d : DatagramParts) → HasKept self.old h earlier
            → IsTaken rollover (transfer_of h earlier) (datagram_of datagram.now) d
            → OnOk result (self.new.of_transfer ≡ is_of_transfer (route_of h earlier d)) }
        ensures err { OnErr result (self.new.transfer ≡ self.old.transfer) }
    {
        let payload = datagram.payload.as_slice();
        let route = match self.ports.class(
            datagram.dir,
            datagram.local_port,
            &datagram.remote_host,
            datagram.remote_port,
            opcode(payload),
        ) {
            Ok(route) => route,
            Err(fault) => return Err(error_of_port(fault)),
        };
        self.of_transfer = belongs(route);
        match route {
            Route::Request | Route::Peer => self.pass_message(
                alloc,
                rollover,
                route,
                datagram.dir,
                payload,
            ),
            Route::StrayAnswer => {
                if says_unknown_id(payload) {
                    Ok(())
                } else {
                    Err(PassError::Broken(Rule::Port(PortRule::BadAnswer)))
                }
            }
            Route::Stray => Ok(()),
        }
    }

    /// Whether the end has sent this packet, by what is kept and the flags of the ACKs that it has sent.
    pub fn has_sent(&self, acks: &SentAcks, packet: &Packet<'_>) -> bool
        ensures { IsTrue result ↔ HasSentIn self.now.transfer (flags_of acks.now) (meaning packet.now) }
    {
        match &self.transfer {
            Some(transfer) => transfer.has_sent(acks, packet),
            None => false,
        }
    }

    /// Whether the last datagram that passed was one of the transfer, and neither a stray nor the answer to one (RFC 1350,
    /// section 4).
    #[inline]
    pub fn last_was_of_transfer(&self) -> bool
        ensures { result ≡ self.now.of_transfer }
    {
        self.of_transfer
    }

    /// The transfer, if its first request has passed.
    pub fn into_transfer(self) -> Option<Transfer<D>>
        ensures { result ≡ self.transfer }
    {
        self.transfer
    }

    /// What is found of a datagram of the transfer. The first request again and the first OACK again
    /// are known by their bytes, and are not read; a block or an ACK, as most are, is judged where it lies.
    fn pass_message(
        &mut self,
        alloc: Global,
        rollover: Option<Rollover>,
        route: Route,
        dir: Dir,
        payload: &[u8],
    ) -> Result<(), PassError>
        ensures finds { (h : HeaderParts) (earlier : List DatagramParts) (d : DatagramParts) → self.old.header ≡ h → OneEnded h earlier
            → IsKept h earlier self.old.transfer → among_all route ≡ route_of h earlier d → is_of_transfer (among_all route) ≡ true → d.dir ≡ dir
            → IsTakenFor rollover (transfer_of h earlier) payload.now d.payload → FindsOf h earlier d (IsKept h (d ∷ earlier) self.new.transfer) result }
        ensures memory { (h : HeaderParts) (earlier : List DatagramParts) (d : DatagramParts) → IsKept h earlier self.old.transfer
            → among_all route ≡ route_of h earlier d → is_of_transfer (among_all route) ≡ true → d.dir ≡ dir
            → IsTakenFor rollover (transfer_of h earlier) payload.now d.payload → result ≡ Err PassErrorKind.Memory → TakesMemory h earlier d }
        ensures header { self.new.header ≡ self.old.header }
        ensures ports { self.new.ports ≡ self.old.ports }
        ensures of_transfer { self.new.of_transfer ≡ self.old.of_transfer }
        ensures err { OnErr result (self.new.transfer ≡ self.old.transfer) }
    {
        let Some(transfer) = &mut self.transfer else {
            holds_bytes(payload);
            return self.pass_read(alloc, route, dir, payload);
        };
        if payload == self.asked.as_slice() {
            return transfer.pass_again(dir);
        }
        if transfer.has_agreed_by(payload) {
            return transfer.pass_oack_again(dir);
        }
        if let Some((number, bytes)) = block_of(payload) {
            let block = transfer.block_of(rollover, number);
            return transfer.pass(alloc, dir, &Packet::Data { block, bytes });
        }
        if let Some(number) = ack_of(payload) {
            let block = transfer.block_of(rollover, number);
            return transfer.pass(alloc, dir, &Packet::Ack { block });
        }
        self.pass_read(alloc, route, dir, payload)
    }

    /// The same of one whose bytes are read.
    #[inline(never)]
    fn pass_read(
        &mut self,
        alloc: Global,
        route: Route,
        dir: Dir,
        payload: &[u8],
    ) -> Result<(), PassError>
        ensures finds { (h : HeaderParts) (earlier : List DatagramParts) (d : DatagramParts) → self.old.header ≡ h → OneEnded h earlier
            → IsKept h earlier self.old.transfer → among_all route ≡ route_of h earlier d → is_of_transfer (among_all route) ≡ true → d.dir ≡ dir
            → d.payload ≡ payload.now → FindsOf h earlier d (IsKept h (d ∷ earlier) self.new.transfer) result }
        ensures memory { (h : HeaderParts) (earlier : List DatagramParts) (d : DatagramParts) → IsKept h earlier self.old.transfer
            → among_all route ≡ route_of h earlier d → is_of_transfer (among_all route) ≡ true → d.dir ≡ dir → d.payload ≡ payload.now
            → result ≡ Err PassErrorKind.Memory → TakesMemory h earlier d }
        ensures header { self.new.header ≡ self.old.header }
        ensures ports { self.new.ports ≡ self.old.ports }
        ensures of_transfer { self.new.of_transfer ≡ self.old.of_transfer }
        ensures err { OnErr result (self.new.transfer ≡ self.old.transfer) }
    {
        if self.transfer.is_none() && route == Route::Peer {
            return Err(PassError::Broken(Rule::NoRequest));
        }
        let read = read_packet(payload);
        let packet = match &read {
            Ok(packet) => packet,
            Err(fault) => return Err(PassError::Broken(Rule::Malformed(*fault))),
        };
        if let Some(transfer) = &mut self.transfer {
            transfer.pass(alloc, dir, packet)?;
            transfer.keep_oack(alloc, packet, payload);
            return Ok(());
        }
        match packet {
            Packet::Request(asked) => self.begin(alloc, asked, payload),
            _ => Err(PassError::Broken(Rule::NoRequest)),
        }
    }

    /// The transfer begins, with its first request, whose bytes these are.
    #[inline(never)]
    fn begin(
        &mut self,
        alloc: Global,
        asked: &RequestView<'_>,
        payload: &[u8],
    ) -> Result<(), PassError>
        requires { Spells payload.now (Message.Request (parts asked.now)) }
        ensures begins { OnOk result ((transfer : TransferParts) × (self.new.transfer ≡ Some transfer) × (transfer.asked ≡ parts asked.now)
            × ((h : HeaderParts) (d : DatagramParts) → h.named ≡ self.old.header.named → h.rollover ≡ self.old.header.rollover → Spells d.payload (Message.Request transfer.asked)
            → IsTransferAfter transfer h (d ∷ []))) }
        ensures wanting { IfErr result (λ stop. stop ≡ PassErrorKind.Memory) }
        ensures err { OnErr result (self.new.transfer ≡ self.old.transfer) }
        ensures header { self.new.header ≡ self.old.header }
        ensures ports { self.new.ports ≡ self.old.ports }
        ensures of_transfer { self.new.of_transfer ≡ self.old.of_transfer }
    {
        let asked = own_request(alloc, asked)?;
        self.asked = Bytes::of(Vec::from_slice(alloc, payload)?);
        // by `insert`, since an assignment has the proof of this function let go of each kind of transfer before
        self.transfer.insert(Transfer::of(self.header.named, self.header.rollover, asked));
        Ok(())
    }
}

/// A payload is bytes. It does nothing.
fn holds_bytes(payload: &[u8])
    ensures { AllByRecursion (λ b. b < 256) payload.now }
{}

/// Whether a datagram of this route is one of the transfer (RFC 1350, section 4).
fn belongs(route: Route) -> bool
    ensures { result ≡ is_of_transfer (among_all route) }
{
    match route {
        Route::Request | Route::Peer => true,
        Route::Stray | Route::StrayAnswer => false,
    }
}

/// Why a datagram does not pass by its ports (RFC 1350, section 4).
fn error_of_port(fault: PortFault) -> PassError
    ensures { result ≡ error_by_port fault }
{
    match fault {
        PortFault::Broken(rule) => PassError::Broken(Rule::Port(rule)),
        PortFault::Memory => PassError::Memory,
    }
}
