ghost use Rattle.std.specs.Prelude.{◌≡◌, List, [], ◌∷◌, true, false, None};
ghost use Rattle.tftp_packet.specs.{Message, Spells, meaning};
ghost use Rattle.law_tap.specs.{AreApart, IsSaidBy, TapDatagram as Passing, TapSides, is_passing, lossy_route, side_of};
ghost use Rattle.judge_tap.specs.TapStops.{passing_of};
ghost use Rattle.judge_tap.specs.LossyKept.{FindsWithLosses, HasKeptWithLosses};

use crate::datagram::TapDatagram;
use crate::said_notes::SaidNotes;
use law_end::Rule;
use law_model::rules::PortRule;
use law_tap::{Sides, TapRoute};
use std::alloc::Global;
use std::marker::Model;
use tftp_ends::says_unknown_id;
use tftp_judge::PassError;
use tftp_packet::{End, Packet, opcode, own_request, read_packet};

/// What is kept of the datagrams that were recorded between the ends: the sides, and what was said from the request on.
#[derive(Drop)]
pub struct LossyState {
    sides: Sides,
    notes: Option<SaidNotes>,
    late: bool,
}

impl Model for LossyState {
    ghost use Rattle.std.specs.Coded.{codes};
    ghost use Rattle.tftp_packet.specs.Owned.{options_code, parts_code};
    ghost use Rattle.judge_tap.specs.Said.{blocks_code};
    ghost use Rattle.judge_tap.specs.LossyKept.{LossyState};

    ghost Value = { LossyState };

    ghost coded = { Prim.hlevel (codes, blocks_code, options_code, parts_code) };

    ghost view = { λ k. record { sides = k.sides; notes = k.notes; late = k.late } };
}

impl LossyState {
    /// Before the first datagram of a transfer with these sides. Takes no memory.
    pub fn new(sides: Sides) -> Self
        ensures { HasKeptWithLosses result sides [] }
    {
        LossyState {
            sides,
            notes: None,
            late: false,
        }
    }

    /// What is found of the next datagram; where it breaks no rule with losses it is kept.
    pub fn pass(&mut self, alloc: Global, datagram: &TapDatagram) -> Result<(), PassError>
        ensures { (s : TapSides) (earlier : List Passing) → AreApart s → HasKeptWithLosses self.old s earlier
            → FindsWithLosses s earlier (passing_of datagram.now) (HasKeptWithLosses self.new s (passing_of datagram.now ∷ earlier)) result }
    {
        let payload = datagram.payload.as_slice();
        let route = self
            .sides
            .route_with_losses(datagram.source, datagram.destination, opcode(payload));
        match route {
            TapRoute::Request | TapRoute::FromClient => {
                self.pass_message(alloc, End::Client, payload)
            }
            TapRoute::FromServer => self.pass_message(alloc, End::Server, payload),
            TapRoute::Stray => Ok(()),
            TapRoute::StrayAnswer => {
                if says_unknown_id(payload) {
                    Ok(())
                } else {
                    Err(PassError::Broken(Rule::Port(PortRule::BadAnswer)))
                }
            }
            TapRoute::ForeignPort => Err(PassError::Broken(Rule::Port(PortRule::Foreign))),
            TapRoute::WrongPort => Err(PassError::Broken(Rule::Port(PortRule::Wrong))),
            TapRoute::NoStrayAnswer => Err(PassError::Broken(Rule::Port(PortRule::BadAnswer))),
        }
    }

    /// What is found of a datagram of the transfer, which comes from this end.
    fn pass_message(&mut self, alloc: Global, from: End, payload: &[u8]) -> Result<(), PassError>
        ensures { (s : TapSides) (earlier : List Passing) (d : Passing) → AreApart s → HasKeptWithLosses self.old s earlier
            → d.payload ≡ payload.now → d.source ≡ side_of s from → is_passing (lossy_route s d) ≡ true
            → FindsWithLosses s earlier d (HasKeptWithLosses self.new s (d ∷ earlier)) result }
    {
        let packet = match read_packet(payload) {
            Ok(packet) => packet,
            Err(fault) => return Err(PassError::Broken(Rule::Malformed(fault))),
        };
        self.pass_packet(alloc, from, &packet)
    }

    /// The same of a packet.
    fn pass_packet(
        &mut self,
        alloc: Global,
        from: End,
        packet: &Packet<'_>,
    ) -> Result<(), PassError>
        ensures { (s : TapSides) (earlier : List Passing) (d : Passing) → AreApart s → HasKeptWithLosses self.old s earlier
            → IsSaidBy s from (meaning packet.now) d → FindsWithLosses s earlier d (HasKeptWithLosses self.new s (d ∷ earlier)) result }
    {
        if self.late {
            return Ok(());
        }
        match &mut self.notes {
            Some(notes) => notes.take(alloc, from, packet),
            None => self.pass_first(alloc, from, packet),
        }
    }

    /// The same of the first packet of a transfer.
    fn pass_first(&mut self, alloc: Global, from: End, packet: &Packet<'_>) -> Result<(), PassError>
        ensures { (s : TapSides) (earlier : List Passing) (d : Passing) → AreApart s → HasKeptWithLosses self.old s earlier → self.old.notes ≡ None → self.old.late ≡ false
            → IsSaidBy s from (meaning packet.now) d → FindsWithLosses s earlier d (HasKeptWithLosses self.new s (d ∷ earlier)) result }
    {
        match (from, packet) {
            (End::Client, Packet::Request(asked)) => {
                let asked = own_request(alloc, asked)?;
                self.notes = Some(SaidNotes::begin(alloc, asked, self.sides.rollover));
            }
            _ => self.late = true,
        }
        Ok(())
    }
}
