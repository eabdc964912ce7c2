ghost use Rattle.std.specs.Prelude.{◌≡◌, ◌↔◌, ◌+◌, ◌≤◌, ℕ, List, [], ◌∷◌, length, true, None, IsTrue, IfOk, IfErr, OnErr, OnOk, Err};
ghost use Rattle.tftp_packet.specs.{End as Who, Message, Spells};
ghost use Rattle.law_tap.specs.{TapDatagram as Passing, TapSides, side_of, AreApart, StandsForTap, is_passing, lossy_route, tap_route, transfer_between, BreaksNoTapRule, IsHighBetween, IsTakenBetween};
ghost use Rattle.judge_tap.specs.TapFinds.{IsReadOf};
ghost use Rattle.judge_tap.specs.TapKept.{FedWithin, HasKeptAtTap, IsFewFed, IsHeard, IsKeptAtTap};
ghost use Rattle.judge_tap.specs.TapSeen.{AreNotes};
ghost use Rattle.judge_tap.specs.TapStops.{BeginsAtTap, FindsAtTap, IsNoRequest, IsRecorded, TakesMemoryAtTap, passing_as, passing_of};
ghost use Rattle.judge_tap.specs.ToldKept.{AreTold, IsTold, IsToldIfBroken};
ghost use Rattle.law_end.specs.{Rule as RuleKind};
ghost use Rattle.tftp_judge.specs.declared.pass_error.PassError.{PassError as PassErrorKind};

use crate::datagram::TapDatagram;
use crate::notes::TapNotes;
use crate::reading::{holds_bytes, read_taken};
use crate::told::Told;
use crate::transfer::{TapTransfer, receiver_of_file};
use law_end::Rule;
use law_model::rules::PortRule;
use law_tap::{Sides, TapPorts, TapRoute};
use std::alloc::Global;
use std::marker::Model;
use tftp_capture::Datagram;
use tftp_ends::blocks::Delivered;
use tftp_ends::says_unknown_id;
use tftp_judge::PassError;
use tftp_packet::hosts::{Dir, Peer};
use tftp_packet::rounds::Rollover;
use tftp_packet::{End, Packet, PacketFault, Request, opcode, own_request, read_packet};

/// What is kept of the datagrams that have passed between the ends: the ways that they went, the transfer from its first request
/// on, and what tells whether a refusal stands whatever frames are missing.
#[derive(Drop)]
pub struct TapState<D: Delivered + Drop> {
    sides: Sides,
    ports: TapPorts,
    transfer: Option<TapTransfer<D>>,
    told: Told,
    stands: Option<bool>,
}

impl<D: Delivered + Drop> Model for TapState<D> {
    ghost use Rattle.std.specs.Coded.{codes};
    ghost use Rattle.tftp_ends.specs.StatesKept.{sender_code, receiver_code};
    ghost use Rattle.tftp_packet.specs.Owned.{options_code, parts_code};
    ghost use Rattle.judge_tap.specs.TapKept.{TapState};

    ghost Value = { TapState };

    ghost coded = { Prim.hlevel (codes, sender_code, receiver_code, options_code, parts_code) };

    ghost view = { λ k. record { sides = k.sides; ports = k.ports; transfer = k.transfer; told = k.told; stands = k.stands } };
}

impl<D: Delivered + Drop> TapState<D> {
    /// Before the first datagram of a transfer with these sides. Takes no memory.
    pub fn new(alloc: Global, sides: Sides) -> Self
        ensures kept { HasKeptAtTap result sides [] }
        ensures fed { FedWithin result.transfer 0 }
    {
        TapState {
            sides,
            ports: TapPorts::new(alloc, sides),
            transfer: None,
            told: Told::nothing(sides.rollover),
            stands: None,
        }
    }

    /// What is found of a datagram after those that have passed; where it passes it is kept. Where numbers begin again after 65535, a
    /// number is taken for the block near the highest that has passed (RFC 1350, section 5).
    pub fn pass(
        &mut self,
        alloc: Global,
        rollover: Option<Rollover>,
        datagram: TapDatagram,
    ) -> Result<(), PassError>
        requires few { IsFewFed self.old.transfer }
        requires short { length datagram.payload ≤ 65527 }
        ensures finds { (s : TapSides) (earlier : List Passing) (now : List ℕ) → AreApart s → BreaksNoTapRule s earlier → HasKeptAtTap self.old s earlier
            → IsTakenBetween rollover (transfer_between s earlier) datagram.payload now
            → FindsAtTap s earlier (passing_as datagram now) (HasKeptAtTap self.new s (passing_as datagram now ∷ earlier)) result }
        ensures memory { (s : TapSides) (earlier : List Passing) (now : List ℕ) → AreApart s → BreaksNoTapRule s earlier → HasKeptAtTap self.old s earlier
            → IsTakenBetween rollover (transfer_between s earlier) datagram.payload now
            → result ≡ Err PassErrorKind.Memory → TakesMemoryAtTap s earlier (passing_as datagram now) }
        ensures fed { (n : ℕ) → FedWithin self.old.transfer n → OnOk result (FedWithin self.new.transfer (n + 1)) }
        ensures stands { (s : TapSides) (earlier : List Passing) (now : List ℕ) → AreApart s → BreaksNoTapRule s earlier → HasKeptAtTap self.old s earlier
            → IsTakenBetween rollover (transfer_between s earlier) datagram.payload now
            → IsToldIfBroken s earlier (passing_as datagram now) result self.new.stands }
    {
        let source = datagram.source;
        let destination = datagram.destination;
        let number = opcode(datagram.payload.as_slice());
        let route = self.ports.route(source, destination, number);
        self.pass_by(alloc, rollover, route, datagram)?;
        self.ports.note(source, destination)?;
        Ok(())
    }

    /// The same of a datagram with this route; from where to where it went is not kept.
    fn pass_by(
        &mut self,
        alloc: Global,
        rollover: Option<Rollover>,
        route: TapRoute,
        datagram: TapDatagram,
    ) -> Result<(), PassError>
        requires few { IsFewFed self.old.transfer }
        requires short { length datagram.payload ≤ 65527 }
        ensures finds { (s : TapSides) (earlier : List Passing) (now : List ℕ) → AreApart s → BreaksNoTapRule s earlier
            → IsKeptAtTap s (transfer_between s earlier) self.old.transfer → self.old.ports.sides.rollover ≡ s.rollover
            → IsTakenBetween rollover (transfer_between s earlier) datagram.payload now → route ≡ tap_route s earlier (passing_as datagram now)
            → FindsAtTap s earlier (passing_as datagram now) (IsKeptAtTap s (transfer_between s (passing_as datagram now ∷ earlier)) self.new.transfer) result }
        ensures memory { (s : TapSides) (earlier : List Passing) (now : List ℕ) → AreApart s → BreaksNoTapRule s earlier
            → IsKeptAtTap s (transfer_between s earlier) self.old.transfer
            → IsTakenBetween rollover (transfer_between s earlier) datagram.payload now → route ≡ tap_route s earlier (passing_as datagram now)
            → result ≡ Err PassErrorKind.Memory → TakesMemoryAtTap s earlier (passing_as datagram now) }
        ensures ports { self.new.ports ≡ self.old.ports }
        ensures sides { self.new.sides ≡ self.old.sides }
        ensures fed { (n : ℕ) → FedWithin self.old.transfer n → OnOk result (FedWithin self.new.transfer (n + 1)) }
        ensures told { (s : TapSides) (earlier : List Passing) (now : List ℕ) → AreApart s → BreaksNoTapRule s (passing_as datagram now ∷ earlier)
            → self.old.sides ≡ s → IsKeptAtTap s (transfer_between s earlier) self.old.transfer → self.old.ports.sides.rollover ≡ s.rollover
            → IsTakenBetween rollover (transfer_between s earlier) datagram.payload now → route ≡ tap_route s earlier (passing_as datagram now)
            → AreTold self.old.told s earlier → OnOk result (AreTold self.new.told s (passing_as datagram now ∷ earlier)) }
        ensures stands { (s : TapSides) (earlier : List Passing) (now : List ℕ) → AreApart s → BreaksNoTapRule s earlier → self.old.sides ≡ s
            → IsKeptAtTap s (transfer_between s earlier) self.old.transfer
            → IsTakenBetween rollover (transfer_between s earlier) datagram.payload now → route ≡ tap_route s earlier (passing_as datagram now)
            → AreTold self.old.told s earlier → IsToldIfBroken s earlier (passing_as datagram now) result self.new.stands }
    {
        match route {
            TapRoute::Request | TapRoute::FromClient => {
                self.pass_message(alloc, rollover, End::Client, datagram)
            }
            TapRoute::FromServer => self.pass_message(alloc, rollover, End::Server, datagram),
            TapRoute::Stray => Ok(()),
            TapRoute::StrayAnswer => {
                if says_unknown_id(datagram.payload.as_slice()) {
                    Ok(())
                } else {
                    self.refuse(alloc, rollover, PortRule::BadAnswer, &datagram)
                }
            }
            TapRoute::ForeignPort => self.refuse(alloc, rollover, PortRule::Foreign, &datagram),
            TapRoute::WrongPort => self.refuse(alloc, rollover, PortRule::Wrong, &datagram),
            TapRoute::NoStrayAnswer => self.refuse(alloc, rollover, PortRule::BadAnswer, &datagram),
        }
    }

    /// Refuses a datagram by a rule of ports, and tells whether that stands whatever is missing.
    fn refuse(
        &mut self,
        alloc: Global,
        rollover: Option<Rollover>,
        port: PortRule,
        datagram: &TapDatagram,
    ) -> Result<(), PassError>
        ensures refuses { result ≡ Err (PassErrorKind.Broken (RuleKind.Port port)) }
        ensures stands { (s : TapSides) (earlier : List Passing) (now : List ℕ) → AreApart s → BreaksNoTapRule s earlier → self.old.sides ≡ s
            → IsKeptAtTap s (transfer_between s earlier) self.old.transfer → AreTold self.old.told s earlier
            → IsTakenBetween rollover (transfer_between s earlier) datagram.now.payload now
            → IsTold s earlier (passing_as datagram.now now) self.new.stands }
        ensures ports { self.new.ports ≡ self.old.ports }
        ensures sides { self.new.sides ≡ self.old.sides }
    {
        self.stands = self.standing(alloc, rollover, datagram);
        Err(PassError::Broken(Rule::Port(port)))
    }

    /// Whether a datagram is certain to break the law whatever is missing, but that it may change a block. There is no answer where
    /// memory was wanting for an OACK.
    fn standing(
        &self,
        alloc: Global,
        rollover: Option<Rollover>,
        datagram: &TapDatagram,
    ) -> Option<bool>
        ensures { (s : TapSides) (earlier : List Passing) (now : List ℕ) → AreApart s → BreaksNoTapRule s earlier → self.now.sides ≡ s
            → IsKeptAtTap s (transfer_between s earlier) self.now.transfer → AreTold self.now.told s earlier
            → IsTakenBetween rollover (transfer_between s earlier) datagram.now.payload now
            → IsTold s earlier (passing_as datagram.now now) result }
    {
        let payload = datagram.payload.as_slice();
        let read = read_taken(rollover, self.highest(), payload);
        let route = self
            .sides
            .route_with_losses(datagram.source, datagram.destination, opcode(payload));
        match route {
            TapRoute::Request | TapRoute::FromClient => {
                self.standing_said(alloc, End::Client, &read)
            }
            TapRoute::FromServer => self.standing_said(alloc, End::Server, &read),
            TapRoute::Stray => Some(false),
            TapRoute::StrayAnswer => Some(!says_unknown_id(payload)),
            TapRoute::ForeignPort => Some(true),
            TapRoute::WrongPort => Some(true),
            TapRoute::NoStrayAnswer => Some(true),
        }
    }

    /// The highest block of a DATA that has passed of the transfer, or 0.
    fn highest(&self) -> u32
        ensures { (s : TapSides) (passed : List Passing) → IsKeptAtTap s passed self.now.transfer → IsHighBetween passed result }
    {
        match &self.transfer {
            Some(transfer) => transfer.highest(),
            None => 0,
        }
    }

    /// The same of what an end says to the other one.
    fn standing_said(
        &self,
        alloc: Global,
        from: End,
        read: &Result<Packet<'_>, PacketFault>,
    ) -> Option<bool>
        ensures { (s : TapSides) (earlier : List Passing) (d : Passing) → AreApart s → BreaksNoTapRule s earlier
            → IsHeard s (transfer_between s earlier) self.now.transfer → AreTold self.now.told s earlier
            → IsReadOf d.payload read.now → d.source ≡ side_of s from → is_passing (lossy_route s d) ≡ true → IsTold s earlier d result }
    {
        match &self.transfer {
            Some(transfer) => {
                self.told
                    .standing(alloc, transfer.asked(), transfer.notes(), from, read)
            }
            None => match read {
                Ok(_) => Some(false),
                Err(_) => Some(true),
            },
        }
    }

    /// What is found of a datagram of the transfer, which comes from this end.
    fn pass_message(
        &mut self,
        alloc: Global,
        rollover: Option<Rollover>,
        from: End,
        datagram: TapDatagram,
    ) -> Result<(), PassError>
        requires few { IsFewFed self.old.transfer }
        requires short { length datagram.payload ≤ 65527 }
        ensures finds { (s : TapSides) (earlier : List Passing) (now : List ℕ) → AreApart s → BreaksNoTapRule s earlier
            → IsKeptAtTap s (transfer_between s earlier) self.old.transfer → self.old.ports.sides.rollover ≡ s.rollover
            → IsTakenBetween rollover (transfer_between s earlier) datagram.payload now
            → datagram.source ≡ side_of s from → is_passing (tap_route s earlier (passing_as datagram now)) ≡ true
            → FindsAtTap s earlier (passing_as datagram now) (IsKeptAtTap s (passing_as datagram now ∷ transfer_between s earlier) self.new.transfer) result }
        ensures memory { (s : TapSides) (earlier : List Passing) (now : List ℕ) → AreApart s → BreaksNoTapRule s earlier
            → IsKeptAtTap s (transfer_between s earlier) self.old.transfer → IsTakenBetween rollover (transfer_between s earlier) datagram.payload now
            → datagram.source ≡ side_of s from → result ≡ Err PassErrorKind.Memory → TakesMemoryAtTap s earlier (passing_as datagram now) }
        ensures ports { self.new.ports ≡ self.old.ports }
        ensures sides { self.new.sides ≡ self.old.sides }
        ensures fed { (n : ℕ) → FedWithin self.old.transfer n → OnOk result (FedWithin self.new.transfer (n + 1)) }
        ensures told { (s : TapSides) (earlier : List Passing) (now : List ℕ) → AreApart s → BreaksNoTapRule s (passing_as datagram now ∷ earlier)
            → IsKeptAtTap s (transfer_between s earlier) self.old.transfer → self.old.ports.sides.rollover ≡ s.rollover
            → IsTakenBetween rollover (transfer_between s earlier) datagram.payload now
            → datagram.source ≡ side_of s from → is_passing (tap_route s earlier (passing_as datagram now)) ≡ true → AreTold self.old.told s earlier
            → OnOk result (AreTold self.new.told s (passing_as datagram now ∷ earlier)) }
        ensures stands { (s : TapSides) (earlier : List Passing) (now : List ℕ) → AreApart s → BreaksNoTapRule s earlier
            → IsKeptAtTap s (transfer_between s earlier) self.old.transfer → IsTakenBetween rollover (transfer_between s earlier) datagram.payload now
            → datagram.source ≡ side_of s from
            → is_passing (tap_route s earlier (passing_as datagram now)) ≡ true → AreTold self.old.told s earlier
            → IsToldIfBroken s earlier (passing_as datagram now) result self.new.stands }
    {
        let highest = self.highest();
        match &mut self.transfer {
            Some(transfer) => {
                let recorded = recorded(transfer.receiver(), from, datagram);
                let read = read_taken(rollover, highest, recorded.payload.as_slice());
                let found = transfer.pass(alloc, rollover, from, &recorded, &read);
                self.tell(alloc, from, &read, &found);
                found
            }
            None => {
                holds_bytes(datagram.payload.as_slice());
                self.pass_first(alloc, from, datagram)
            }
        }
    }

    /// The same where nothing of the transfer has passed, and so no block.
    fn pass_first(
        &mut self,
        alloc: Global,
        from: End,
        datagram: TapDatagram,
    ) -> Result<(), PassError>
        requires few { IsFewFed self.old.transfer }
        requires short { length datagram.payload ≤ 65527 }
        requires none { self.old.transfer ≡ None }
        ensures finds { (s : TapSides) (earlier : List Passing) → AreApart s → BreaksNoTapRule s earlier
            → IsKeptAtTap s (transfer_between s earlier) self.old.transfer → self.old.ports.sides.rollover ≡ s.rollover
            → datagram.source ≡ side_of s from → is_passing (tap_route s earlier (passing_of datagram)) ≡ true
            → FindsAtTap s earlier (passing_of datagram) (IsKeptAtTap s (passing_of datagram ∷ transfer_between s earlier) self.new.transfer) result }
        ensures memory { (s : TapSides) (earlier : List Passing) → AreApart s → IsKeptAtTap s (transfer_between s earlier) self.old.transfer
            → datagram.source ≡ side_of s from → result ≡ Err PassErrorKind.Memory → TakesMemoryAtTap s earlier (passing_of datagram) }
        ensures ports { self.new.ports ≡ self.old.ports }
        ensures sides { self.new.sides ≡ self.old.sides }
        ensures fed { (n : ℕ) → FedWithin self.old.transfer n → OnOk result (FedWithin self.new.transfer (n + 1)) }
        ensures told { (s : TapSides) (earlier : List Passing) → AreApart s → BreaksNoTapRule s (passing_of datagram ∷ earlier)
            → IsKeptAtTap s (transfer_between s earlier) self.old.transfer → self.old.ports.sides.rollover ≡ s.rollover
            → datagram.source ≡ side_of s from → is_passing (tap_route s earlier (passing_of datagram)) ≡ true → AreTold self.old.told s earlier
            → OnOk result (AreTold self.new.told s (passing_of datagram ∷ earlier)) }
        ensures stands { (s : TapSides) (earlier : List Passing) → AreApart s → BreaksNoTapRule s earlier
            → IsKeptAtTap s (transfer_between s earlier) self.old.transfer → datagram.source ≡ side_of s from
            → is_passing (tap_route s earlier (passing_of datagram)) ≡ true → AreTold self.old.told s earlier
            → IsToldIfBroken s earlier (passing_of datagram) result self.new.stands }
    {
        let read = read_packet(datagram.payload.as_slice());
        self.stands = self.standing_said(alloc, from, &read);
        let rollover = self.ports.rollover();
        self.transfer = Some(begun(alloc, from, rollover, datagram)?);
        Ok(())
    }

    /// Notes what an end has said, where it passed; where it broke a rule, tells whether that stands whatever is missing.
    fn tell(
        &mut self,
        alloc: Global,
        from: End,
        read: &Result<Packet<'_>, PacketFault>,
        found: &Result<(), PassError>,
    )
        ensures told { (s : TapSides) (earlier : List Passing) (d : Passing) → AreApart s → BreaksNoTapRule s (d ∷ earlier)
            → IsHeard s (transfer_between s (d ∷ earlier)) self.old.transfer → IsReadOf d.payload read.now → d.source ≡ side_of s from
            → is_passing (tap_route s earlier d) ≡ true → AreTold self.old.told s earlier → OnOk found.now (AreTold self.new.told s (d ∷ earlier)) }
        ensures stands { (s : TapSides) (earlier : List Passing) (d : Passing) → AreApart s → BreaksNoTapRule s earlier
            → OnErr found.now (IsHeard s (transfer_between s earlier) self.old.transfer) → IsReadOf d.payload read.now → d.source ≡ side_of s from
            → is_passing (lossy_route s d) ≡ true → AreTold self.old.told s earlier → IsToldIfBroken s earlier d found.now self.new.stands }
        ensures transfer { self.new.transfer ≡ self.old.transfer }
        ensures ports { self.new.ports ≡ self.old.ports }
        ensures sides { self.new.sides ≡ self.old.sides }
    {
        match found {
            Ok(_) => self.hear(alloc, read),
            Err(_) => self.stands = self.standing_said(alloc, from, read),
        }
    }

    /// Notes what an end has said that passed.
    fn hear(&mut self, alloc: Global, read: &Result<Packet<'_>, PacketFault>)
        ensures told { (s : TapSides) (earlier : List Passing) (d : Passing) (e : Who) → AreApart s → BreaksNoTapRule s (d ∷ earlier)
            → IsHeard s (transfer_between s (d ∷ earlier)) self.old.transfer → IsReadOf d.payload read.now → d.source ≡ side_of s e
            → is_passing (tap_route s earlier d) ≡ true → AreTold self.old.told s earlier → AreTold self.new.told s (d ∷ earlier) }
        ensures transfer { self.new.transfer ≡ self.old.transfer }
        ensures ports { self.new.ports ≡ self.old.ports }
        ensures sides { self.new.sides ≡ self.old.sides }
    {
        let packet = match read {
            Ok(packet) => packet,
            Err(_) => return,
        };
        match &self.transfer {
            Some(transfer) => self.told.note(alloc, transfer.asked(), packet),
            None => {}
        }
    }

    /// Whether the last refusal by a rule stands whatever frames are missing.
    #[inline]
    pub fn stands(&self) -> Option<bool>
        ensures { result ≡ self.now.stands }
    {
        self.stands
    }

    /// The transfer, if its first request has passed.
    pub fn into_transfer(self) -> Option<TapTransfer<D>>
        ensures { result ≡ self.transfer }
    {
        self.transfer
    }
}

/// The transfer that a datagram begins, which comes from this end where nothing of the transfer has passed (RFC 1350, section 4).
fn begun<D: Delivered + Drop>(
    alloc: Global,
    from: End,
    rollover: Option<Rollover>,
    datagram: TapDatagram,
) -> Result<TapTransfer<D>, PassError>
    requires short { length datagram.payload ≤ 65527 }
    ensures finds { (s : TapSides) (earlier : List Passing) → AreApart s → BreaksNoTapRule s earlier → transfer_between s earlier ≡ []
        → rollover ≡ s.rollover
        → datagram.source ≡ side_of s from → is_passing (tap_route s earlier (passing_of datagram)) ≡ true
        → BeginsAtTap s earlier (passing_of datagram) result }
    ensures fed { IfOk result (λ transfer. transfer.receiving.judge.fed ≡ 1) }
{
    if from == End::Server {
        return Err(PassError::Broken(Rule::NoRequest));
    }
    let service = port_of(datagram.destination);
    let (asked, notes) = first_request(alloc, datagram.payload.as_slice())?;
    let recorded = recorded(receiver_of_file(asked.side()), from, datagram);
    TapTransfer::begin(alloc, asked, notes, service, rollover, &recorded)
}

/// What a payload of the client asks for, as the first of a transfer, and what is noted of it (RFC 1350, section 5).
fn first_request(alloc: Global, payload: &[u8]) -> Result<(Request, TapNotes), PassError>
    ensures found { IfOk result (λ first. Spells payload.now (Message.Request first.0)
        × ((s : TapSides) (d : Passing) → AreApart s → d.source ≡ s.client → d.payload ≡ payload.now → AreNotes first.1 s (d ∷ []))) }
    ensures breaks { IfErr result (λ stop. IsNoRequest payload.now stop) }
{
    let packet = match read_packet(payload) {
        Ok(packet) => packet,
        Err(fault) => return Err(PassError::Broken(Rule::Malformed(fault))),
    };
    let Packet::Request(asked) = &packet else {
        return Err(PassError::Broken(Rule::NoRequest));
    };
    let asked = own_request(alloc, asked)?;
    let mut notes = TapNotes::new(alloc);
    notes.note(alloc, End::Client, &packet)?;
    Ok((asked, notes))
}

fn port_of(peer: Peer) -> u16
    ensures { result ≡ peer.port }
{
    peer.port
}

/// A datagram from this end, as the end that gets the file would have recorded it.
fn recorded(receiver: End, from: End, datagram: TapDatagram) -> Datagram
    ensures recorded { (s : TapSides) → AreApart s → datagram.source ≡ side_of s from → IsRecorded s receiver (passing_of datagram) result }
    ensures payload { result.payload ≡ datagram.payload }
{
    let TapDatagram {
        source,
        destination,
        payload,
    } = datagram;
    if from == receiver {
        Datagram {
            dir: Dir::Out,
            local_port: source.port,
            remote_host: destination.host,
            remote_port: destination.port,
            payload,
        }
    } else {
        Datagram {
            dir: Dir::In,
            local_port: destination.port,
            remote_host: source.host,
            remote_port: source.port,
            payload,
        }
    }
}
