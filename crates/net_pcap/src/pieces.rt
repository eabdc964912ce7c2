ghost use Rattle.std.specs.Prelude.{◌≡◌, ◌≢◌, ◌+◌, ◌%◌, ◌≤◌, ◌⊎◌, ◌↔◌, IsTrue, List, length, take, MatchOption, IfSome};
ghost use Rattle.net_pcap.specs.Blocks.{SpellsSection, longest_block, section_type};
ghost use Rattle.net_pcap.specs.Numbers.{number_at};
ghost use Rattle.net_pcap.specs.Pieces.{Announces, AnnouncesSection, BlockSays, BodySays, IsSize, LiesWithin, OpensAs, Said, Says, front_of, said_of};
ghost use Rattle.net_pcap.specs.Stopping.{IsSkipped};
ghost use Rattle.net_pcap.specs.declared.layout.Layout.{Layout};
ghost use Rattle.net_pcap.specs.declared.layout.Dropped.{Dropped};
ghost use Rattle.net_pcap.specs.declared.layout.Interface.{Interface};
ghost use Rattle.net_pcap.specs.declared.found.Found.{Found};
ghost use Rattle.net_pcap.specs.declared.numbers.Order.{Order};

use crate::blocks::{
    ENHANCED, INTERFACE, MOST_INTERFACES, OBSOLETE, SIMPLE, STATISTICS, dropped_of, interface_of,
    packet_of,
};
use crate::classic::{header_of, record_of};
use crate::found::Found;
use crate::layout::{Layout, NamedInterface};
use crate::numbers::Order;
use crate::place::Place;
use crate::sizes::{is_section, order_of};

/// The order of a section, by its header, all of which is there; none where it is none.
fn section_of(piece: &[u8]) -> Option<Order>
    requires whole { AnnouncesSection piece.now (length piece.now) }
    requires least { 12 ≤ length piece.now }
    requires words { length piece.now % 4 ≡ 0 }
    requires few { length piece.now ≤ longest_block }
    ensures { MatchOption result ((order : Order) → SpellsSection piece.now order → ⊥) (SpellsSection piece.now) }
{
    let size = piece.len();
    if size < 28 {
        return None;
    }
    let order = order_of(&piece[8..12])?;
    if order.number(piece, size - 4) as usize != size || order.short(piece, 12) != 1 {
        return None;
    }
    Some(order)
}

/// How a recording is laid out, by its first piece, all of which is there; none where it is none.
fn opened_by(piece: &[u8]) -> Option<Layout>
    requires whole { Announces Layout.Unopened piece.now (length piece.now) }
    requires sized { IsSize Layout.Unopened (length piece.now) }
    ensures { MatchOption result ((layout : Layout) → OpensAs piece.now layout → ⊥) (OpensAs piece.now) }
{
    if is_section(piece) {
        return match section_of(piece) {
            Some(order) => Some(Layout::Blocks(order)),
            None => None,
        };
    }
    match header_of(piece) {
        Some(classic) => Some(Layout::Classic(classic)),
        None => None,
    }
}

/// The same place, of bytes that begin 8 bytes before.
fn moved(place: Place) -> Place
    requires { (place.start ≤ place.end) × (place.end ≤ longest_block) }
    ensures { result ≡ record place { start = 8 + place.start; end = 8 + place.end } }
{
    Place {
        start: 8 + place.start,
        end: 8 + place.end,
        ..place
    }
}

/// What a block says that is no section header and all of which is there; none where it is no block.
fn block_of(order: Order, interfaces: &[NamedInterface], piece: &[u8]) -> Option<Found>
    requires whole { length piece.now ≡ number_at order piece.now 4 }
    requires least { 12 ≤ length piece.now }
    requires words { length piece.now % 4 ≡ 0 }
    requires few { length piece.now ≤ longest_block }
    requires other { take 4 piece.now ≢ section_type }
    ensures says { MatchOption result ((said : Said) → BlockSays order interfaces.now piece.now said → ⊥) (λ found. BlockSays order interfaces.now piece.now (said_of found piece.now)) }
    ensures within { IfSome result (λ found. LiesWithin found piece.now) }
{
    let size = piece.len();
    if order.number(piece, size - 4) as usize != size {
        return None;
    }
    let body = &piece[8..size - 4];
    let kind = order.number(piece, 0);
    if kind == INTERFACE {
        return named_by(order, interfaces, body);
    }
    if kind == STATISTICS {
        return counted_by(order, interfaces, body);
    }
    if !is_packet(kind) {
        return Some(Found::Skips);
    }
    match packet_of(order, interfaces, kind, body) {
        Some(place) => Some(Found::Gives(moved(place))),
        None => None,
    }
}

/// Whether a block has a frame, by its type.
fn is_packet(kind: u32) -> bool
    ensures { IsTrue result ↔ ((kind ≡ 6) ⊎ (kind ≡ 3) ⊎ (kind ≡ 2)) }
{
    kind == ENHANCED || kind == SIMPLE || kind == OBSOLETE
}

/// The order of a block that says nothing that counts, by its first bytes; none where the piece counts.
pub fn skipped_in(layout: Layout, front: &[u8]) -> Option<Order>
    requires { front_of layout ≤ length front.now }
    ensures { MatchOption result (IsSkipped layout front.now → ⊥) (λ order. (layout ≡ Layout.Blocks order) × IsSkipped layout front.now) }
{
    let Layout::Blocks(order) = layout else {
        return None;
    };
    let kind = order.number(front, 0);
    if is_section(front) || kind == INTERFACE || kind == STATISTICS || is_packet(kind) {
        return None;
    }
    Some(order)
}

/// The interface that the body of its block names, where there is room for one more; none where it is none.
fn named_by(order: Order, interfaces: &[NamedInterface], body: &[u8]) -> Option<Found>
    ensures { MatchOption result ((said : Said) → BodySays order interfaces.now 1 body.now said → ⊥) (λ found. (interface : Interface) × (found ≡ Found.Names interface) × BodySays order interfaces.now 1 body.now (Said.Names interface)) }
{
    if interfaces.len() >= MOST_INTERFACES {
        return None;
    }
    match interface_of(order, body) {
        Some(interface) => Some(Found::Names(interface)),
        None => None,
    }
}

/// What the body of a statistics block says that an interface dropped; none where it is none.
fn counted_by(order: Order, interfaces: &[NamedInterface], body: &[u8]) -> Option<Found>
    ensures { MatchOption result ((said : Said) → BodySays order interfaces.now 5 body.now said → ⊥) (λ found. (dropped : Dropped) × (found ≡ Found.Counts dropped) × BodySays order interfaces.now 5 body.now (Said.Counts dropped)) }
{
    match dropped_of(order, interfaces, body) {
        Some(dropped) => Some(Found::Counts(dropped)),
        None => None,
    }
}

/// What a piece says, all of which is there; none where it is no piece.
pub fn said_by(layout: Layout, interfaces: &[NamedInterface], piece: &[u8]) -> Option<Found>
    requires whole { Announces layout piece.now (length piece.now) }
    requires sized { IsSize layout (length piece.now) }
    ensures says { MatchOption result ((said : Said) → Says layout interfaces.now piece.now said → ⊥) (λ found. Says layout interfaces.now piece.now (said_of found piece.now)) }
    ensures within { IfSome result (λ found. LiesWithin found piece.now) }
{
    match layout {
        Layout::Unopened => match opened_by(piece) {
            Some(opened) => Some(Found::Opens(opened)),
            None => None,
        },
        Layout::Classic(classic) => Some(Found::Gives(record_of(classic, piece))),
        Layout::Blocks(order) => {
            if !is_section(piece) {
                return block_of(order, interfaces, piece);
            }
            match section_of(piece) {
                Some(next) => Some(Found::Opens(Layout::Blocks(next))),
                None => None,
            }
        }
    }
}
