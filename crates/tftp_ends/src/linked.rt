//! Peers in rows, each found by a hash of it. The hash has fixed keys, so whoever writes a capture can choose peers of one row:
//! before a peer is added it is asked whether its row has room.

ghost use Rattle.std.specs.Prelude.{◌≡◌, ◌-◌, ◌^◌, ◌+◌, ◌<◌, ◌≤◌, ◌%◌, false, length, slice_index, IfOk, OnOk, OnErr, [], ◌∷◌, ◌++◌};
ghost use Rattle.tftp_ends.specs.Known.{is_noted};
ghost use Rattle.tftp_ends.specs.Rows.{AreLinked, IsLinked, mark_of, peers_of, rows_of};

use std::alloc::{AllocError, Global};
use std::hash::{DefaultHasher, Hasher};
use tftp_packet::hosts::Peer;

/// How many rows there are at the least.
const FIRST_ROWS: usize = 16;

/// How many peers a row has room for. Of peers that nobody chose a few in a million find their row full.
const LONGEST: u8 = 8;

/// More peers are never linked, so that each has a number of 32 bits.
const MOST: usize = 0xffff_fffe;

/// A peer, and how many peers there were up to the latest one before it in its row, or 0.
#[derive(Clone, Copy)]
pub(crate) struct Linked {
    peer: Peer,
    before: u32,
}

/// A hash of a peer.
pub(crate) fn mark(peer: &Peer) -> u64
    ensures { result ≡ mark_of peer.now }
{
    let mut hasher = DefaultHasher::new();
    hasher.write(peer.host.bytes());
    hasher.write_u16(peer.port);
    hasher.finish()
}

/// The row of a hash, among so many.
fn row_of(mark: u64, count: usize) -> usize
    requires { 0 < count }
    ensures value { result ≡ mark % count }
    ensures within { result < count }
{
    (mark % count as u64) as usize
}

/// Whether a peer is linked.
pub(crate) fn is_linked(latest: &[u32], links: &[Linked], peer: &Peer, mark: u64) -> bool
    requires linked { IsLinked latest.now links.now }
    requires mark { mark ≡ mark_of peer.now }
    ensures { result ≡ is_noted peer.now (peers_of links.now) }
{
    if latest.is_empty() {
        return false;
    }
    let mut at = latest[row_of(mark, latest.len())] as usize;
    while at > 0 {
        let link = &links[at - 1];
        if *peer == link.peer {
            return true;
        }
        at = link.before as usize;
    }
    false
}

/// Whether the row of a peer with this hash has no room for one more, or all rows have none.
pub(crate) fn is_full(latest: &[u32], links: &[Linked], mark: u64) -> bool
    ensures { result ≡ false → length links.now < 2 ^ 32 - 2 }
{
    if links.len() >= MOST {
        return true;
    }
    if latest.is_empty() {
        return false;
    }
    let mut at = latest[row_of(mark, latest.len())];
    for _ in 0..LONGEST {
        let Some(link) = links.get((at as usize).wrapping_sub(1)) else {
            return false;
        };
        at = link.before;
    }
    true
}

/// Links a peer behind all others. An error changes nothing that is noted.
pub(crate) fn add(
    alloc: Global,
    latest: &mut Vec<u32>,
    links: &mut Vec<Linked>,
    peer: Peer,
    mark: u64,
) -> Result<(), AllocError>
    requires linked { IsLinked latest.old.items links.old.items }
    requires few { length links.old.items < 2 ^ 32 - 2 }
    requires mark { mark ≡ mark_of peer }
    ensures linked { IsLinked latest.new.items links.new.items }
    ensures ok { OnOk result (peers_of links.new.items ≡ peers_of links.old.items ++ peer ∷ []) }
    ensures err { OnErr result (peers_of links.new.items ≡ peers_of links.old.items) }
{
    make_room(alloc, latest, links)?;
    let index = links.len();
    links.push(Linked { peer, before: 0 })?;
    let row = row_of(mark, latest.len());
    link(latest, links, index, row);
    Ok(())
}

/// Sees that there are more rows than peers.
fn make_room(alloc: Global, latest: &mut Vec<u32>, links: &mut [Linked]) -> Result<(), AllocError>
    requires linked { IsLinked latest.old.items links.old }
    requires few { length links.old < 2 ^ 32 }
    ensures linked { IsLinked latest.new.items links.new }
    ensures room { OnOk result (length links.new < length latest.new.items) }
    ensures peers { peers_of links.new ≡ peers_of links.old }
{
    if links.len() == latest.len() {
        *latest = link_all(alloc, links)?;
    }
    Ok(())
}

/// Links one peer more, behind those that are linked.
fn link(latest: &mut [u32], links: &mut [Linked], index: usize, row: usize)
    requires linked { AreLinked latest.old links.old index }
    requires row { row ≡ slice_index (rows_of (length latest.old) links.old) index }
    requires rows { row < length latest.old }
    requires within { index < length links.old }
    requires few { length links.old < 2 ^ 32 }
    ensures linked { AreLinked latest.new links.new (index + 1) }
    ensures peers { peers_of links.new ≡ peers_of links.old }
{
    links[index].before = latest[row];
    latest[row] = index as u32 + 1;
}

/// Links the peers in twice as many rows as there are peers.
fn link_all(alloc: Global, links: &mut [Linked]) -> Result<Vec<u32>, AllocError>
    requires few { length links.old < 2 ^ 32 }
    ensures linked { IfOk result (λ latest. IsLinked latest.items links.new) }
    ensures room { IfOk result (λ latest. length links.new < length latest.items) }
    ensures peers { peers_of links.new ≡ peers_of links.old }
    ensures err { OnErr result (links.new ≡ links.old) }
{
    let rows = (2 * links.len()).max(FIRST_ROWS);
    let mut latest = vec![in alloc; 0u32; rows]?;
    for index in 0..links.len() {
        let row = row_of(mark(&links[index].peer), rows);
        link(&mut latest, links, index, row);
    }
    Ok(latest)
}
