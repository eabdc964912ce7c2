//! Which transfers may be those of two captures: they have the same request.

ghost use Rattle.std.specs.Prelude.{◌≡◌, ◌++◌, ◌∷◌, [], ◌↔◌, ℕ, List, IsTrue, IfOk, IfSome, None, OnOk, option_map};
ghost use Rattle.tftp_packet.specs.{Request as RequestMessage, Spells, parts};
ghost use Rattle.tftp_match.specs.Candidates.{AreMeant, ArePairs, AreThose, HasSome, HaveOne, IsMeant, IsOneEach, IsRequestIn, numbers_in, with_each};

use audit_recording::session::Asked;
use std::alloc::{AllocError, Global};
use tftp_packet::{Packet, Request, RequestView, own_request, read_packet, same_request};

/// The transfers that may be meant, by their numbers.
#[derive(Drop)]
pub struct Candidates {
    /// Those in the client's recording.
    pub clients: Vec<u64>,
    /// Those in the server's.
    pub servers: Vec<u64>,
}

impl Candidates {
    /// Those of each side that have the same request as some of the other side; where each side has one alone, these.
    pub fn of(
        alloc: Global,
        clients: &[Asked<'_>],
        servers: &[Asked<'_>],
    ) -> Result<Self, AllocError>
        ensures clients { IfOk result (λ found. AreMeant clients.now servers.now found.clients.items) }
        ensures servers { IfOk result (λ found. AreMeant servers.now clients.now found.servers.items) }
    {
        Ok(Candidates {
            clients: matching(alloc, clients, servers)?,
            servers: matching(alloc, servers, clients)?,
        })
    }

    /// The sole one of each side, where each has one alone.
    pub fn sole_pair(&self) -> Option<(u64, u64)>
        ensures some { IfSome result (λ pair. (self.now.clients.items ≡ pair.0 ∷ []) × (self.now.servers.items ≡ pair.1 ∷ [])) }
        ensures none { result ≡ None → IsOneEach self.now.clients.items self.now.servers.items → ⊥ }
    {
        match (self.clients.as_slice(), self.servers.as_slice()) {
            ([one], [other]) => Some((*one, *other)),
            _ => None,
        }
    }
}

/// The numbers of those that go with some of the others.
fn matching(alloc: Global, own: &[Asked<'_>], others: &[Asked<'_>]) -> Result<Vec<u64>, AllocError>
    ensures { IfOk result (λ numbers. AreMeant own.now others.now numbers.items) }
{
    let mut numbers = Vec::new(alloc);
    for asked in own {
        if is_meant(alloc, asked.payload, own, others)? {
            numbers.push(asked.number)?;
        }
    }
    Ok(numbers)
}

/// Whether the transfer with this payload goes with some of the others, or each side has one alone.
fn is_meant(
    alloc: Global,
    payload: &[u8],
    own: &[Asked<'_>],
    others: &[Asked<'_>],
) -> Result<bool, AllocError>
    ensures { IfOk result (λ is. IsTrue is ↔ IsMeant own.now others.now payload.now) }
{
    if own.len() == 1 && others.len() == 1 {
        return Ok(true);
    }
    is_among(alloc, payload, others)
}

/// The numbers of a transfer of the one side and of one of the other that has the same request, in their order.
pub fn pairs_of(
    alloc: Global,
    clients: &[Asked<'_>],
    servers: &[Asked<'_>],
) -> Result<Vec<(u64, u64)>, AllocError>
    ensures { IfOk result (λ pairs. ArePairs clients.now servers.now pairs.items) }
{
    let mut pairs = Vec::new(alloc);
    for client in clients {
        add_pairs(alloc, &mut pairs, *client, servers)?;
    }
    Ok(pairs)
}

/// Adds the pairs of a transfer.
fn add_pairs(
    alloc: Global,
    pairs: &mut Vec<(u64, u64)>,
    client: Asked<'_>,
    servers: &[Asked<'_>],
) -> Result<(), AllocError>
    ensures { OnOk result ((added : List (ℕ × ℕ)) × (pairs.new.items ≡ pairs.old.items ++ added) × AreThose HaveOne numbers_in (with_each servers.now client.entry) added) }
{
    let Some(request) = request_in(alloc, client.payload)? else {
        return Ok(());
    };
    for server in servers {
        if asks(server.payload, &request) {
            pairs.push((client.number, server.number))?;
        }
    }
    Ok(())
}

/// Whether what a payload asks is asked by one of these.
fn is_among(alloc: Global, payload: &[u8], others: &[Asked<'_>]) -> Result<bool, AllocError>
    ensures { IfOk result (λ is. IsTrue is ↔ HasSome others.now payload.now) }
{
    let Some(request) = request_in(alloc, payload)? else {
        return Ok(false);
    };
    for other in others {
        if asks(other.payload, &request) {
            return Ok(true);
        }
    }
    Ok(false)
}

/// The request that a payload spells, if it spells one.
fn request_in(alloc: Global, payload: &[u8]) -> Result<Option<Request>, AllocError>
    ensures { IfOk result (IsRequestIn payload.now) }
{
    match view_in(payload) {
        Some(view) => Ok(Some(own_request(alloc, &view)?)),
        None => Ok(None),
    }
}

/// Whether a payload asks that.
fn asks(payload: &[u8], request: &Request) -> bool
    ensures { IsTrue result ↔ Spells payload.now (RequestMessage request.now) }
{
    match view_in(payload) {
        Some(view) => same_request(request, &view),
        None => false,
    }
}

/// The request that a payload spells, where it lies.
fn view_in(payload: &[u8]) -> Option<RequestView<'_>>
    ensures { IsRequestIn payload.now (option_map parts result) }
{
    match read_packet(payload) {
        Ok(Packet::Request(view)) => Some(view),
        Ok(Packet::Data { .. } | Packet::Ack { .. }) => None,
        Ok(Packet::Error { .. } | Packet::Oack(_)) => None,
        Err(_) => None,
    }
}
