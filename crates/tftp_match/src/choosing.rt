//! Which transfers of two captures are judged together.

ghost use Rattle.std.specs.Prelude.{◌≡◌, ◌≤◌, ◌++◌, ◌∷◌, [], IfErr, IfOk, OnOk, length};
ghost use Rattle.tftp_match.specs.Candidates.{ArePairs};
ghost use Rattle.tftp_match.specs.Choice.{AreTried, IsChoice, IsJudged, IsOfPairs, IsTried, most_pairs};
ghost use Rattle.tftp_match.specs.Faults.{IsOfMemory, IsUnchosen, IsUnjudged};
ghost use Rattle.tftp_match.specs.Given.{texts_of};

use crate::candidates::{Candidates, pairs_of};
use crate::choice::{Choice, Judged, Tried, Untaken, chosen};
use crate::texts::{LackFault, Texts, said_of};
use audit_recording::session::Asked;
use std::alloc::{AllocError, Global};
use tftp_packet::End;
use tftp_packet::rounds::Rollover;
use thiserror::Error;

/// So many pairs of transfers with the same request are tried at most.
pub const MOST_PAIRS: usize = 64;

/// A capture at an end, of whose transfers one is to be judged.
#[derive(Drop)]
pub struct Side<'a, T> {
    /// Its file; `-` is standard input.
    pub file: &'a str,
    /// The option that names one of its transfers; none of a capture text, which has one alone.
    pub option: Option<&'static str>,
    /// What its transfers were asked for.
    pub asked: &'a [Asked<'a>],
    /// The texts of its transfers.
    pub texts: &'a T,
}

/// Why nothing is chosen.
#[derive(Debug, Drop, Error)]
pub enum ChoiceFault {
    /// The recording at this end gives no text of a transfer.
    #[error("{1}")]
    Text(End, LackFault),
    /// Memory was refused.
    #[error(transparent)]
    Alloc(AllocError),
    /// Memory ran out while a pair was judged.
    #[error("out of memory")]
    Memory,
}

/// The pair of transfers that is judged of two captures, in which these are meant, by what comes after block 65535; or why none is.
pub fn choose<C: Texts, S: Texts>(
    alloc: Global,
    rollover: Option<Rollover>,
    client: &Side<'_, C>,
    server: &Side<'_, S>,
    meant: &Candidates,
) -> Result<Choice, ChoiceFault>
    ensures choice { IfOk result (IsChoice (texts_of rollover (C.is_text client.now.texts.now) (S.is_text server.now.texts.now)) client.now.asked.now server.now.asked.now meant.now.clients.items meant.now.servers.items) }
    ensures fault { IfErr result (IsUnchosen (C.is_lack client.now.texts.now) (S.is_lack server.now.texts.now)) }
{
    match meant.sole_pair() {
        Some(pair) => Ok(Choice::Taken(judge(alloc, rollover, client, server, pair)?)),
        None => choose_of_pairs(alloc, rollover, client, server),
    }
}

/// The pair with one request that alone goes together; or why there is none.
fn choose_of_pairs<C: Texts, S: Texts>(
    alloc: Global,
    rollover: Option<Rollover>,
    client: &Side<'_, C>,
    server: &Side<'_, S>,
) -> Result<Choice, ChoiceFault>
    ensures choice { IfOk result (IsOfPairs (texts_of rollover (C.is_text client.now.texts.now) (S.is_text server.now.texts.now)) client.now.asked.now server.now.asked.now) }
    ensures fault { IfErr result (IsUnchosen (C.is_lack client.now.texts.now) (S.is_lack server.now.texts.now)) }
{
    let pairs = paired(alloc, client.asked, server.asked)?;
    if pairs.len() > MOST_PAIRS {
        return Ok(Choice::Nothing(Untaken::TooMany(pairs.len())));
    }
    let tried = try_pairs(alloc, rollover, client, server, pairs.as_slice())?;
    match chosen(tried.as_slice()) {
        Some(pair) => {
            let numbers = (pair.client, pair.server);
            Ok(Choice::Taken(judge(alloc, rollover, client, server, numbers)?))
        }
        None => Ok(Choice::Nothing(Untaken::NotAlone(tried))),
    }
}

/// The pairs with one request.
fn paired(
    alloc: Global,
    clients: &[Asked<'_>],
    servers: &[Asked<'_>],
) -> Result<Vec<(u64, u64)>, ChoiceFault>
    ensures pairs { IfOk result (λ pairs. ArePairs clients.now servers.now pairs.items) }
    ensures fault { IfErr result IsOfMemory }
{
    match pairs_of(alloc, clients, servers) {
        Ok(pairs) => Ok(pairs),
        Err(fault) => Err(ChoiceFault::Alloc(fault)),
    }
}

/// Each of these pairs, judged.
fn try_pairs<C: Texts, S: Texts>(
    alloc: Global,
    rollover: Option<Rollover>,
    client: &Side<'_, C>,
    server: &Side<'_, S>,
    pairs: &[(u64, u64)],
) -> Result<Vec<Tried>, ChoiceFault>
    requires few { length pairs.now ≤ most_pairs }
    ensures tried { IfOk result (λ tried. AreTried (texts_of rollover (C.is_text client.now.texts.now) (S.is_text server.now.texts.now)) pairs.now tried.items) }
    ensures fault { IfErr result (IsUnchosen (C.is_lack client.now.texts.now) (S.is_lack server.now.texts.now)) }
{
    let mut tried = Vec::new(alloc);
    for pair in pairs {
        let one = try_pair(alloc, rollover, client, server, *pair)?;
        add(&mut tried, one)?;
    }
    Ok(tried)
}

/// Adds one.
fn add(tried: &mut Vec<Tried>, one: Tried) -> Result<(), ChoiceFault>
    ensures added { OnOk result (tried.new.items ≡ tried.old.items ++ one ∷ []) }
    ensures fault { IfErr result IsOfMemory }
{
    match tried.push(one) {
        Ok(()) => Ok(()),
        Err(_) => Err(ChoiceFault::Alloc(AllocError)),
    }
}

/// This pair, judged.
fn try_pair<C: Texts, S: Texts>(
    alloc: Global,
    rollover: Option<Rollover>,
    client: &Side<'_, C>,
    server: &Side<'_, S>,
    pair: (u64, u64),
) -> Result<Tried, ChoiceFault>
    ensures tried { IfOk result (IsTried (texts_of rollover (C.is_text client.now.texts.now) (S.is_text server.now.texts.now)) pair) }
    ensures fault { IfErr result (IsUnjudged (C.is_lack client.now.texts.now) (S.is_lack server.now.texts.now) pair) }
{
    let judged = judge(alloc, rollover, client, server, pair)?;
    match Tried::of(&judged) {
        Some(tried) => Ok(tried),
        None => Err(ChoiceFault::Memory),
    }
}

/// What there is to say of the texts of a pair.
fn judge<C: Texts, S: Texts>(
    alloc: Global,
    rollover: Option<Rollover>,
    client: &Side<'_, C>,
    server: &Side<'_, S>,
    pair: (u64, u64),
) -> Result<Judged, ChoiceFault>
    ensures numbers { IfOk result (λ judged. (judged.client, judged.server) ≡ pair) }
    ensures judged { IfOk result (IsJudged (texts_of rollover (C.is_text client.now.texts.now) (S.is_text server.now.texts.now))) }
    ensures fault { IfErr result (IsUnjudged (C.is_lack client.now.texts.now) (S.is_lack server.now.texts.now) pair) }
{
    let (one, other) = pair;
    let text = match client.texts.text(alloc, one) {
        Ok(text) => text,
        Err(fault) => return Err(ChoiceFault::Text(End::Client, fault)),
    };
    let other_text = match server.texts.text(alloc, other) {
        Ok(text) => text,
        Err(fault) => return Err(ChoiceFault::Text(End::Server, fault)),
    };
    Ok(Judged {
        client: one,
        server: other,
        said: said_of(alloc, rollover, text.as_slice(), other_text.as_slice()),
    })
}
