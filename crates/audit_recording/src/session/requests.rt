//! What the transfers of a recording were asked for.

ghost use Rattle.std.specs.Prelude.{◌≡◌, ◌+◌, ◌++◌, ◌∷◌, [], ℕ, List, IfOk, OnOk, IsSome};
ghost use Rattle.std.specs.BTreeMap.{get, keys};
ghost use Rattle.std.specs.Ordering.{nat_cmp};
ghost use Rattle.net_udp.specs.Recording.{Step};
ghost use Rattle.audit_recording.specs.Blame.Frames.{Carried, whole_of};
ghost use Rattle.audit_recording.specs.Session.Kept.{IsSessionOf};
ghost use Rattle.audit_recording.specs.Session.Noted.{Noticed};
ghost use Rattle.audit_recording.specs.Session.Requests.{AreAsked, IsAskedAs};
ghost use Rattle.audit_recording.specs.Session.Texts.{ordinal};
ghost use Rattle.audit_recording.specs.declared.session.requests.Asked.{Asked as AskedKind};

use crate::session::session::Session;
use std::alloc::{AllocError, Global};

/// The request of a transfer.
#[derive(Clone, Copy)]
pub struct Asked<'a> {
    /// The number of the transfer, from 1.
    pub number: u64,
    /// The payload of the request.
    pub payload: &'a [u8],
}

/// The request of each transfer of a recording, from the oldest on.
pub fn requests_of(alloc: Global, session: &Session) -> Result<Vec<Asked<'_>>, AllocError>
    ensures { (named : List ℕ) (history : List Step) (carried : List Carried) (s : Noticed) → IsSessionOf session.now named [] history carried s
        → IfOk result (λ asked. AreAsked named carried asked.items) }
{
    let keys = session.transfers(alloc)?;
    let mut asked = Vec::new(alloc);
    for place in 0..keys.len() {
        put_request(session, keys[place], place as u64 + 1, &mut asked)?;
    }
    Ok(asked)
}

/// Adds the request of the transfer with this key, which has this number.
fn put_request<'a>(
    session: &'a Session,
    key: u64,
    number: u64,
    asked: &mut Vec<Asked<'a>>,
) -> Result<(), AllocError>
    ensures { (named : List ℕ) (history : List Step) (carried : List Carried) (s : Noticed) → IsSessionOf session.now named [] history carried s
        → ordinal key (whole_of named carried) ≡ number → IsSome (get nat_cmp session.now.trails key)
        → OnOk result ((one : AskedKind) × IsAskedAs named carried number one × (asked.new.items ≡ asked.old.items ++ one ∷ [])) }
{
    if let Some(trail) = session.trail(key) {
        let payload = trail.request.as_slice();
        asked.push(Asked { number, payload })?;
    }
    Ok(())
}
