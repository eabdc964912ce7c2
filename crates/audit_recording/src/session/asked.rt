//! The ports at which something of no transfer looks like a request.

ghost use Rattle.std.specs.Prelude.{◌≡◌, ◌∷◌, List, OnOk};
ghost use Rattle.audit_recording.specs.Session.Strays.{Stray, asked_ports, asks, stray_of};

use crate::blame::Passing;
use crate::session::frames::NAMED;
use std::alloc::AllocError;

/// Notes the port to which a datagram of no transfer went, if it looks like a request, unless the port is known or many are. After an
/// error they stand for nothing.
pub(crate) fn note_asked(asked: &mut Vec<u64>, passing: &Passing<'_>) -> Result<(), AllocError>
    ensures { (strays : List Stray) → asked.old.items ≡ asked_ports strays → OnOk result (asked.new.items ≡ asked_ports (stray_of passing.now ∷ strays)) }
{
    let port = u64::from(passing.target.port);
    if asks(passing.payload) && asked.len() < NAMED && !asked.contains(&port) {
        asked.push(port)?;
    }
    Ok(())
}

/// Whether a payload begins as a request does.
fn asks(payload: &[u8]) -> bool
    ensures { result ≡ asks payload.now }
{
    matches!(payload, [0, 1 | 2, _, ..])
}
