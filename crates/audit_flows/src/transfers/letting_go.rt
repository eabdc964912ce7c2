//! What is kept of endpoints is let go when its newest datagram is older than 300 s.

ghost use Rattle.std.specs.Prelude.{◌≡◌, ◌+◌, ℕ, false, true, IfSome, IsSomeAnd, is_some, nat_le};
ghost use Rattle.std.specs.BTreeMap.{get};
ghost use Rattle.audit_flows.specs.Lines.{endpoint_cmp, silence};
ghost use Rattle.audit_flows.specs.Transfers.Kept.{Forgets};

use crate::lines::{Endpoint, is_recent};
use std::collections::BTreeMap;
use std::ops::Bound;

/// What is kept of an endpoint, from its newest datagram on.
pub(crate) trait Dated {
    /// When that passed.
    ghost moment: { Self → ℕ };

    /// When that passed.
    fn moment(&self) -> u64
        ensures { result ≡ moment self.now };
}

/// Looks at two endpoints where more are kept than there were, and lets go what is old.
pub(crate) fn let_some_go<V: Dated + Drop>(
    kept: &mut BTreeMap<Endpoint, V>,
    before: usize,
    looked_at: &mut Endpoint,
    now: u64,
)
    ensures { Forgets V.moment now kept.old kept.new }
{
    if kept.len() > before {
        let_one_go(kept, looked_at, now);
        let_one_go(kept, looked_at, now);
    }
}

/// Looks at the endpoint after the one that was looked at last.
fn let_one_go<V: Dated + Drop>(kept: &mut BTreeMap<Endpoint, V>, looked_at: &mut Endpoint, now: u64)
    ensures { Forgets V.moment now kept.old kept.new }
{
    let Some(next) = next_kept(kept, *looked_at) else {
        return;
    };
    *looked_at = next;
    if is_old(kept, &next, now) {
        kept.remove(&next);
    }
}

/// The endpoint after this one of which something is kept, or else the first.
fn next_kept<V>(kept: &BTreeMap<Endpoint, V>, end: Endpoint) -> Option<Endpoint>
    ensures { IfSome result (λ next. is_some (get endpoint_cmp kept.now next) ≡ true) }
{
    let mut later = kept.range((Bound::Excluded(end), Bound::Unbounded));
    match later.next() {
        Some((next, _)) => Some(*next),
        None => match kept.first_key_value() {
            Some((first, _)) => Some(*first),
            None => None,
        },
    }
}

/// Whether something older than 300 s is kept of an endpoint.
fn is_old<V: Dated>(kept: &BTreeMap<Endpoint, V>, end: &Endpoint, now: u64) -> bool
    ensures { result ≡ true → IsSomeAnd (get endpoint_cmp kept.now end.now) (λ v. nat_le now (V.moment v + silence) ≡ false) }
{
    match kept.get(end) {
        Some(last) => !is_recent(last.moment(), now),
        None => false,
    }
}
