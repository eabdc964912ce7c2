//! The transfers of a recording, with one datagram more.

ghost use Rattle.std.specs.Prelude.{◌≡◌, ◌≢◌, ◌≤◌, ◌∷◌, ◌&&◌, ◌||◌, not, ℕ, Bool, List, length, IsOk, OnOk, Err, None, true, false};
ghost use Rattle.audit_recording.specs.Judges.Kept.{AreCrowded, AreHanded, AreKept, IsNew};
ghost use Rattle.audit_recording.specs.declared.judges.judging.Judging.{Judging as JudgingKind};
ghost use Rattle.audit_flows.specs.Lines.{doubts_of, Placed};
ghost use Rattle.audit_flows.specs.{Place, Transfer};
ghost use Rattle.audit_flows.specs.Transfers.{is_it, is_about};
ghost use Rattle.audit_flows.specs.{AttributionFault};
ghost use Rattle.audit_views.specs.Views.{Naming, IsFed, held_of};

use crate::judges::judging::Judging;
use crate::judges::watched::Watched;
use audit_flows::lines::{Place, Transfer};
use audit_flows::transfers::{Attributed, AttributionFault};
use audit_views::views::Fed;
use std::alloc::{AllocError, Global};
use std::collections::BTreeMap;
use tftp_ends::blocks::Delivered;

/// A transfer that a request opens is kept, before any datagram.
pub(crate) fn open<D: Delivered + Drop>(
    watched: &mut BTreeMap<u64, Watched<D>>,
    alloc: Global,
    judging: Judging,
    place: &Place,
) -> Result<(), AllocError>
    ensures kept { (name : Naming) (out : List ℕ) (p : Placed) (older : List Placed) → place.now ≡ p.place
        → ((x : Transfer) → p.place ≡ Place.Opens x → IsNew x.number out older)
        → AreKept watched.old judging name out older older → OnOk result (AreKept watched.new judging name out (p ∷ older) older) }
    ensures spare { ((x : Transfer) → place.now ≢ Place.Opens x) → IsOk result }
    ensures crowded { AreCrowded watched.new → AreCrowded watched.old }
{
    match place {
        Place::Opens(transfer) => begin(watched, alloc, judging, *transfer),
        Place::Repeats(_) => Ok(()),
        Place::Talks(_) => Ok(()),
        Place::Apart(_) => Ok(()),
        Place::Beside(_) => Ok(()),
        Place::Nowhere => Ok(()),
    }
}

/// A transfer is kept, before any datagram.
fn begin<D: Delivered + Drop>(
    watched: &mut BTreeMap<u64, Watched<D>>,
    alloc: Global,
    judging: Judging,
    transfer: Transfer,
) -> Result<(), AllocError>
    ensures kept { (name : Naming) (out : List ℕ) (p : Placed) (older : List Placed) → p.place ≡ Place.Opens transfer
        → IsNew transfer.number out older
        → AreKept watched.old judging name out older older → OnOk result (AreKept watched.new judging name out (p ∷ older) older) }
    ensures crowded { AreCrowded watched.new → AreCrowded watched.old }
{
    let before = watched.insert(transfer.number, Watched::new(alloc, transfer, judging))?;
    let_go(before);
    Ok(())
}

/// Lets what was kept go.
fn let_go<D: Delivered + Drop>(_before: Option<Watched<D>>) {}

/// The number of the transfer that a datagram is about: it passed at its client, or beside its server.
pub(crate) fn about(place: &Place) -> Option<u64>
    ensures about { (p : Placed) → place.now ≡ p.place → (n : ℕ) → is_about n p ≡ is_it n result }
    ensures nowhere { place.now ≡ Place.Nowhere → result ≡ None }
{
    match place {
        Place::Opens(transfer) => Some(transfer.number),
        Place::Repeats(transfer) => Some(transfer.number),
        Place::Talks(transfer) => Some(transfer.number),
        Place::Apart(_) => None,
        Place::Beside(transfer) => Some(transfer.number),
        Place::Nowhere => None,
    }
}

/// A number, unless it is the other.
pub(crate) fn unless(number: Option<u64>, other: Option<u64>) -> Option<u64>
    ensures { (n : ℕ) → is_it n result ≡ (is_it n number && not (is_it n other)) }
{
    if number == other { None } else { number }
}

/// Hands a datagram to the transfer with this number, if one is named and kept.
pub(crate) fn hand<D: Delivered + Drop>(
    watched: &mut BTreeMap<u64, Watched<D>>,
    alloc: Global,
    number: Option<u64>,
    found: &Attributed,
    fed: &Fed<'_>,
) -> Result<(), AttributionFault>
    requires short { length fed.now.payload.now ≤ 65527 }
    ensures handed { (judging : JudgingKind) (name : Naming) (out : List ℕ) (p : Placed) (older : List Placed)
        → IsFed name p (held_of fed.now) → found.now.place ≡ p.place → found.now.doubts ≡ doubts_of p older
        → AreKept watched.old judging name out (p ∷ older) older
        → OnOk result (AreHanded (λ n. is_it n number) watched.new judging name out p older) }
    ensures spare { number ≡ None → IsOk result }
    ensures full { result ≡ Err AttributionFault.TooMany → AreCrowded watched.old }
{
    let Some(number) = number else {
        return Ok(());
    };
    match watched.get_mut(&number) {
        Some(one) => one.take(alloc, found, fed),
        None => Ok(()),
    }
}

/// Notes in the transfer with this number, if one is named and kept, that another's datagram may be its first answer.
pub(crate) fn doubt<D: Delivered + Drop>(
    watched: &mut BTreeMap<u64, Watched<D>>,
    number: Option<u64>,
    found: &Attributed,
)
    ensures { (got : ℕ → Bool) (judging : JudgingKind) (name : Naming) (out : List ℕ) (p : Placed) (older : List Placed)
        → found.now.place ≡ p.place → found.now.doubts ≡ doubts_of p older
        → ((n : ℕ) → is_it n number ≡ true → (got n ≡ false) × (is_about n p ≡ false))
        → AreHanded got watched.old judging name out p older
        → AreHanded (λ n. is_it n number || got n) watched.new judging name out p older }
{
    if let Some(number) = number {
        if let Some(one) = watched.get_mut(&number) {
            one.doubt(found);
        }
    }
}

/// Hands a datagram to each transfer of which it says something.
pub(crate) fn hand_on<D: Delivered + Drop>(
    watched: &mut BTreeMap<u64, Watched<D>>,
    alloc: Global,
    found: &Attributed,
    fed: &Fed<'_>,
) -> Result<(), AttributionFault>
    requires short { length fed.now.payload.now ≤ 65527 }
    ensures kept { (judging : JudgingKind) (name : Naming) (out : List ℕ) (p : Placed) (older : List Placed)
        → IsFed name p (held_of fed.now) → found.now.place ≡ p.place → found.now.doubts ≡ doubts_of p older
        → AreKept watched.old judging name out (p ∷ older) older
        → OnOk result (AreKept watched.new judging name out (p ∷ older) (p ∷ older)) }
    ensures spare { found.now.place ≡ Place.Nowhere → IsOk result }
    ensures full { result ≡ Err AttributionFault.TooMany → AreCrowded watched.old }
{
    let own = about(&found.place);
    let answered = unless(found.doubts.may_be_answer_of, own);
    hand(watched, alloc, own, found, fed)?;
    doubt(watched, answered, found);
    Ok(())
}
