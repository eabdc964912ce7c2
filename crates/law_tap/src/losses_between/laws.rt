//! Laws of the definitions in `specs/LossesBetween.antt`. Each is the contract of a function that does nothing.

ghost use Rattle.std.specs.Prelude.{◌≡◌, ◌↔◌, ◌≤◌, ◌++◌, ℕ, true, false, List, ◌∷◌, Option, length, map, reverse};
ghost use Rattle.tftp_packet.specs.{End, Client, Message, OptionMap, RequestParts};
ghost use Rattle.law_model.specs.Model.{Meaning, History};
ghost use Rattle.law_tap.specs.Tap.{Pass, tapped_at};
ghost use Rattle.tftp_packet.specs.Hosts.{Datagram, Header};
ghost use Rattle.law_model.specs.{EndRule};
ghost use Rattle.law_model.specs.Rules.{is_of_transfer, route_of, transfer_of};
ghost use Rattle.law_end.specs.{FirstAsked, OneEnded, Rule};
ghost use Rattle.law_tap.specs.BesideEnd.{AreSidesOf, beside};
ghost use Rattle.law_tap.specs.StandingAtEnd.{KnowsOtherEnd};
ghost use Rattle.law_tap.specs.TapCapture.{TapDatagram, TapSides, AreApart};
ghost use Rattle.law_tap.specs.TapDress.{IsLawfulBetween};
ghost use Rattle.law_tap.specs.TapRules.{SidesBreak, IsTapRead, TapBroken, BreaksNoTapRule};
ghost use Rattle.law_tap.specs.TapRoutes.{is_passing};
ghost use Rattle.law_tap.specs.Losses.{Loses, IsCertain, IsLawfulWithLosses, IsSeenOf};
ghost use Rattle.law_tap.specs.LossesBetween.{IsTapViewWithLosses, IsSentInOneRun, IsLawfulBetweenWithLosses, IsCertainBetween};
ghost use Rattle.law_tap.specs.SaidFigures.{Figures, AreFigures, FitsAgreed, FitsSaid, FitsUnseen, IsFair, IsOffered};
ghost use Rattle.law_tap.specs.LossyRules.{lossy_route, LossyBreaks, LossyBroken, LossyPasses, IsSaidBy, IsSaid, NothingExplains, IsOfOrder, StandsWhateverIsMissing, BreaksNoLossyRule, BeginsWithRequest};

/// Between the ends a list is what was seen of what passed exactly if one run sends all of it: the order in which it passed says
/// nothing.
#[tactic(auto, using(crate::proofs::OneRun::sent_in_one, crate::proofs::OneRun::passes_late))]
pub fn order_says_nothing_between_with_losses()
    ensures { (m : Meaning) (wire : List ℕ) (seen : List Pass) → IsTapViewWithLosses m wire seen ↔ IsSentInOneRun m wire seen }
{}

/// So two of it may have passed the other way round.
#[tactic(auto, using(crate::proofs::OneRun::change_places))]
pub fn neighbours_may_change_places_between()
    ensures { (m : Meaning) (wire : List ℕ) (x y : Pass) (seen : List Pass) → IsTapViewWithLosses m wire (x ∷ y ∷ seen)
        → IsTapViewWithLosses m wire (y ∷ x ∷ seen) }
{}

/// What an end was seen to do passed a point beside it, so far as it was seen: nothing is lawful with losses at an end that is not
/// so between.
pub fn what_an_end_was_seen_to_do_passed()
    ensures { (m : Meaning) (wire : List ℕ) (e : End) (seen : History) → IsSeenOf m wire e seen
        → IsTapViewWithLosses m wire (tapped_at e seen) }
{}

/// What was recorded of a transfer at an end, as it passes beside that end, is lawful with losses between the ends if it is
/// at the end. So what is certain between the ends is certain at the end too, where the other end is known: what breaks a
/// rule there whatever is missing.
pub fn what_is_certain_between_is_certain_at_an_end()
    ensures lawful { (h : Header) (own : List ℕ) (s : TapSides) (earlier : List Datagram) (d : Datagram) (asked : RequestParts) → OneEnded h earlier
        → FirstAsked h earlier asked → is_of_transfer (route_of h earlier d) ≡ true → KnowsOtherEnd h (d ∷ earlier) → AreSidesOf h own (d ∷ earlier) s
        → IsLawfulWithLosses h (reverse (d ∷ earlier)) → IsLawfulBetweenWithLosses s (map (beside own) (transfer_of h (d ∷ earlier))) }
    ensures certain { (h : Header) (own : List ℕ) (s : TapSides) (later earlier : List Datagram) (d : Datagram) (asked : RequestParts) → OneEnded h earlier
        → FirstAsked h earlier asked → is_of_transfer (route_of h earlier d) ≡ true → KnowsOtherEnd h (d ∷ earlier) → AreSidesOf h own (d ∷ earlier) s
        → IsCertainBetween s (map (beside own) (transfer_of h earlier)) (beside own d) → IsCertain h (reverse (later ++ d ∷ earlier)) (length earlier) }
    ensures broken { (h : Header) (own : List ℕ) (s : TapSides) (later earlier : List Datagram) (d : Datagram) (asked : RequestParts) (broken : Rule) → OneEnded h earlier
        → FirstAsked h earlier asked → is_of_transfer (route_of h earlier d) ≡ true → KnowsOtherEnd h (d ∷ earlier) → AreSidesOf h own (d ∷ earlier) s → AreApart s
        → LossyBroken s (map (beside own) (transfer_of h earlier)) (beside own d) broken → IsCertain h (reverse (later ++ d ∷ earlier)) (length earlier) }
{}

/// Between the ends too what is lawful is lawful with losses, and so is what is left of it; a datagram that is certain stays so
/// however many missing ones are found.
pub fn less_is_lawful_between_with_losses()
    ensures lawful { (s : TapSides) (tapped : List TapDatagram) → IsLawfulBetween s tapped → IsLawfulBetweenWithLosses s tapped }
    ensures less { (s : TapSides) (tapped rest : List TapDatagram) → Loses TapDatagram tapped rest
        → IsLawfulBetweenWithLosses s tapped → IsLawfulBetweenWithLosses s rest }
    ensures certain { (s : TapSides) (all earlier : List TapDatagram) (d : TapDatagram) → Loses TapDatagram all earlier
        → IsCertainBetween s earlier d → IsCertainBetween s all d }
{}

/// What breaks a rule with losses is certain: no lawful list has it, whatever is missing. So it stays where more is found.
pub fn what_breaks_a_rule_with_losses_is_certain()
    ensures { (s : TapSides) (earlier : List TapDatagram) (d : TapDatagram) (broken : Rule) → AreApart s
        → LossyBroken s earlier d broken → IsCertainBetween s earlier d }
{}

/// So a list that is lawful with losses breaks none of them; and one that begins with its request and breaks none is not certain to
/// be unlawful: that no lawful list has it cannot be.
#[tactic(auto, using(crate::proofs::LossyCertain::lawful_breaks_none, crate::proofs::LossyNone::unbroken_is_not_certain))]
pub fn what_breaks_no_rule_with_losses_is_not_certain()
    ensures lawful { (s : TapSides) (tapped : List TapDatagram) → AreApart s → IsLawfulBetweenWithLosses s tapped
        → BreaksNoLossyRule s tapped }
    ensures unbroken { (s : TapSides) (tapped : List TapDatagram) → AreApart s → BeginsWithRequest s tapped
        → BreaksNoLossyRule s tapped → (IsLawfulBetweenWithLosses s tapped → ⊥) → ⊥ }
{}

/// So the first datagram that breaks a rule with losses is the first that is certain: it is, and that those before it are not lawful
/// with losses cannot be.
pub fn the_first_that_breaks_a_rule_with_losses_is_the_first_certain()
    ensures certain { (s : TapSides) (earlier : List TapDatagram) (d : TapDatagram) (broken : Rule) → AreApart s
        → BeginsWithRequest s earlier → BreaksNoLossyRule s earlier → LossyBroken s earlier d broken → IsCertainBetween s earlier d }
    ensures first { (s : TapSides) (earlier : List TapDatagram) (d : TapDatagram) (broken : Rule) → AreApart s
        → BeginsWithRequest s earlier → BreaksNoLossyRule s earlier → LossyBroken s earlier d broken
        → (IsLawfulBetweenWithLosses s earlier → ⊥) → ⊥ }
{}

/// Nobody is accused with losses who is not without them: a list that breaks no rule between the ends breaks none of these.
pub fn what_breaks_no_rule_breaks_none_with_losses()
    ensures { (s : TapSides) (tapped : List TapDatagram) → AreApart s → BreaksNoTapRule s tapped → BreaksNoLossyRule s tapped }
{}

/// Some rules are certain by their name: what breaks one of them after datagrams that break none breaks a rule with losses too, that
/// one or another of them, and so is certain.
pub fn what_breaks_a_rule_that_stands_is_certain()
    ensures breaks { (s : TapSides) (earlier : List TapDatagram) (d : TapDatagram) (broken : Rule) → AreApart s → BreaksNoTapRule s earlier
        → TapBroken s earlier d broken → StandsWhateverIsMissing broken → (other : Rule) × LossyBroken s earlier d other }
    ensures certain { (s : TapSides) (earlier : List TapDatagram) (d : TapDatagram) (broken : Rule) → AreApart s → BreaksNoTapRule s earlier
        → TapBroken s earlier d broken → StandsWhateverIsMissing broken → IsCertainBetween s earlier d }
{}

/// Four figures decide whether one transfer explains all that was said: where no block size fits them that may have been agreed to,
/// none does.
pub fn what_fits_no_size_is_not_explained()
    ensures { (s : TapSides) (asked : RequestParts) (tapped : List TapDatagram) (f : Figures) (offered : Option OptionMap) → AreFigures f s tapped
        → IsOffered s tapped offered → (FitsSaid asked offered f → ⊥) → NothingExplains s asked tapped }
{}

/// And where one fits, one does.
pub fn what_fits_a_size_is_explained()
    ensures agreed { (s : TapSides) (asked : RequestParts) (tapped : List TapDatagram) (f : Figures) (agreed : OptionMap) → AreFigures f s tapped
        → ((e : End) (k : ℕ) (bytes : List ℕ) → IsSaid s tapped e (Message.Data k bytes) → 1 ≤ k) → IsFair s.rollover asked agreed
        → ((e : End) × IsSaid s tapped e (Message.Oack agreed)) → ((e : End) (options : OptionMap) → IsSaid s tapped e (Message.Oack options) → options ≡ agreed)
        → FitsAgreed asked agreed f → NothingExplains s asked tapped → ⊥ }
    ensures unseen { (s : TapSides) (asked : RequestParts) (tapped : List TapDatagram) (f : Figures) → AreFigures f s tapped
        → ((e : End) (k : ℕ) (bytes : List ℕ) → IsSaid s tapped e (Message.Data k bytes) → 1 ≤ k)
        → ((e : End) (options : OptionMap) → IsSaid s tapped e (Message.Oack options) → ⊥) → IsSaid s tapped Client (Message.Request asked)
        → FitsUnseen asked f → NothingExplains s asked tapped → ⊥ }
{}

/// Whether a datagram passes with losses is decided by the one message that it says after the request, or by its two sides where it is
/// none of the transfer.
pub fn one_message_decides_with_losses()
    ensures message { (s : TapSides) (earlier : List TapDatagram) (d : TapDatagram) → AreApart s → (e : End) (n : Message) → IsSaidBy s e n d
        → (asked : RequestParts) → ((now : RequestParts) → IsSaid s earlier Client (Message.Request now) → now ≡ asked)
        → ((broken : Rule) → LossyBreaks s earlier d asked e n broken → ⊥) → LossyPasses s earlier d }
    ensures first { (s : TapSides) (earlier : List TapDatagram) (d : TapDatagram) (e : End) (n : Message) → IsSaidBy s e n d
        → ((now : RequestParts) → IsSaid s earlier Client (Message.Request now) → ⊥) → LossyPasses s earlier d }
    ensures outside { (s : TapSides) (earlier : List TapDatagram) (d : TapDatagram) → is_passing (lossy_route s d) ≡ false
        → IsTapRead (lossy_route s d) d → ((broken : Rule) → SidesBreak (lossy_route s d) d broken → ⊥) → LossyPasses s earlier d }
{}

/// A block 65535 that something explains is the last one, and shorter than the others: it breaks no rule 20.
pub fn an_explained_block_is_within_65535()
    ensures { (s : TapSides) (earlier : List TapDatagram) (d : TapDatagram) (e : End) (k : ℕ) (bytes : List ℕ) → IsSaidBy s e (Message.Data k bytes) d
        → (asked : RequestParts) → (NothingExplains s asked (d ∷ earlier) → ⊥)
        → LossyBreaks s earlier d asked e (Message.Data k bytes) (Rule.Block EndRule.BeyondBlock65535) → ⊥ }
{}

/// What has no number, and what is none of the transfer, leave the four figures as they are.
pub fn what_has_no_number_leaves_the_figures()
    ensures message { (s : TapSides) (earlier : List TapDatagram) (d : TapDatagram) (e : End) (n : Message) → IsSaidBy s e n d
        → ((k : ℕ) → n ≡ Message.Ack k → ⊥) → ((k : ℕ) (bytes : List ℕ) → n ≡ Message.Data k bytes → ⊥) → (f : Figures) → AreFigures f s earlier
        → AreFigures f s (d ∷ earlier) }
    ensures outside { (s : TapSides) (earlier : List TapDatagram) (d : TapDatagram) → is_passing (lossy_route s d) ≡ false → (f : Figures)
        → AreFigures f s earlier → AreFigures f s (d ∷ earlier) }
{}

/// Seven rules are broken by nothing, since what they want may be missing: 4, 9, 17, 18, 22, 23 and 24.
pub fn no_rule_of_order_is_broken_with_losses()
    ensures { (s : TapSides) (earlier : List TapDatagram) (d : TapDatagram) (broken : Rule) → IsOfOrder broken
        → LossyBroken s earlier d broken → ⊥ }
{}
