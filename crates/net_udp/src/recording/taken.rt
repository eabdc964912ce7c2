ghost use Rattle.std.specs.Prelude.{◌≡◌, ◌⊎◌, ◌∷◌, List, Option, MatchBool, OnOk, OnErr};
ghost use Rattle.net_udp.specs.Copies.{Packet as Recorded, StandsFor};
ghost use Rattle.net_udp.specs.Recording.Alike.{Comes, is_copy};
ghost use Rattle.net_udp.specs.Recording.Brought.{Takes};
ghost use Rattle.net_udp.specs.Recording.Checked.{IsSentOf};
ghost use Rattle.net_udp.specs.Recording.Discards.{IsDiscarded};
ghost use Rattle.net_udp.specs.Recording.History.{WantsNext};
ghost use Rattle.net_udp.specs.Recording.Senders.{Knows, WantsToKnow};
ghost use Rattle.net_udp.specs.declared.recording.sent.Sent.{Sent};

use crate::copies::Recent;
use crate::fragments::Fragments;
use crate::recording::brought::take_frame;
use crate::recording::event::Event;
use crate::recording::senders::Senders;
use crate::recording::sent::sent_of;
use std::alloc::{AllocError, Global};

/// Takes the frame that an event has, and fills the event with what became of it.
pub(crate) fn take_event(
    alloc: Global,
    recent: &mut Recent,
    waiting: &mut Fragments,
    senders: &mut Senders,
    event: &mut Event,
) -> Result<(), AllocError>
    ensures frame { event.new.frame ≡ event.old.frame }
    ensures comes { OnOk result ((before : List Recorded) → StandsFor recent.old before → (came : List Recorded) × Comes before event.old.frame.parts event.new.likeness came × StandsFor recent.new came) }
    ensures takes { OnOk result (Takes (is_copy event.new.likeness) waiting.old event.old.frame.parts event.old.frame.number event.new.brought waiting.new) }
    ensures sent { OnOk result (IsSentOf event.old.frame.parts event.new.likeness event.new.brought.outcome event.new.sent) }
    ensures discarded { OnOk result ((before : List (Option Sent)) → Knows senders.old before → MatchBool event.new.is_discarded (IsDiscarded before event.new.sent) (IsDiscarded before event.new.sent → ⊥)) }
    ensures knows { OnOk result ((before : List (Option Sent)) → Knows senders.old before → Knows senders.new (event.new.sent ∷ before)) }
    ensures wants { OnErr result ((came : List Recorded) (before : List (Option Sent)) → StandsFor recent.old came → Knows senders.old before → WantsNext came waiting.old event.old.frame.parts event.old.frame.number ⊎ WantsToKnow before event.old.frame.parts) }
{
    let (likeness, brought) = take_frame(alloc, recent, waiting, &event.frame)?;
    let sent = sent_of(&event.frame, likeness, brought.outcome());
    let is_discarded = senders.discard(sent);
    senders.note(sent)?;
    event.bring(likeness, brought, sent, is_discarded);
    Ok(())
}
