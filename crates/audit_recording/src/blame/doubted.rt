//! What makes the refusals of a transfer doubtful.

ghost use Rattle.std.specs.Prelude.{◌≡◌, ◌≢◌, ◌++◌, List, [], IsErr, None, OnOk, option_to_list, true};
ghost use Rattle.audit_flows.specs.Lines.{Placed};
ghost use Rattle.audit_flows.specs.Transfers.{IsDoubtedAfter};
ghost use Rattle.audit_recording.specs.Reasons.Listed.{frame_reasons, is_astray, is_one_way, is_turned_away, missing_reasons, reasons_of, up_to, where_so, whole_reasons, with_frame};
ghost use Rattle.audit_recording.specs.declared.blame.reason.Reason.TheVariants.{Copied, Damaged, Discarded, Joined, LeftOut, Lost};

use crate::blame::blame::Blamed;
use crate::blame::missing::Missing;
use crate::blame::reason::Reason;
use audit_flows::transfers::TransferDoubts;
use std::alloc::AllocError;

/// What makes a transfer's refusals doubtful.
#[derive(Clone, Copy)]
pub struct Doubted {
    /// The doubts of its place among the transfers.
    pub doubts: TransferDoubts,
    /// Each of its datagrams stands beside its equal.
    pub is_twice: bool,
    /// The frame of its request.
    pub begins: u64,
    /// Nothing came to its client.
    pub is_one_way: bool,
    /// The frame of a datagram that may be a copy of the one before.
    pub copied_from: Option<u64>,
    /// The frame of a datagram that was received with an error.
    pub damaged: Option<u64>,
    /// The frame of a datagram with a wrong checksum, or of one that was left out for it.
    pub discarded: Option<u64>,
    /// The frame of a datagram that may be several which were recorded as one.
    pub joined: Option<u64>,
    /// Its client went on with who sent it something first, and by more than an ERROR.
    pub goes_on: bool,
    /// The frame of what was left out, and may be of it by its time.
    pub left_out: Option<u64>,
    /// Frames that may have been its client's, and are not there whole.
    pub missing: Missing,
}

impl Doubted {
    /// Adds why a refusal there is doubtful: nothing where it is an accusation.
    pub fn put_reasons(&self, reasons: &mut Vec<Reason>, blamed: &Blamed) -> Result<(), AllocError>
        ensures added { (placed : List Placed) → IsDoubtedAfter self.now.doubts placed
            → OnOk result (reasons.new.items ≡ reasons.old.items ++ reasons_of placed self.now blamed.now) }
        ensures spare { (placed : List Placed) → IsDoubtedAfter self.now.doubts placed
            → IsErr result → reasons_of placed self.now blamed.now ≢ [] }
    {
        self.put_doubts(reasons)?;
        put_if(reasons, blamed.is_late, Reason::Late)?;
        put_if(reasons, blamed.is_beside, Reason::Beside)?;
        put_if(reasons, self.is_led_astray(blamed), Reason::LedAstray)?;
        put_if(reasons, self.is_turned_away(blamed), Reason::TurnedAway)?;
        put_if(reasons, blamed.tells_strays, Reason::UnknownId)?;
        put_if(reasons, blamed.says_first_word, Reason::FirstWord)?;
        put_if(reasons, self.is_one_way_for(blamed), Reason::OneWay)?;
        put_if(reasons, self.is_twice, Reason::Twice)?;
        self.put_frames(reasons, blamed)
    }

    /// Adds the doubts of the whole transfer.
    fn put_doubts(&self, reasons: &mut Vec<Reason>) -> Result<(), AllocError>
        ensures added { (placed : List Placed) → IsDoubtedAfter self.now.doubts placed
            → OnOk result (reasons.new.items ≡ reasons.old.items ++ whole_reasons placed self.now) }
        ensures spare { (placed : List Placed) → IsDoubtedAfter self.now.doubts placed
            → IsErr result → whole_reasons placed self.now ≢ [] }
    {
        let doubts = &self.doubts;
        put_if(reasons, doubts.is_disordered(), Reason::Disordered)?;
        put_some(reasons, left_out(self.left_out))?;
        put_if(
            reasons,
            doubts.follows_unanswered(),
            Reason::FollowsUnanswered,
        )?;
        put_if(reasons, doubts.is_asked_again(), Reason::AskedAgain)?;
        put_if(reasons, doubts.is_answered_apart(), Reason::AnsweredApart)?;
        put_if(reasons, doubts.follows_strays(), Reason::FollowsStrays)
    }

    /// Whether something had come to its client, which never went on with who sent it something first.
    fn is_led_astray(&self, blamed: &Blamed) -> bool
        ensures { (placed : List Placed) → IsDoubtedAfter self.now.doubts placed → result ≡ is_astray placed self.now blamed.now }
    {
        blamed.is_answered && !self.doubts.goes_on_with_first()
    }

    /// Whether something had come to its client, which had asked before, and sent an ERROR alone to who sent it something first.
    fn is_turned_away(&self, blamed: &Blamed) -> bool
        ensures { (placed : List Placed) → IsDoubtedAfter self.now.doubts placed → result ≡ is_turned_away placed self.now blamed.now }
    {
        let doubts = &self.doubts;
        let goes_on_with_first = doubts.goes_on_with_first();
        let has_asked_more = doubts.has_asked_more();
        blamed.is_answered && goes_on_with_first && has_asked_more && !self.goes_on
    }

    /// Whether nothing came to its client, and it is not the request that is refused.
    fn is_one_way_for(&self, blamed: &Blamed) -> bool
        ensures { result ≡ is_one_way self.now blamed.now }
    {
        self.is_one_way && blamed.frame != self.begins
    }

    /// Adds the doubts that come with a frame up to the one that is refused.
    fn put_frames(&self, reasons: &mut Vec<Reason>, blamed: &Blamed) -> Result<(), AllocError>
        ensures added { OnOk result (reasons.new.items ≡ reasons.old.items ++ frame_reasons self.now blamed.now) }
        ensures spare { IsErr result → frame_reasons self.now blamed.now ≢ [] }
    {
        put_some(reasons, lost_in(up_to(self.missing.first, blamed.frame)))?;
        put_some(reasons, copied_from(up_to(self.copied_from, blamed.frame)))?;
        put_some(reasons, damaged_in(up_to(self.damaged, blamed.frame)))?;
        put_some(reasons, discarded_in(up_to(self.discarded, blamed.frame)))?;
        put_some(reasons, joined_in(up_to(self.joined, blamed.frame)))
    }

    /// Adds why a transfer that stops early may have gone on.
    pub fn put_missing(&self, reasons: &mut Vec<Reason>) -> Result<(), AllocError>
        ensures added { OnOk result (reasons.new.items ≡ reasons.old.items ++ missing_reasons self.now) }
        ensures spare { IsErr result → missing_reasons self.now ≢ [] }
    {
        put_some(reasons, left_out(self.left_out))?;
        put_some(reasons, lost_in(self.missing.within))
    }
}

/// Adds a reason, if it holds. Memory is taken for a reason alone.
pub fn put_if(reasons: &mut Vec<Reason>, holds: bool, reason: Reason) -> Result<(), AllocError>
    ensures added { OnOk result (reasons.new.items ≡ reasons.old.items ++ where_so reason holds) }
    ensures spare { IsErr result → holds ≡ true }
{
    if holds {
        reasons.push(reason)?;
    }
    Ok(())
}

/// Adds a reason, if there is one.
fn put_some(reasons: &mut Vec<Reason>, reason: Option<Reason>) -> Result<(), AllocError>
    ensures added { OnOk result (reasons.new.items ≡ reasons.old.items ++ option_to_list reason) }
    ensures spare { IsErr result → reason ≢ None }
{
    if let Some(reason) = reason {
        reasons.push(reason)?;
    }
    Ok(())
}

/// A frame, unless it comes after that one.
fn up_to(frame: Option<u64>, last: u64) -> Option<u64>
    ensures { result ≡ up_to last frame }
{
    match frame {
        Some(frame) if frame <= last => Some(frame),
        _ => None,
    }
}

/// The reason that a frame was left out, if one was.
fn left_out(frame: Option<u64>) -> Option<Reason>
    ensures { option_to_list result ≡ with_frame LeftOut frame }
{
    match frame {
        Some(frame) => Some(Reason::LeftOut(frame)),
        None => None,
    }
}

/// The reason that a frame is lost, if one is.
fn lost_in(frame: Option<u64>) -> Option<Reason>
    ensures { option_to_list result ≡ with_frame Lost frame }
{
    match frame {
        Some(frame) => Some(Reason::Lost(frame)),
        None => None,
    }
}

/// The reason that a frame may be a copy, if one may.
fn copied_from(frame: Option<u64>) -> Option<Reason>
    ensures { option_to_list result ≡ with_frame Copied frame }
{
    match frame {
        Some(frame) => Some(Reason::Copied(frame)),
        None => None,
    }
}

/// The reason that a frame was received with an error, if one was.
fn damaged_in(frame: Option<u64>) -> Option<Reason>
    ensures { option_to_list result ≡ with_frame Damaged frame }
{
    match frame {
        Some(frame) => Some(Reason::Damaged(frame)),
        None => None,
    }
}

/// The reason that a frame was discarded, if one was.
fn discarded_in(frame: Option<u64>) -> Option<Reason>
    ensures { option_to_list result ≡ with_frame Discarded frame }
{
    match frame {
        Some(frame) => Some(Reason::Discarded(frame)),
        None => None,
    }
}

/// The reason that a frame may be several datagrams, if one may.
fn joined_in(frame: Option<u64>) -> Option<Reason>
    ensures { option_to_list result ≡ with_frame Joined frame }
{
    match frame {
        Some(frame) => Some(Reason::Joined(frame)),
        None => None,
    }
}
