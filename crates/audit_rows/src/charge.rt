//! Why what a row tells is doubtful, and whom it accuses.

ghost use Rattle.std.specs.Prelude.{◌≡◌, ◌≢◌, ◌++◌, [], IfOk, IsErr};
ghost use Rattle.audit_rows.specs.Charging.{dropped_reasons, unless_listed};

use audit_recording::blame::Reason;
use audit_recording::rows::Accused;
use std::alloc::AllocError;

/// Why what a row tells is doubtful, and whom it accuses.
#[derive(Drop)]
pub struct Charge {
    /// Why it is no accusation, or why what is not whole may be whole.
    pub reasons: Vec<Reason>,
    /// Whom it accuses: nobody where a reason is listed.
    pub accused: Option<Accused>,
    /// Whether it tells a refusal.
    pub is_refusal: bool,
}

impl Charge {
    /// The same, where the recorder says at last that it lost so many packets: a refusal is doubtful then.
    pub fn with_dropped(self, dropped: u64) -> Result<Self, AllocError>
        ensures reasons { IfOk result (λ charge. charge.reasons.items ≡ self.reasons.items ++ dropped_reasons self.is_refusal dropped) }
        ensures accused { IfOk result (λ charge. charge.accused ≡ unless_listed (dropped_reasons self.is_refusal dropped) self.accused) }
        ensures is_refusal { IfOk result (λ charge. charge.is_refusal ≡ self.is_refusal) }
        ensures spare { IsErr result → dropped_reasons self.is_refusal dropped ≢ [] }
    {
        if !self.is_refusal || dropped == 0 {
            return Ok(self);
        }
        let Charge {
            mut reasons,
            accused: _,
            is_refusal,
        } = self;
        reasons.push(Reason::Dropped(dropped))?;
        Ok(Charge {
            reasons,
            accused: None,
            is_refusal,
        })
    }
}
