use judge_tap::TapRefusal;
use tftp_judge::{Meaning, Refusal};

/// What there is to say of a transfer at each point where it was judged.
#[derive(Drop)]
pub struct Verdicts {
    /// Of the client's view.
    pub client: Option<Result<Meaning, Refusal>>,
    /// Of the server's view.
    pub server: Option<Result<Meaning, Refusal>>,
    /// Of what passed between the two.
    pub between: Option<Result<Meaning, TapRefusal>>,
}
