use crate::rule::AgreementRule;
use thiserror::Error;

/// Why an OACK may not be agreed to. Where several hold, the first in this order is answered.
#[derive(Clone, Copy, Debug, PartialEq, Eq, Error)]
pub enum NegoFault {
    /// The first rule on what may be agreed that it breaks.
    #[error("{0}")]
    Broken(AgreementRule),
    /// A file in octet mode whose size needs a block above the greatest: 65535, and 8388607 where numbers begin again.
    #[error("a file of more than 65535 blocks")]
    BeyondBlock65535,
    /// A growth was refused.
    #[error("out of memory")]
    Memory,
}
