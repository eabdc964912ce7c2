//! The frames of a recording: a classic recording (draft-ietf-opsawg-pcap) or one of blocks (draft-ietf-opsawg-pcapng),
//! which of the two its first bytes tell.
#![tactic(auto)]

mod blocks;
mod classic;
mod fault;
mod found;
mod frame;
mod gather;
mod laws;
mod layout;
mod losses;
mod next;
mod numbers;
mod options;
mod pieces;
mod place;
mod read;
mod reader;
mod sizes;
mod skip;
mod step;
mod times;

pub use fault::{FaultKind, PcapFault};
pub use frame::{Direction, Frame};
pub use laws::{
    classic_recordings_lose_nothing, fault_is_in_no_recording, fault_is_one,
    recording_has_one_reading, worked_losses, worked_recordings,
};
pub use layout::{Classic, Dropped, Interface, Layout, NamedInterface};
pub use numbers::Order;
pub use reader::FrameReader;
