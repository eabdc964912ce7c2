//! The UDP datagrams of a recording: its frames, the IP packets that they carry, and the fragments of these put together.

mod brought;
mod event;
mod fate;
mod laws;
mod likeness;
mod reader;
mod senders;
mod sent;
mod taken;

pub use crate::frames::Checksum;
pub use event::Event;
pub use fate::{Datagram, Fate, LeftOut};
pub use laws::{
    classic_recordings_lose_nothing, content_is_of_its_frames, each_frame_is_accounted_for_once,
    recording_is_read_in_one_way, worked_copies, worked_discarded, worked_fragments,
    worked_overlap, worked_protocols,
};
pub use reader::RecordingReader;
