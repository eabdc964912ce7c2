//! The capture text read and written.
#![tactic(auto)]

mod datagram;
mod fault;
mod fields;
mod heads;
mod host_writer;
mod laws;
mod line;
mod line_error;
mod lines;
mod reader;
mod spelled_head;
mod version;
mod writer;

pub use datagram::{Datagram, Header};
pub use fault::{CaptureFault, TextFault};
pub use host_writer::HostCaptureWriter;
pub use laws::{
    beginnings_agree, canonical_text_is_read, capture_has_its_beginnings, commented_text_is_read,
    fault_comes_after_beginnings, fault_stays, text_has_one_reading, version_two_says_the_same,
    worked_text_is_canonical, worked_text_is_in_version_two, worked_text_names_hosts,
    worked_text_with_hosts_is_canonical,
};
pub use reader::CaptureReader;
pub use writer::CaptureWriter;
