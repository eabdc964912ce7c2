//! Streams of bytes: readers that remember whether they have failed, what is read ahead, and a writer of lines.

mod fault;
mod latched;
mod line_writer;
mod read_buffer;
mod standing;
mod whole;

pub use fault::WriteFault;
pub use latched::Latched;
pub use line_writer::LineWriter;
pub use read_buffer::ReadBuffer;
pub use standing::Standing;
