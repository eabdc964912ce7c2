ghost use Rattle.std.specs.Prelude.{◌≡◌};
ghost use Rattle.tftp_capture.specs.Lines.{fault_at};

use crate::fault::{CaptureFault, TextFault};

/// Why a line cannot be read, without its number.
#[derive(Clone, Copy, Debug, PartialEq, Eq)]
pub enum LineError {
    /// The text is wrong.
    Text(TextFault),
    /// A read failed.
    Read,
    /// Memory was refused.
    Memory,
}

impl LineError {
    /// The fault at a line, counted from 1.
    pub fn at(self, line: u64) -> CaptureFault
        ensures { result ≡ fault_at self line }
    {
        match self {
            LineError::Text(fault) => CaptureFault::Text(line, fault),
            LineError::Read => CaptureFault::Read(line),
            LineError::Memory => CaptureFault::Memory(line),
        }
    }
}
