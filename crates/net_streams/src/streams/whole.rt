ghost use Rattle.std.specs.Prelude.{◌≡◌, false, is_err};
ghost use Rattle.net_streams.specs.Streams.Sinks.{WritesWhole};

use crate::streams::fault::WriteFault;
use crate::streams::latched::Latched;
use std::io::Write;

/// Writes a slice by as many writes as it takes; an interrupted write is a fault too.
pub fn write_whole<W: Write>(writer: &mut Latched<W>, bytes: &[u8]) -> Result<(), WriteFault>
    requires going { writer.old.1 ≡ false }
    ensures writes { WritesWhole (W.contents writer.old.0) (W.contents writer.new.0) result bytes.now }
    ensures tally { writer.new.1 ≡ is_err result }
{
    let mut written = 0;
    while written < bytes.len() {
        let Ok(count) = writer.write(&bytes[written..]) else {
            return Err(WriteFault);
        };
        if count == 0 {
            return Err(WriteFault);
        }
        written += count;
    }
    Ok(())
}
