ghost use Rattle.std.specs.Prelude.{◌≡◌};

use crate::fault::PacketFault;
use crate::kinds::{Mode, Side};
use crate::options::OptionsView;
use crate::text::{read_mode, split_string};
use std::marker::Model;

/// The longest request with options, without its opcode (RFC 2347).
const BODY_MAX: usize = 510;

/// A request that lies in a payload (RFC 1350, section 5). Only `read_packet` makes one.
#[derive(Debug, Drop)]
pub struct RequestView<'a> {
    side: Side,
    name: &'a [u8],
    mode: Mode,
    options: OptionsView<'a>,
}

impl<'a> Model for RequestView<'a> {
    ghost use Rattle.tftp_packet.specs.Written.{WrittenRequest};

    ghost Value = { WrittenRequest };

    ghost view = { λ request. record { side = request.side; name = request.name.now; mode = request.mode; pairs = request.options } };
}

impl<'a> RequestView<'a> {
    ghost use Rattle.std.specs.Prelude.{◌≡◌, ◌∷◌, ℕ, List, IfOk, IfErr};
    ghost use Rattle.tftp_packet.specs.Written.{parts};
    ghost use Rattle.tftp_packet.specs.Spelling.{side_opcode, SpellsRequest};
    ghost use Rattle.tftp_packet.specs.AsWritten.{IsWrittenRequest};
    ghost use Rattle.tftp_packet.specs.Faults.{FirstFault};

    /// The request whose bytes after the opcode are these.
    pub(crate) fn read(side: Side, body: &'a [u8]) -> Result<Self, PacketFault>
        ensures ok { IfOk result (λ request. SpellsRequest (0 ∷ side_opcode side ∷ body.now) (parts request)) }
        ensures written { IfOk result (IsWrittenRequest (0 ∷ side_opcode side ∷ body.now)) }
        ensures err { IfErr result (FirstFault (0 ∷ side_opcode side ∷ body.now)) }
    {
        let Some((name, rest)) = split_string(body) else {
            return Err(PacketFault::NoTerminator);
        };
        let Some((mode_text, rest)) = split_string(rest) else {
            return Err(PacketFault::NoTerminator);
        };
        let options = OptionsView::read(rest)?;
        let mode = read_mode(mode_text)?;
        if !rest.is_empty() && body.len() > BODY_MAX {
            return Err(PacketFault::RequestTooLong);
        }
        Ok(RequestView {
            side,
            name,
            mode,
            options,
        })
    }

    /// Which way the file goes.
    #[inline]
    pub fn side(&self) -> Side
        ensures { result ≡ self.now.side }
    {
        self.side
    }

    /// The file's name: bytes of the payload, perhaps none.
    #[inline]
    pub fn name(&self) -> &'a [u8]
        ensures { result.now ≡ self.now.name }
    {
        self.name
    }

    /// How the file goes over the wire.
    #[inline]
    pub fn mode(&self) -> Mode
        ensures { result ≡ self.now.mode }
    {
        self.mode
    }

    /// The options that it asks for (RFC 2347), perhaps none.
    #[inline]
    pub fn options(&self) -> OptionsView<'a>
        ensures { result ≡ self.now.pairs }
    {
        self.options.again()
    }
}
