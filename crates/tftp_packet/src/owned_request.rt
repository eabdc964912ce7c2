ghost use Rattle.std.specs.Prelude.{◌≡◌, ◌↔◌, IsTrue, IfOk};
ghost use Rattle.tftp_packet.specs.Written.{parts};

use crate::byte_list::Bytes;
use crate::kinds::{Mode, Side};
use crate::owned_options::{Options, own_options};
use crate::request::RequestView;
use crate::same::same_options;
use std::alloc::{AllocError, Global};
use std::marker::Model;

/// What a request says (RFC 1350, section 5; RFC 2347). Only `own_request` makes one.
#[derive(Debug, Drop)]
pub struct Request {
    side: Side,
    name: Bytes,
    mode: Mode,
    options: Options,
}

impl Model for Request {
    ghost use Rattle.tftp_packet.specs.Messages.{RequestParts};
    ghost use Rattle.tftp_packet.specs.Owned.{parts_code};

    ghost Value = { RequestParts };

    ghost coded = { parts_code };

    ghost view = { λ request. record { side = request.side; name = request.name; mode = request.mode; options = request.options } };
}

impl Request {
    /// Which way the file goes.
    pub fn side(&self) -> Side
        ensures { result ≡ self.now.side }
    {
        self.side
    }

    /// The file's name, perhaps without bytes.
    pub fn name(&self) -> &[u8]
        ensures { result.now ≡ self.now.name }
    {
        self.name.as_slice()
    }

    /// How the file goes over the wire.
    pub fn mode(&self) -> Mode
        ensures { result ≡ self.now.mode }
    {
        self.mode
    }

    /// The options that it asks for (RFC 2347), perhaps none.
    pub fn options(&self) -> &Options
        ensures { result.now ≡ self.now.options }
    {
        &self.options
    }
}

/// The meaning of a request that lies in a payload.
pub fn own_request(alloc: Global, view: &RequestView<'_>) -> Result<Request, AllocError>
    ensures { IfOk result (λ request. request ≡ parts view.now) }
{
    let name = Vec::from_slice(alloc, view.name())?;
    let options = own_options(alloc, &view.options())?;
    Ok(Request {
        side: view.side(),
        name: Bytes::of(name),
        mode: view.mode(),
        options,
    })
}

/// Whether a request and one that lies in a payload say the same.
pub fn same_request(request: &Request, view: &RequestView<'_>) -> bool
    ensures { IsTrue result ↔ (request.now ≡ parts view.now) }
{
    request.side == view.side()
        && request.mode == view.mode()
        && request.name.as_slice() == view.name()
        && same_options(&request.options, &view.options())
}
