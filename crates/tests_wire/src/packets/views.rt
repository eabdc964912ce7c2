//! Views of payloads. These functions promise nothing, so that what `read_packet` and others promise is not read again in
//! each test.

use std::test::Fail;
use tftp_packet::{
    OptionsView, Packet, PacketFault, Request, RequestView, own_request, read_packet,
};

/// What a payload spells, or its fault.
pub fn packet_of(payload: &[u8]) -> Result<Packet<'_>, PacketFault> {
    read_packet(payload)
}

/// The request that a payload spells.
pub fn request_of(payload: &[u8]) -> Result<RequestView<'_>, Fail> {
    match packet_of(payload) {
        Ok(Packet::Request(request)) => Ok(request),
        _ => Err(Fail::new("no request")),
    }
}

/// That request, owned.
pub fn owned_request_of(rt: &HostRuntime, payload: &[u8]) -> Result<Request, Fail> {
    let view = request_of(payload)?;
    Ok(own_request(rt.alloc(), &view)?)
}

/// The options of an OACK.
pub fn oack_of(payload: &[u8]) -> Result<OptionsView<'_>, Fail> {
    match packet_of(payload) {
        Ok(Packet::Oack(options)) => Ok(options),
        _ => Err(Fail::new("no OACK")),
    }
}
