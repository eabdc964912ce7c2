//! Frames of a network's recording: the IP packets that they carry, and the UDP datagrams of these.

mod address;
mod checksum;
mod extension;
mod fault;
mod frame;
mod ip;
mod laws;
mod link;
mod number;
mod over_udp;
mod packet;
mod tag;
mod tunnel;
mod tunnel_laws;
mod udp;
mod unreachable;
mod unread;
mod unread_laws;

pub use address::write_address;
pub use checksum::Checksum;
pub use fault::{FrameFault, UdpFault};
pub use frame::{read_frame, read_hosts};
pub use laws::{
    addresses_are_one_if_written_the_same, content_is_one_datagram, first_fault_is_one,
    frame_spells_one_packet, spelled_frame_has_no_fault, worked_addresses, worked_checksums,
    worked_datagrams, worked_families, worked_faults, worked_frames, worked_identifications,
    worked_indexes, worked_shims, worked_tunnels, worked_unreachable,
};
pub use link::interface_index;
pub use packet::{Direction, Fragment, IpPacket, UdpDatagram};
pub use tunnel_laws::{
    tftp_opens_no_tunnel, worked_closed_tunnels, worked_mirrors, worked_over_udp, worked_paths,
};
pub use udp::read_udp;
pub use unreachable::{Quoted, Unreachable, read_unreachable};
pub use unread::{UnreadHeader, unread_header};
pub use unread_laws::{
    unread_header_is_one, what_hides_has_a_name, worked_unread_in_packets, worked_unread_on_links,
};
