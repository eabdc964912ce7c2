//! The parties of a recorded datagram: an IP address becomes a host of a judge, with its name.

pub mod laws;
mod naming;

pub use naming::{address_of, host_of, party_of};
