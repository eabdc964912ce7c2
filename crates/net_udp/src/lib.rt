//! The UDP datagrams of a recording: its frames and the IP packets that they carry, fragments put together in whatever
//! order they come, and copies of packets that several interfaces of a host recorded.
#![tactic(auto)]

pub mod copies;
pub mod fragments;
pub mod frames;
pub mod recording;
