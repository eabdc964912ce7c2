//! Tests of recordings, fragments and copies, and of packets, options, hosts, netascii and capture texts; a reading of such
//! a text, for the tests of what is judged; and what the tests share.
#![tactic(auto)]

#[cfg(test)]
mod captures;
#[cfg(test)]
mod net;
#[cfg(test)]
mod netascii;
#[cfg(test)]
mod packets;
pub mod trials;
#[cfg(test)]
mod writers;
