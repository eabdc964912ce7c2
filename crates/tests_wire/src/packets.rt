//! Tests of packets, options and hosts, and of what OACKs agree to.

mod agreements;
mod names;
mod packets;
mod views;
