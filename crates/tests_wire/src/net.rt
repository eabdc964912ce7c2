//! Tests of the reader of recordings, of fragments, of copies, of tunnels and of headers that are not read.

mod copies;
mod fragments;
mod recordings;
mod tunnels;
mod unread;
