//! Netascii, the text mode of TFTP: reading it from the wire, whole or in pieces, and writing it
//! (RFC 1350, section 1, and RFC 764).
#![tactic(auto)]

mod decoder;
mod encoder;
mod in_place;
mod laws;
mod lengths;
mod pieces;
mod runs;

pub use decoder::{Decoder, decode};
pub use encoder::{encode, encoded_len};
pub use in_place::decode_in_place;
pub use laws::{
    canonical_wires_are_the_longest, canonical_wires_are_written_again,
    canonical_wires_read_as_their_files, every_history_has_one_decoder,
    every_wire_reads_as_one_file, worked_examples, worked_lengths,
};
pub use lengths::{Lengths, file_lengths};
pub use pieces::decode_pieces;
