//! TFTP packets and options: what a payload spells, and what is written for it.
#![tactic(auto)]

mod byte_list;
mod fault;
pub mod hosts;
mod kinds;
mod laws;
mod name_marks;
mod name_order;
mod option_check;
mod options;
mod owned_options;
mod owned_request;
mod packet;
mod request;
pub mod rounds;
mod same;
mod text;
mod value;
mod write;

pub use byte_list::Bytes;
pub use fault::PacketFault;
pub use kinds::{End, Mode, Side};
pub use laws::{
    bytes_spell_blocks_of_two_bytes, canonical_is_shortest, canonical_spells, first_fault_is_one,
    map_of_options, spelled_has_no_fault, spells_one_message, worked_canonicals, worked_faults,
    worked_mode_faults, worked_option_faults, worked_spellings, worked_values, worked_written,
    written_is_one,
};
pub use options::{OptionsView, Pairs};
pub use owned_options::{Options, own_options};
pub use owned_request::{Request, own_request, same_request};
pub use packet::{Packet, ack_of, block_of, opcode, read_packet};
pub use request::RequestView;
pub use same::same_options;
pub use value::Value;
pub use write::{write_oack, write_packet, write_request};
