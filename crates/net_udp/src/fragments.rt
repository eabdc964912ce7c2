//! Fragments of IP packets, put together in whatever order they come.

mod content;
mod extent;
mod fragments;
mod key;
mod laws;
mod outcome;
mod part;
mod parts;
mod set;

pub use content::Content;
pub use fragments::Fragments;
pub use key::Key;
pub use laws::{
    fragments_come_within_a_minute, last_fragment_gives_the_content, parts_give_one_content,
    parts_in_any_order_are_put_together, parts_in_any_order_give_their_content,
    parts_overlap_at_a_place, worked_overlaps, worked_protocols, worked_times,
};
pub use outcome::Outcome;
pub use part::Part;
