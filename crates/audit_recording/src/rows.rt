//! Which verdicts are told of a transfer, by the points at which it was judged, and whom a refusal accuses.

mod accused;
pub mod laws;
mod row;
mod said;
mod telling;

pub use accused::{Accused, accused_in_row, role_at};
pub use row::{Place, Point, Row, Rows, rows_told};
pub use said::Said;
pub use telling::Telling;
