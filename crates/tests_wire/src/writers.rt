//! Tests of the writers of capture texts, of what is gathered before it is written, and of who is asked for a call.

mod asked;
mod gathered;
mod hosts;
mod writes;
mod writing;
