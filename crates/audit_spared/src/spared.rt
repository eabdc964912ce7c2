//! No lawful end is refused without a doubt: no client, and no end at the server.

pub mod laws;
pub mod worked;
