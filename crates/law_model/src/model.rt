//! The two ends of a transfer and the network between them: what each may send, the runs of both, and what one end alone
//! can know of a run. There is no code here: definitions, and laws of them.

pub mod laws;
