/// Whether a reader goes on; F is why it may fail.
#[derive(Clone, Copy)]
pub enum Standing<F> {
    /// Something more, or the end, is due.
    Open,
    /// What is read has ended without a fault.
    Over,
    /// It answers this fault for good.
    Failed(F),
}
