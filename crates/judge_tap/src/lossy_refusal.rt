use law_end::Rule;

/// Why the datagrams that were recorded between the ends are not accepted, whatever the recorder missed.
#[derive(Clone, Copy, Debug, PartialEq, Eq)]
pub enum LossyRefusal {
    /// The first datagram that is certain to break the law, counted from 1, and a rule that it breaks whatever is missing.
    Certain(u64, Rule),
    /// A growth was refused, after so many datagrams, for the next one.
    Memory(u64),
}
