/// Where a packet was recorded. Two packets were recorded at two interfaces if one of the three numbers differs.
#[derive(Clone, Copy, Debug, PartialEq, Eq)]
pub struct Interface {
    /// The section of the recording; 0 in a recording that has none.
    pub section: u64,
    /// The number of the interface in its section; 0 in a recording that numbers none.
    pub number: u64,
    /// The number of the interface by the frame's link header; 0 where that has none.
    pub index: u32,
}
