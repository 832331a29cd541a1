//! When the turns of a plan start, and when its hits end.

/// When the turns of a plan start and its hits end, in generations from 0 on.
#[derive(Debug, Drop)]
pub struct Schedule {
    /// The start of each turn, in order.
    pub starts: Vec<u64>,
    /// The end of each hit, in order.
    pub hit_ends: Vec<u64>,
    /// The greater of the end of the last turn and the end of the last hit.
    pub n: u64,
}
