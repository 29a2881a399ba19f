//! An interval of transaction numbers of one source.

use crate::source::Source;

/// The numbers of one source from `first` to `last`, both of them included.
#[derive(Clone, Copy, PartialEq, Eq, PartialOrd, Ord)]
pub struct Interval {
    pub source: Source,
    pub first: u64,
    pub last: u64,
}
