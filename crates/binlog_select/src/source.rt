//! Sources of transactions.

/// A server, and a tag or none.
///
/// The server is the number of its UUID's 128 bits, the first byte highest. So are the tag's first 16
/// bytes and those behind them, with zeros behind the last. Both are 0 where there is no tag. So sources
/// are in the order of their bytes.
#[derive(Clone, Copy, PartialEq, Eq, PartialOrd, Ord)]
pub struct Source {
    pub server: u128,
    pub high: u128,
    pub low: u128,
}
