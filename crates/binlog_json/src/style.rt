//! The styles of lines.

/// How a change is written as a line.
#[derive(Clone, Copy, Debug, PartialEq, Eq)]
pub enum Style {
    /// With the values as [`line`](crate::line) has them.
    Plain,
    /// With values by the types that the server declared, these types, and the names of the primary key's columns.
    Full,
}
