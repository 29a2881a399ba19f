//! By which profile a list of log files is read.

/// What of a log is taken in, and what is a fault.
#[derive(Clone, Copy, Debug, PartialEq, Eq)]
pub enum Profile {
    /// Only what says all that a line needs: a table map without the names of its columns, or with a VECTOR column, is a fault, and the
    /// statement of a LOAD DATA is passed over.
    Strict,
    /// What servers write by default, too: columns without names are numbered, `@1`, `@2` and so on. VECTOR columns are read, and the
    /// statement of a LOAD DATA counts as that of a QUERY event does.
    Server,
}
