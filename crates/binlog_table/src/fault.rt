//! Why a table map or the body of a rows event is not read.
ghost use Rattle.std.specs.Prelude.{◌≡◌};
ghost use Rattle.binlog_table.specs.declared.fault.MapFault.TheVariants.{OutOfMemory};

use std::alloc::{AllocError, AllocFailed};
use thiserror::Error;

/// Why a table map was not read. The first of these that holds is answered; out of memory comes only where a
/// growth was refused.
#[derive(Clone, Copy, Debug, PartialEq, Eq, Error)]
pub enum MapFault {
    /// The parts don't fill the body, a part is out of range, or bits of signedness or names are missing.
    #[error("the table map has no reading")]
    BadMap,
    /// A column has a type that isn't read; of a CHAR column it is the real type that its metadata gives.
    #[error("column type {0} is out of the profile")]
    TypeOutOfProfile(u8),
    /// The map has no column names, as with `binlog_row_metadata=MINIMAL`.
    #[error("the table map has no column names")]
    NoColumnNames,
    #[error("out of memory")]
    OutOfMemory,
}

impl From<AllocError> for MapFault {
    ghost from_gives = { λ _ e. e ≡ OutOfMemory };

    fn from(_e: AllocError) -> MapFault {
        MapFault::OutOfMemory
    }
}

impl<T: Drop> From<AllocFailed<T>> for MapFault {
    ghost from_gives = { λ _ e. e ≡ OutOfMemory };

    fn from(_e: AllocFailed<T>) -> MapFault {
        MapFault::OutOfMemory
    }
}

/// Why a row was not placed.
#[derive(Clone, Copy, Debug, PartialEq, Eq, Error)]
pub enum PlacedRowFault {
    /// The body of the rows event has no reading under its table map.
    #[error("the rows event has no reading")]
    BadRows,
    #[error("out of memory")]
    OutOfMemory,
}

impl From<AllocError> for PlacedRowFault {
    ghost use Rattle.binlog_table.specs.declared.fault.PlacedRowFault.TheVariants.{OutOfMemory};

    ghost from_gives = { λ _ e. e ≡ OutOfMemory };

    fn from(_e: AllocError) -> PlacedRowFault {
        PlacedRowFault::OutOfMemory
    }
}

/// What a step gave, or its fault as that of the caller. `?` would convert the fault, which is one already, and each
/// early exit would have two calls more to prove.
macro_rules! given {
    ($step:expr) => {
        match $step {
            Ok(value) => value,
            Err(fault) => return Err(fault),
        }
    };
}

pub(crate) use given;

/// The body of a rows event has no reading under its table map.
#[derive(Clone, Copy, Debug, PartialEq, Eq, Error)]
#[error("the rows event has no reading")]
pub struct BadRows;
