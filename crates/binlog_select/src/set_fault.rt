//! Why a text is no GTID set.
use std::alloc::{AllocError, AllocFailed};
use thiserror::Error;

/// Why a text gave no set.
///
/// `BadSet` has the number, from 0, of the first element that isn't one.
#[derive(Clone, Copy, Debug, PartialEq, Eq, Error)]
pub enum SetFault {
    #[error("bad element {at}")]
    BadSet { at: usize },
    #[error("out of memory")]
    OutOfMemory,
}

impl From<AllocError> for SetFault {
    ghost use Rattle.std.specs.Prelude.{◌≡◌};
    ghost use Rattle.binlog_select.specs.declared.set_fault.SetFault.TheVariants.{OutOfMemory};

    ghost from_gives = { λ _ fault. fault ≡ OutOfMemory };

    fn from(_error: AllocError) -> SetFault {
        SetFault::OutOfMemory
    }
}

impl<T: Drop> From<AllocFailed<T>> for SetFault {
    ghost use Rattle.std.specs.Prelude.{◌≡◌};
    ghost use Rattle.binlog_select.specs.declared.set_fault.SetFault.TheVariants.{OutOfMemory};

    ghost from_gives = { λ _ fault. fault ≡ OutOfMemory };

    fn from(_error: AllocFailed<T>) -> SetFault {
        SetFault::OutOfMemory
    }
}
