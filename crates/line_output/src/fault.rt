//! Why text doesn't go out.
ghost use Rattle.std.specs.Prelude.{◌≡◌};

use std::alloc::AllocError;

/// A write or the flush failed, or a write took nothing.
#[derive(Clone, Copy)]
pub struct WriteFault;

/// Why a line was not added.
#[derive(Clone, Copy)]
pub enum AddFault {
    Write,
    OutOfMemory,
}

impl From<WriteFault> for AddFault {
    ghost use Rattle.line_output.specs.declared.fault.AddFault.TheVariants.{Write};

    ghost from_gives = { λ _ fault. fault ≡ Write };

    fn from(_: WriteFault) -> AddFault {
        AddFault::Write
    }
}

impl From<AllocError> for AddFault {
    ghost use Rattle.line_output.specs.declared.fault.AddFault.TheVariants.{OutOfMemory};

    ghost from_gives = { λ _ fault. fault ≡ OutOfMemory };

    fn from(_: AllocError) -> AddFault {
        AddFault::OutOfMemory
    }
}
