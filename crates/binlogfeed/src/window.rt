//! The window of a run.
ghost use Rattle.std.specs.Prelude.{◌≡◌, IfOk, length};
ghost use Rattle.binlogfeed.specs.Window.{first_window_length};

use std::alloc::{AllocError, Global};

/// The length of a run's first window, in bytes.
const FIRST_LENGTH: usize = 65_536;

/// The window with which a run begins.
pub(crate) fn first_window(alloc: Global) -> Result<Vec<u8>, AllocError>
    ensures { IfOk result (λ window. length window.items ≡ first_window_length) }
{
    window_of(alloc, FIRST_LENGTH)
}

/// A window of so many bytes.
pub(crate) fn window_of(alloc: Global, len: usize) -> Result<Vec<u8>, AllocError>
    ensures { IfOk result (λ window. length window.items ≡ len) }
{
    vec![in alloc; 0u8; len]
}
