//! Lists of paths on an input: the clock of a run that follows.
ghost use Rattle.std.specs.Prelude.{◌≡◌, IfOk};
ghost use Rattle.binlogfeed.specs.FollowReads.{TakesLine, TakesList};

use std::alloc::{AllocError, AllocFailed, Global};
use std::io::{BufRead, Error, ErrorKind};

/// Why no list was read.
#[derive(Clone, Copy, Debug, PartialEq, Eq)]
pub enum ListFault {
    /// The input can't be read, or a path isn't UTF-8.
    Unreadable,
    /// A growth was refused.
    OutOfMemory,
}

impl From<AllocError> for ListFault {
    ghost use Rattle.binlogfeed.specs.declared.lists.ListFault.TheVariants.{OutOfMemory};

    ghost from_gives = { λ _ fault. fault ≡ OutOfMemory };

    fn from(_: AllocError) -> ListFault {
        ListFault::OutOfMemory
    }
}

impl<T: Drop> From<AllocFailed<T>> for ListFault {
    ghost use Rattle.binlogfeed.specs.declared.lists.ListFault.TheVariants.{OutOfMemory};

    ghost from_gives = { λ _ fault. fault ≡ OutOfMemory };

    fn from(_: AllocFailed<T>) -> ListFault {
        ListFault::OutOfMemory
    }
}

/// Why a line can't be read.
fn unreadable(error: &Error) -> ListFault {
    match error.kind() {
        ErrorKind::OutOfMemory => ListFault::OutOfMemory,
        _ => ListFault::Unreadable,
    }
}

/// Reads a line, without its line feed. Where the input ends before a line feed, there is no line more.
fn next_line<B: BufRead>(alloc: Global, input: &mut B) -> Result<Option<Vec<u8>>, ListFault>
    ensures { IfOk result (TakesLine B.Read input.old input.new) }
{
    let mut line = Vec::new(alloc);
    if let Err(error) = input.read_until(b'\n', &mut line) {
        return Err(unreadable(&error));
    }
    if line.pop() == Some(b'\n') {
        Ok(Some(line))
    } else {
        Ok(None)
    }
}

/// Reads a list of paths: lines up to an empty one. Where the input ends before an empty line, there is no list more.
pub(crate) fn next_list<B: BufRead>(
    alloc: Global,
    input: &mut B,
) -> Result<Option<Vec<String>>, ListFault>
    ensures { IfOk result (TakesList B.Read input.old input.new) }
{
    let mut paths = Vec::new(alloc);
    // No list has so many lines. The bound shows that this ends.
    'lines: for _ in 0..u64::MAX {
        let Some(line) = next_line(alloc, input)? else {
            return Ok(None);
        };
        if line.is_empty() {
            return Ok(Some(paths));
        }
        match String::from_utf8(line) {
            Ok(path) => paths.push(path)?,
            Err(_) => return Err(ListFault::Unreadable),
        }
    }
    Err(ListFault::Unreadable)
}
