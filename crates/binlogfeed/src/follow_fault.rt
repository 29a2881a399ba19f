//! Why a run that follows has ended: its line on standard error, and the program's status.
ghost use Rattle.std.specs.Prelude.{◌≡◌, OnOk};
ghost use Rattle.binlogfeed.specs.Coming.{fault_of_reading};
ghost use Rattle.binlogfeed.specs.Faults.{name_of};
ghost use Rattle.binlogfeed.specs.Follow.{follow_status_of, input_text, refusal_status_of, NamesFiles};
ghost use Rattle.binlog_feed.specs.Growing.{last_file};
ghost use Rattle.binlogfeed.specs.LineSteps.{Gains};
ghost use Rattle.binlogfeed.specs.LookSteps.{refusal_in};

use crate::fault::{RunFault, fault_line, file_name, status};
use crate::lists::ListFault;
use binlog_feed::{FeedFault, GoOnFault};
use binlog_frame::{Logs, OpenFault};
use std::alloc::AllocError;

/// Why a run that follows has ended before its input did.
#[derive(Clone, Copy, Debug, PartialEq, Eq)]
pub enum FollowFault {
    /// The input of lists can't be read, or memory was wanting for a list.
    Input(ListFault),
    /// A path of the newest list is refused.
    Unopened(OpenFault),
    /// The first look did not begin.
    NotBegun(RunFault),
    /// The newest list is refused, or the files of the look before it can't be read to their end.
    Refused(GoOnFault),
    /// The newest look ended early.
    Ended(RunFault),
}

/// The line of an input of lists that can't be read, without its line feed.
pub(crate) fn input_line(fault: ListFault) -> &'static str
    ensures { result.now ≡ input_text fault }
{
    match fault {
        ListFault::Unreadable => "binlogfeed: cannot read the list of files",
        ListFault::OutOfMemory => "binlogfeed: out of memory",
    }
}

/// The fault of a run that a reader's fault ends. A window that is too small is one for which memory was wanting.
pub(crate) fn fault_of_reading(fault: FeedFault) -> RunFault
    ensures { result ≡ fault_of_reading fault }
{
    match fault {
        FeedFault::Log(fault) => RunFault::Log(fault),
        FeedFault::Read { file } => RunFault::Read(file),
        FeedFault::WindowTooSmall { .. } => RunFault::OutOfMemory,
        FeedFault::OutOfMemory => RunFault::OutOfMemory,
    }
}

/// The name of the last file of a list.
fn last_name<L: Logs>(logs: &L) -> &str
    ensures { result.now ≡ name_of (L.names logs.now) (last_file (L.names logs.now)) }
{
    let count = logs.count();
    if count == 0 { "" } else { logs.name(count - 1) }
}

/// Appends the line of a list that is refused behind earlier logs, without its line feed. Where it finds no memory, nothing is said of what
/// was appended.
pub(crate) fn refusal_line<L: Logs>(
    fault: &GoOnFault,
    earlier: &L,
    logs: &L,
    line: &mut String,
) -> Result<(), AllocError>
    requires { NamesFiles (L.names earlier.now) (L.names logs.now) fault.now }
    ensures { OnOk result (Gains line.old line.new (refusal_in L.Logs earlier.now logs.now fault.now)) }
{
    match fault {
        GoOnFault::NotAtEnd => Ok(()),
        GoOnFault::DuplicateFile(file) => fault_line(&RunFault::DuplicateFile(*file), logs, line),
        GoOnFault::OutOfOrder(file) => {
            let name = file_name(logs, *file);
            write!(line, "binlogfeed: file out of order: {name}")
        }
        GoOnFault::FileGone => {
            let name = last_name(earlier);
            write!(line, "binlogfeed: file gone: {name}")
        }
        GoOnFault::FileShorter => {
            let name = last_name(earlier);
            write!(line, "binlogfeed: file shorter: {name}")
        }
        GoOnFault::Earlier(fault) => fault_line(&fault_of_reading(*fault), earlier, line),
        GoOnFault::Later(fault) => fault_line(&fault_of_reading(*fault), logs, line),
    }
}

/// The status with which the program ends where a list is refused.
fn refusal_status(fault: GoOnFault) -> u8
    ensures { result ≡ refusal_status_of fault }
{
    match fault {
        GoOnFault::NotAtEnd => 1,
        GoOnFault::DuplicateFile(_) | GoOnFault::OutOfOrder(_) => 2,
        GoOnFault::FileGone | GoOnFault::FileShorter => 3,
        GoOnFault::Earlier(fault) | GoOnFault::Later(fault) => status(&fault_of_reading(fault)),
    }
}

/// The status with which the program ends.
pub(crate) fn follow_status(ending: &Result<(), FollowFault>) -> u8
    ensures { result ≡ follow_status_of ending.now }
{
    match ending {
        Ok(()) => 0,
        Err(FollowFault::Input(ListFault::Unreadable)) => 4,
        Err(FollowFault::Input(ListFault::OutOfMemory)) => 5,
        Err(FollowFault::Unopened(OpenFault::OutOfMemory)) => 5,
        Err(FollowFault::Unopened(_)) => 4,
        Err(FollowFault::NotBegun(fault)) => status(fault),
        Err(FollowFault::Refused(fault)) => refusal_status(*fault),
        Err(FollowFault::Ended(fault)) => status(fault),
    }
}
