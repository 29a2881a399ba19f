//! Why a run ended early: its line on standard error, and the program's status.
ghost use Rattle.std.specs.Prelude.{◌≡◌, OnOk};
ghost use Rattle.binlogfeed.specs.Faults.{what_text, refusal_text, fault_text, fault_of_adding, status_of, IsNamed};

use binlog_feed::{LogFault, OpenFeedFault, What};
use binlog_frame::Logs;
use line_output::AddFault;
use std::alloc::AllocError;
use std::fmt;

/// Why a run ended before the end of the files. Files go by their number in the list, from 0.
#[derive(Clone, Copy, Debug, PartialEq, Eq)]
pub enum RunFault {
    /// The file with this number is the first that has the name of an earlier one.
    DuplicateFile(usize),
    /// The token behind which the run was to begin is refused.
    Token(TokenRefusal),
    /// An event can't be taken in.
    Log(LogFault),
    /// The device failed in the file with this number.
    Read(usize),
    /// A write or the flush failed, or a write took nothing.
    Write,
    /// A growth was refused.
    OutOfMemory,
}

/// Why a token is refused.
#[derive(Clone, Copy, Debug, PartialEq, Eq)]
pub enum TokenRefusal {
    /// No file has its name.
    NoFile,
    /// No whole transaction or statement of its file begins at its position.
    NoTransaction,
    /// The one that begins there gives fewer changes.
    NoChange,
}

impl From<OpenFeedFault> for RunFault {
    ghost use Rattle.binlogfeed.specs.Faults.{fault_of_opening};

    ghost from_gives = { λ opening fault. fault ≡ fault_of_opening opening };

    fn from(opening: OpenFeedFault) -> RunFault {
        match opening {
            OpenFeedFault::DuplicateFile(file) => RunFault::DuplicateFile(file),
            OpenFeedFault::TokenNoFile => RunFault::Token(TokenRefusal::NoFile),
            OpenFeedFault::TokenNoTransaction => RunFault::Token(TokenRefusal::NoTransaction),
            OpenFeedFault::TokenNoChange => RunFault::Token(TokenRefusal::NoChange),
            OpenFeedFault::Log(fault) => RunFault::Log(fault),
            OpenFeedFault::Read { file } => RunFault::Read(file),
            // No run leaves it at a window that is too small: there was no memory for a larger one.
            OpenFeedFault::WindowTooSmall { .. } => RunFault::OutOfMemory,
            OpenFeedFault::OutOfMemory => RunFault::OutOfMemory,
        }
    }
}

/// Shows what is wrong with an event by its name, with its number in round brackets where it has one.
#[derive(Clone, Copy)]
struct Shown(What);

impl fmt::Display for Shown {
    ghost use Rattle.std.specs.Prelude.{Some};
    ghost use Rattle.binlogfeed.specs.Faults.{what_text};

    ghost output = { λ shown. Some (what_text shown.0) };

    fn fmt<W: fmt::Write>(&self, f: &mut fmt::Formatter<W>) -> fmt::Result {
        let (name, number) = name_and_number(self.0);
        match number {
            Some(number) => write!(f, "{name}({number})"),
            None => write!(f, "{name}"),
        }
    }
}

ghost use Rattle.binlogfeed.specs.Shown.{shown_as};

/// The name of what is wrong with an event, and its number where it has one.
fn name_and_number(what: What) -> (&'static str, Option<u8>)
    ensures { what_text what ≡ shown_as result.0.now result.1 }
{
    match what {
        What::BadMagic => ("BadMagic", None),
        What::NoFormat => ("NoFormat", None),
        What::BadFormat => ("BadFormat", None),
        What::ChecksumUnknown => ("ChecksumUnknown", None),
        What::BadLength => ("BadLength", None),
        What::EventAfterEnd => ("EventAfterEnd", None),
        What::KindOutOfProfile(kind) => ("KindOutOfProfile", Some(kind)),
        What::BadBody => ("BadBody", None),
        What::Xa => ("Xa", None),
        What::RollbackTo => ("RollbackTo", None),
        What::OutOfPlace(kind) => ("OutOfPlace", Some(kind)),
        What::RotationMismatch => ("RotationMismatch", None),
        What::BadMap => ("BadMap", None),
        What::TypeOutOfProfile(column_type) => ("TypeOutOfProfile", Some(column_type)),
        What::NoColumnNames => ("NoColumnNames", None),
        What::BadRows => ("BadRows", None),
        What::UnmappedTable => ("UnmappedTable", None),
        What::SourceChanged => ("SourceChanged", None),
    }
}

/// The name by which a token is refused.
fn refusal_name(refusal: TokenRefusal) -> &'static str
    ensures { result.now ≡ refusal_text refusal }
{
    match refusal {
        TokenRefusal::NoFile => "TokenNoFile",
        TokenRefusal::NoTransaction => "TokenNoTransaction",
        TokenRefusal::NoChange => "TokenNoChange",
    }
}

/// Appends the line of a fault, without its line feed. Where it finds no memory, nothing is said of what was appended.
pub fn fault_line<L: Logs>(fault: &RunFault, logs: &L, line: &mut String) -> Result<(), AllocError>
    requires { IsNamed (L.names logs.now) fault.now }
    ensures { OnOk result (Gains line.old line.new (fault_text (L.names logs.now) fault.now)) }
{
    match fault {
        RunFault::DuplicateFile(file) => {
            let name = file_name(logs, *file);
            write!(line, "binlogfeed: duplicate file {name}")
        }
        RunFault::Token(refusal) => {
            let name = refusal_name(*refusal);
            write!(line, "binlogfeed: token refused: {name}")
        }
        RunFault::Log(fault) => {
            let name = file_name(logs, fault.file);
            let position = fault.position;
            let what = Shown(fault.what);
            write!(line, "binlogfeed: log fault at {name}:{position}: {what}")
        }
        RunFault::Read(file) => {
            let name = file_name(logs, *file);
            write!(line, "binlogfeed: read fault: {name}")
        }
        RunFault::Write => line.push_str("binlogfeed: write fault"),
        RunFault::OutOfMemory => line.push_str("binlogfeed: out of memory"),
    }
}

ghost use Rattle.std.specs.Prelude.{◌<◌, length};
ghost use Rattle.binlogfeed.specs.Faults.{name_of};
ghost use Rattle.binlogfeed.specs.LineSteps.{Gains};

/// The name of a file of the list.
pub(crate) fn file_name<L: Logs>(logs: &L, file: usize) -> &str
    requires { file < length (L.names logs.now) }
    ensures { result.now ≡ name_of (L.names logs.now) file }
{
    logs.name(file)
}

/// The status with which the program ends.
pub fn status(fault: &RunFault) -> u8
    ensures { result ≡ status_of fault.now }
{
    match fault {
        RunFault::Log(_) => 1,
        RunFault::DuplicateFile(_) => 2,
        RunFault::Token(_) => 3,
        RunFault::Read(_) | RunFault::Write => 4,
        RunFault::OutOfMemory => 5,
    }
}

/// Why a run ends where a line was not added.
pub(crate) fn fault_of_adding(fault: AddFault) -> RunFault
    ensures { result ≡ fault_of_adding fault }
{
    match fault {
        AddFault::Write => RunFault::Write,
        AddFault::OutOfMemory => RunFault::OutOfMemory,
    }
}
