//! Why the words of the command line ask for nothing: the line on standard error, and the program's status.
ghost use Rattle.std.specs.Prelude.{◌≡◌, ◌++◌, OnOk, string_bytes};
ghost use Rattle.binlogfeed.specs.Words.{words_status_of, words_text};

use clap::Error;
use std::alloc::{AllocError, AllocFailed};

/// Why the words ask for nothing.
#[derive(Drop)]
pub enum WordsFault {
    /// They ask for help, which this error holds.
    Help(Error),
    /// They are no command line of the program. The error is the parser's, where it is the parser that refuses them.
    CommandLine(Option<Error>),
    /// This is the first word of `--only-events` that names no kind of change.
    EventName(String),
    /// The element of `--auto-position` with this number, from 0, is the first that can't be read.
    Set(usize),
    /// The text of `--from` is no token.
    Token,
    /// The text of `--key` is no key.
    Key,
    /// The text of `--profile` names no profile.
    ProfileName,
    /// A growth was refused.
    OutOfMemory,
}

impl From<AllocError> for WordsFault {
    ghost use Rattle.binlogfeed.specs.declared.words_fault.WordsFault.TheVariants.{OutOfMemory};

    ghost from_gives = { λ _ fault. fault ≡ OutOfMemory };

    fn from(_: AllocError) -> WordsFault {
        WordsFault::OutOfMemory
    }
}

impl<T: Drop> From<AllocFailed<T>> for WordsFault {
    ghost use Rattle.binlogfeed.specs.declared.words_fault.WordsFault.TheVariants.{OutOfMemory};

    ghost from_gives = { λ _ fault. fault ≡ OutOfMemory };

    fn from(_: AllocFailed<T>) -> WordsFault {
        WordsFault::OutOfMemory
    }
}

/// The status with which the program ends where the words ask for nothing.
pub fn words_status(fault: &WordsFault) -> u8
    ensures { result ≡ words_status_of fault.now }
{
    match fault {
        WordsFault::Help(_) => 0,
        WordsFault::CommandLine(_) | WordsFault::EventName(_) => 2,
        WordsFault::Set(_) | WordsFault::Key | WordsFault::ProfileName => 2,
        WordsFault::Token => 3,
        WordsFault::OutOfMemory => 5,
    }
}

/// Appends the line of a fault, without its line feed, and nothing for help. Where it finds no memory, nothing is said of
/// what was appended.
pub fn words_line(fault: &WordsFault, line: &mut String) -> Result<(), AllocError>
    ensures { OnOk result (string_bytes line.new ≡ string_bytes line.old ++ words_text fault.now) }
{
    match fault {
        WordsFault::Help(_) => Ok(()),
        WordsFault::CommandLine(_) => line.push_str("binlogfeed: command line refused"),
        WordsFault::EventName(word) => write!(line, "binlogfeed: bad --only-events: {word}"),
        WordsFault::Set(at) => write!(line, "binlogfeed: bad --auto-position: element {at}"),
        WordsFault::Token => line.push_str("binlogfeed: token refused: BadToken"),
        WordsFault::Key => line.push_str("binlogfeed: bad --key"),
        WordsFault::ProfileName => line.push_str("binlogfeed: bad --profile"),
        WordsFault::OutOfMemory => line.push_str("binlogfeed: out of memory"),
    }
}
