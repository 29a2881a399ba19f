//! Hints where a run ends early: what the usual cause is, what to do, and where the file lies that the line names.
use super::give;
use super::kinds::kind_at;
use crate::audience::Audience;
use crate::fault::{RunFault, TokenRefusal};
use binlog_feed::What;
use std::fs;
use std::io::Eprint;
use std::os::unix::fs::FileTypeExt;
use std::rt::Files;

/// What the system calls the standard output of this process.
const OUTPUT: &str = "/proc/self/fd/1";

/// Says what a fault means, and the path of its file as it was given.
#[cold]
#[inline(never)]
pub(crate) fn hint_run<R: Eprint + Files>(
    rt: &R,
    audience: Audience,
    fault: &RunFault,
    paths: &[&str],
) {
    if audience.is_person() {
        let path = match file_of(fault) {
            Some(file) => paths.get(file).copied(),
            None => None,
        };
        tell(rt, fault, path);
    }
}

/// Says what a history looks for, where it has found no line.
#[cold]
#[inline(never)]
pub(crate) fn hint_no_line<R: Eprint>(rt: &R, audience: Audience) {
    if audience.is_person() {
        give(
            rt,
            "no change in the files has this schema, table and key: a key has the value of each key column, of its type and in the key's order, as lines have them",
        );
    }
}

/// Says what a fault means, and the path of its file.
pub(super) fn tell<R: Eprint + Files>(rt: &R, fault: &RunFault, path: Option<&str>) {
    give(rt, cause(rt, fault, path));
    if let Some(path) = path
        && path.as_bytes().iter().any(|byte| *byte == b'/')
    {
        let _ = rt.eprint("hint: the file is ");
        let _ = rt.eprintln(path);
    }
}

/// The file that a fault's line names, by its number in the list.
pub(super) fn file_of(fault: &RunFault) -> Option<usize> {
    match fault {
        RunFault::DuplicateFile(file) | RunFault::Read(file) => Some(*file),
        RunFault::Log(fault) => Some(fault.file),
        RunFault::Token(_) | RunFault::Write | RunFault::OutOfMemory => None,
    }
}

/// What a fault mostly comes from, and what to do.
fn cause<R: Files>(rt: &R, fault: &RunFault, path: Option<&str>) -> &'static str {
    match fault {
        RunFault::DuplicateFile(_) => {
            "a token names its file without the folder, so no two files of a list may have one name"
        }
        RunFault::Token(TokenRefusal::NoFile) => {
            "the token's file isn't among the files: give it, or where it was purged take a new copy of the tables"
        }
        RunFault::Token(TokenRefusal::NoTransaction) => {
            "the token is of another log with that name, or the server lost the log's end when its machine lost power or crashed"
        }
        RunFault::Token(TokenRefusal::NoChange) => "the token is of another log with that name",
        RunFault::Log(fault) => match fault.what {
            What::BadMagic => cause_of_magic(rt, path),
            what => cause_in_log(what),
        },
        RunFault::Read(_) => {
            "the device failed, or the file is one behind the 64th and was purged since the run began: go on from the last line's token"
        }
        RunFault::Write => cause_of_write(rt),
        RunFault::OutOfMemory => {
            "an event takes its length in memory: free some, and go on from the last line's token"
        }
    }
}

/// Why the output can't be written, by what it is.
fn cause_of_write<R: Files>(rt: &R) -> &'static str {
    if let Ok(about) = fs::metadata(rt, OUTPUT) {
        if about.is_file() {
            return "the disk is full, or the file may not get longer: go on from the token of the last whole line";
        }
        if about.file_type().is_fifo() || about.file_type().is_socket() {
            return "nobody reads the lines any more: go on from the token of the last line that was taken";
        }
    }
    "the disk is full, or who takes the lines has ended: go on from the token of the last line that was taken"
}

/// What a file is that doesn't begin as a log does.
fn cause_of_magic<R: Files>(rt: &R, path: Option<&str>) -> &'static str {
    if let Some(path) = path
        && let Some(kind) = kind_at(rt, path)
    {
        return kind;
    }
    NO_LOG
}

const NO_LOG: &str = "the file is no binary log: give the logs that the server's index names";

const DAMAGED: &str = "the file is damaged: copy it anew";

const NOT_ONE_LOG: &str =
    "the file is a relay log, or two logs in one, or a copy that was written on: give the server's binary logs, or copy them anew";

const XA: &str = "XA transactions aren't read";

/// What a fault of a log mostly comes from, and what to do.
fn cause_in_log(what: What) -> &'static str {
    match what {
        What::BadMagic => NO_LOG,
        What::NoFormat | What::BadFormat | What::ChecksumUnknown => {
            "the log is damaged, or of another product: copy it anew"
        }
        What::BadLength => {
            "the file is damaged (zeros after a full disk, say), or two logs in one: copy it anew"
        }
        What::EventAfterEnd => NOT_ONE_LOG,
        What::KindOutOfProfile(kind) => cause_of_kind(kind),
        What::Xa => XA,
        What::RollbackTo => {
            "the transaction took a part of itself back, and had changed a table without transactions (MyISAM): keep such tables out of it"
        }
        What::RotationMismatch => {
            "the file names another one as the next than the list does: give all files, in the order of the server's index"
        }
        What::TypeOutOfProfile(column_type) => cause_of_type(column_type),
        What::NoColumnNames => {
            "the names of the columns aren't in the log: read it with --profile server, or set binlog_row_metadata=FULL, and begin with a new \
            file (FLUSH BINARY LOGS)"
        }
        What::SourceChanged => {
            "the file was changed while it was read: go on from the last line's token"
        }
        What::BadBody | What::OutOfPlace(_) | What::BadMap | What::BadRows | What::UnmappedTable =>
            DAMAGED,
    }
}

/// What an event of a kind that isn't read comes from, and what to do.
fn cause_of_kind(kind: u8) -> &'static str {
    match kind {
        15 => NOT_ONE_LOG,
        23..=25 => {
            "these are rows as before MySQL 5.6: set log_bin_use_v1_row_events=OFF, and begin with a new file (FLUSH BINARY LOGS)"
        }
        26 => {
            "the server itself says here that changes are missing in its log: take a new copy of the tables"
        }
        38 => XA,
        39 => {
            "a part of a JSON value was changed: empty binlog_row_value_options, and begin with a new file (FLUSH BINARY LOGS)"
        }
        40 => {
            "the transaction is compressed: set binlog_transaction_compression=OFF, and begin with a new file (FLUSH BINARY LOGS)"
        }
        42 => "GTIDs with tags, as MySQL 8.3 and later write them, aren't read",
        160..=255 => "this is a log of MariaDB, and only those of MySQL are read",
        _ => "events of this kind aren't read",
    }
}

/// What a column of a type that isn't read comes from, and what to do.
fn cause_of_type(column_type: u8) -> &'static str {
    match column_type {
        7 | 11 | 12 => {
            "a date or a time of a table that was made before MySQL 5.6.4 isn't read: ALTER TABLE .. FORCE makes the column new"
        }
        242 =>
            "VECTOR columns aren't read by the strict profile: read the log with --profile server",
        _ => "columns of this type aren't read",
    }
}
