//! The definitions of sources of files and their names.
ghost use Rattle.std.specs.Prelude.{◌≡◌, IsTrue};
ghost use Rattle.binlog_frame.specs.FileLogs.{is_honest};
ghost use Rattle.binlog_samples.specs.Sources.{TrueReads, FalseReads, ManyReads, Lengths, Rises, Kept, NotKept, LastParts, NoLastParts, PathsRefused, PathsNotRefused, Duplicates};

use binlog_frame::{FileLogs, Logs, MemoryLogs};
use std::rt::Files;

/// What files can give, and what a call on a source keeps.
pub fn sample_sources()
    ensures true_reads { TrueReads }
    ensures false_reads { FalseReads }
    ensures many_reads { ManyReads }
    ensures lengths { Lengths }
    ensures rises { Rises }
    ensures kept { Kept }
    ensures not_kept { NotKept }
{}

/// Which sources are honest: files in memory always are, and files of the system by the definition of `honest_files`.
pub fn sample_honesty<R: Files + Drop>(files: &FileLogs<R, R::File>, memory: &MemoryLogs)
    ensures files { ⟦<FileLogs<R, R::File> as Logs>⟧.honest files.now ≡ is_honest files.now }
    ensures memory { IsTrue (⟦<MemoryLogs as Logs>⟧.honest memory.now) }
{}

/// What paths and names are refused.
pub fn sample_paths()
    ensures last_parts { LastParts }
    ensures no_last_parts { NoLastParts }
    ensures paths_refused { PathsRefused }
    ensures paths_not_refused { PathsNotRefused }
    ensures duplicates { Duplicates }
{}
