//! The definitions of files of the system: the names of paths, and reads that are true.
ghost use Rattle.binlog_samples.specs.SystemFiles.{NamesOfPaths, NoNamesOfPaths, ReadsAgree, ReadsDisagree, FilesTellTrue, LengthsAreWrong, ReadsAreWrong};

/// Which names a list of paths asks for, and when lengths and reads are those of files.
pub fn sample_system_files()
    ensures names_of_paths { NamesOfPaths }
    ensures no_names_of_paths { NoNamesOfPaths }
    ensures reads_agree { ReadsAgree }
    ensures reads_disagree { ReadsDisagree }
    ensures files_tell_true { FilesTellTrue }
    ensures lengths_are_wrong { LengthsAreWrong }
    ensures reads_are_wrong { ReadsAreWrong }
{}
