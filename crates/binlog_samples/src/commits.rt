//! The definition of the time of a commit, on bodies of GTID events and over small files.
ghost use Rattle.binlog_samples.specs.Commits.{CommitTimes, OtherTimes, NoTimes, CommittedChanges};

/// When transactions were committed.
pub fn sample_commits()
    ensures commit_times { CommitTimes }
    ensures other_times { OtherTimes }
    ensures no_times { NoTimes }
    ensures committed_changes { CommittedChanges }
{}
