//! The definitions of where a feed goes on, over files that lack an event there.
ghost use Rattle.binlog_samples.specs.Growing.{LastNames, Fronts, FrontEnds, TellsUnfound, Lacks};

/// Which file has the name of another list's last one, and what a file has in place of its first event.
pub fn sample_growing()
    ensures last_names { LastNames }
    ensures fronts { Fronts }
    ensures front_ends { FrontEnds }
    ensures tells { TellsUnfound }
    ensures lacks { Lacks }
{}
