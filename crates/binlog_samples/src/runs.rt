//! The definitions of what runs write and answer, over two lines.
ghost use Rattle.binlog_samples.specs.Runs.{LinesCounted, AllGoneLines, AllLines, EndsAlike, GoneWithoutMemory, OtherLines, FaultOfLines, LinesCut, LinesNotCut, OutputsRefuseNothing};
ghost use Rattle.binlog_samples.specs.Runs.{RunsRefused, RunsNotRefused, RefusalsWriteNothing, RefusalsByJudgement, NamesAnswered, StartsAnswered, NotBegun};
ghost use Rattle.binlog_samples.specs.RunsOn.{ChangesUpTo, DoesNotGoOn, EndsTold, GoesOnOverNone, LastNamed, ReadsPlaced};
ghost use Rattle.binlog_samples.specs.Runs.{GoesOn, GoesOnToFault, GoesOnCut, GoesOnRefused, NewCounted};

/// Which lines a run writes, and what it answers.
pub fn sample_outputs()
    ensures lines_counted { LinesCounted }
    ensures all_lines { AllLines }
    ensures other_lines { OtherLines }
    ensures fault_of_lines { FaultOfLines }
    ensures lines_cut { LinesCut }
    ensures lines_not_cut { LinesNotCut }
    ensures all_gone_lines { AllGoneLines }
    ensures gone_without_memory { GoneWithoutMemory }
    ensures ends_alike { EndsAlike }
    ensures outputs_refuse_nothing { OutputsRefuseNothing }
{}

/// Why a run doesn't begin, and what it answers then.
pub fn sample_refused_runs()
    ensures runs_refused { RunsRefused }
    ensures runs_not_refused { RunsNotRefused }
    ensures refusals_write_nothing { RefusalsWriteNothing }
    ensures refusals_by_judgement { RefusalsByJudgement }
    ensures names_answered { NamesAnswered }
    ensures starts_answered { StartsAnswered }
    ensures not_begun { NotBegun }
{}

/// What a run adds that goes on behind a line.
pub fn sample_further_runs()
    ensures goes_on { GoesOn }
    ensures goes_on_to_fault { GoesOnToFault }
    ensures goes_on_cut { GoesOnCut }
    ensures goes_on_refused { GoesOnRefused }
    ensures new_counted { NewCounted }
{}

/// Which feeds go on, and where a read failed.
pub fn sample_runs_on()
    ensures goes_on_over_none { GoesOnOverNone }
    ensures does_not_go_on { DoesNotGoOn }
    ensures ends_told { EndsTold }
    ensures reads_placed { ReadsPlaced }
    ensures changes_up_to { ChangesUpTo }
    ensures last_named { LastNamed }
{}
