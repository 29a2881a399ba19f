//! The definitions of the program's lines on standard error and of its statuses.
ghost use Rattle.binlog_samples.specs.Statuses.{Whats, FurtherWhats, RunTexts, OpenFaults, WordsTexts, Endings, RunStatuses, WordsStatuses, OpenStatuses};

/// How faults are told, and with what status runs, words and openings end.
pub fn sample_statuses()
    ensures whats { Whats }
    ensures further_whats { FurtherWhats }
    ensures run_texts { RunTexts }
    ensures open_faults { OpenFaults }
    ensures words_texts { WordsTexts }
    ensures endings { Endings }
    ensures run_statuses { RunStatuses }
    ensures words_statuses { WordsStatuses }
    ensures open_statuses { OpenStatuses }
{}
