//! The definitions of the changes that are statements, over small files, and of the word for them.
ghost use Rattle.binlog_samples.specs.Statements.{StatementIsSaid, StatementsStand, MarksSayNothing, StatementsPass, WordsByProfile};

/// Which changes are statements, and who lets them pass.
pub fn sample_statements()
    ensures statement_is_said { StatementIsSaid }
    ensures statements_stand { StatementsStand }
    ensures marks_say_nothing { MarksSayNothing }
    ensures statements_pass { StatementsPass }
    ensures words_by_profile { WordsByProfile }
{}
