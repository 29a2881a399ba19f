//! The definitions of lists, by looks that no list asks for.
ghost use Rattle.binlog_samples.specs.OtherTurns.{LooksMissing, LooksTooMany, OtherFiles, OtherBlanks, ListsStandThere};

/// Which looks lists don't ask for, and bytes that aren't without a list.
pub fn sample_other_turns()
    ensures looks_missing { LooksMissing }
    ensures looks_too_many { LooksTooMany }
    ensures other_files { OtherFiles }
    ensures other_blanks { OtherBlanks }
    ensures lists_stand_there { ListsStandThere }
{}
