//! The definitions of runs that follow: lists of files, looks at them, and how such a run ends.
ghost use Rattle.binlog_samples.specs.Following.{ListTexts, ListsBegin, NoLists, CutLists, TurnsOfLists, TurnsOfFiles, TwoListsAreNotOne, PartsOfLooks, BeginsAtEnd, GoneFiles, JoinedParts, EmptyLooks, FilesComeBack, LastFilesStay, LooksAreHonest, LooksAreWritten, MadeLooks, TextsOfRefusals, StatusesOfRefusals, StatusesOfEnds, TextsOfEnds, FailuresOfEnds};
ghost use Rattle.binlog_samples.specs.LastFiles.{ComesOnce, FilterStays, LastFilesReach, PlacesOfLasts, TextStandsBehind};
ghost use Rattle.binlog_samples.specs.FollowNext.{BothAreNotWritten, BothAreWritten, LastIsWritten, LooksDiffer, NextIsNotWritten, NextIsWritten};
ghost use Rattle.binlog_samples.specs.FollowEnds.{EndsWithoutFault, EndsWithFault, EndsByDevice, FaultsAtStarts, FirstLookEnds, FilesNamed, FailuresOfEither, FailuresOfRefusals};
ghost use Rattle.binlog_samples.specs.FollowEnds.{FailuresOfBeginnings, LooksNotBegun, NamesOfBeginnings, FirstRefused, BlanksWritten, ListsRefused, LooksContinue, RefusedAsShorter, RefusedForReading};
ghost use Rattle.binlog_samples.specs.FollowEnds.{NextIsRefused, LookedAtIsNotRefused, AllListsLookedAt, ListLeft, LooksSupplied};

/// Which bytes are lists, and which files each of them has looked at.
pub fn sample_lists()
    ensures list_texts { ListTexts }
    ensures lists_begin { ListsBegin }
    ensures no_lists { NoLists }
    ensures cut_lists { CutLists }
    ensures turns_of_lists { TurnsOfLists }
    ensures turns_of_files { TurnsOfFiles }
    ensures two_lists { TwoListsAreNotOne }
{}

/// What looks at files give that grow, are rotated and purged.
pub fn sample_looks()
    ensures parts_of_looks { PartsOfLooks }
    ensures begins_at_end { BeginsAtEnd }
    ensures gone_files { GoneFiles }
    ensures joined_parts { JoinedParts }
    ensures empty_looks { EmptyLooks }
    ensures looks_are_written { LooksAreWritten }
    ensures last_files_stay { LastFilesStay }
    ensures files_come_back { FilesComeBack }
    ensures last_files_reach { LastFilesReach }
    ensures comes_once { ComesOnce }
    ensures looks_are_honest { LooksAreHonest }
    ensures made_looks { MadeLooks }
{}

/// What is written of two looks that stand one behind the other.
pub fn sample_next_looks()
    ensures looks_differ { LooksDiffer }
    ensures next_is_written { NextIsWritten }
    ensures next_is_not_written { NextIsNotWritten }
    ensures last_is_written { LastIsWritten }
    ensures both_are_written { BothAreWritten }
    ensures both_are_not_written { BothAreNotWritten }
{}

/// What a look writes whose files don't continue those of the one before, and one behind it.
pub fn sample_turned_looks()
    ensures filter_stays { FilterStays }
    ensures text_stands_behind { TextStandsBehind }
    ensures places_of_lasts { PlacesOfLasts }
{}

/// How runs that follow end.
pub fn sample_follow_ends()
    ensures texts_of_refusals { TextsOfRefusals }
    ensures statuses_of_refusals { StatusesOfRefusals }
    ensures statuses_of_ends { StatusesOfEnds }
    ensures texts_of_ends { TextsOfEnds }
    ensures failures_of_ends { FailuresOfEnds }
{}

/// How the newest look ends, and which files and devices the ends name.
pub fn sample_look_ends()
    ensures ends_without_fault { EndsWithoutFault }
    ensures ends_with_fault { EndsWithFault }
    ensures ends_by_device { EndsByDevice }
    ensures faults_at_starts { FaultsAtStarts }
    ensures first_look_ends { FirstLookEnds }
    ensures files_named { FilesNamed }
    ensures failures_of_either { FailuresOfEither }
    ensures failures_of_refusals { FailuresOfRefusals }
    ensures failures_of_beginnings { FailuresOfBeginnings }
    ensures names_of_beginnings { NamesOfBeginnings }
    ensures looks_not_begun { LooksNotBegun }
    ensures first_refused { FirstRefused }
    ensures blanks_written { BlanksWritten }
{}

/// Which lists are refused behind a look, and why.
pub fn sample_refused_lists()
    ensures lists_refused { ListsRefused }
    ensures looks_continue { LooksContinue }
    ensures refused_as_shorter { RefusedAsShorter }
    ensures refused_for_reading { RefusedForReading }
{}

/// Which lists a run has looked at where it ends, and what it is supposed to hold.
pub fn sample_looked_at()
    ensures next_is_refused { NextIsRefused }
    ensures looked_at_is_not_refused { LookedAtIsNotRefused }
    ensures all_lists_looked_at { AllListsLookedAt }
    ensures list_left { ListLeft }
    ensures looks_supplied { LooksSupplied }
{}
