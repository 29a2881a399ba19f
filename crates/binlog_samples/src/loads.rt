//! The definitions of a statement that loaded a file, by both profiles, on bodies and over small files.
ghost use Rattle.binlog_samples.specs.Loads.{LoadTexts, ShortLoads, LoadIsRead, ClassesBy, TakenIn, SymbolsBy, StrictWords, LacksBy, LoadAlone, LoadNamed, LoadWithin, BadLoads, PartedByLoads, Alike};

/// What the body of such an event says, and what the event is to each profile.
pub fn sample_loads()
    ensures load_texts { LoadTexts }
    ensures short_loads { ShortLoads }
    ensures load_is_read { LoadIsRead }
    ensures classes_by { ClassesBy }
    ensures taken_in { TakenIn }
    ensures symbols_by { SymbolsBy }
    ensures strict_words { StrictWords }
    ensures lacks_by { LacksBy }
{}

/// What files with such an event come to by each profile.
pub fn sample_loaded_files()
    ensures load_alone { LoadAlone }
    ensures load_named { LoadNamed }
    ensures load_within { LoadWithin }
    ensures bad_loads { BadLoads }
    ensures parted_by_loads { PartedByLoads }
    ensures alike { Alike }
{}
