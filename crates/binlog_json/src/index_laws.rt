//! What holds of the index of all lists of files. The functions do nothing: each has a contract for a proof to cite.
ghost use Rattle.binlog_json.specs.Index.{HistoriesAreHeld, PlacesLendTheirChanges, KeptIndexesGoOn, IndexesGoOn};

/// An index that is filled from the beginning of files holds each key's history, and nothing else.
pub fn histories_are_held()
    ensures { HistoriesAreHeld }
{}

/// Over files whose names differ, what stands at the places that such an index has under a name is the changes that have the key, each once
/// and in order, and each place's token fits.
pub fn places_lend_their_changes()
    ensures { PlacesLendTheirChanges }
{}

/// An index that absorbed the changes up to one, and is filled from that one's token on over files that continue the list, is the one
/// that is filled anew: of the changes that stand in these files, and of all where no file is gone.
pub fn indexes_go_on()
    ensures kept { KeptIndexesGoOn }
    ensures all { IndexesGoOn }
{}
