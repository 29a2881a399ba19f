//! The definitions of feeds that go on: the place that one finds in files that have grown, and why one doesn't go on.
ghost use Rattle.binlog_samples.specs.GoingOn.{ShorterFiles, FilesNotShorter, FaultsOfGrown, OtherFaults, NoFaultsOfGrown, PlacesUnfound, PlacesFound, PlaceFound, OtherPlaces, RefusalsOfReading, RefusalsOfFiles, NotAtEnd, GoOnRefused};

/// Why no place is found in files that have grown.
pub fn sample_unfound_places()
    ensures shorter_files { ShorterFiles }
    ensures files_not_shorter { FilesNotShorter }
    ensures faults_of_grown { FaultsOfGrown }
    ensures other_faults { OtherFaults }
    ensures no_faults_of_grown { NoFaultsOfGrown }
    ensures places_unfound { PlacesUnfound }
    ensures places_found { PlacesFound }
{}

/// The place that is found there.
pub fn sample_found_places()
    ensures place_found { PlaceFound }
    ensures other_places { OtherPlaces }
{}

/// Why a feed doesn't go on.
pub fn sample_refused_feeds()
    ensures refusals_of_reading { RefusalsOfReading }
    ensures refusals_of_files { RefusalsOfFiles }
    ensures not_at_end { NotAtEnd }
    ensures go_on_refused { GoOnRefused }
{}
