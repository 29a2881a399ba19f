//! The definitions of what stands at tokens and of units that are read apart, and the laws of feeds, over small files.
ghost use Rattle.binlog_samples.specs.FileLaws.{ChangesAtTokens, UnitsApart, StandsThere, FoundOfTwo, RisesInTwo, ResumesGrown, OneApart, TwoApart};

/// What stands at tokens, what units come to that are read apart, and what the laws say of small files.
pub fn sample_laws()
    ensures changes_at_tokens { ChangesAtTokens }
    ensures units_apart { UnitsApart }
    ensures stands_there { StandsThere }
    ensures found_of_two { FoundOfTwo }
    ensures rises_in_two { RisesInTwo }
    ensures resumes_grown { ResumesGrown }
    ensures one_apart { OneApart }
    ensures two_apart { TwoApart }
{}
