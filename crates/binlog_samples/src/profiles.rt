//! The definitions of the two profiles, over table maps and small files.
ghost use Rattle.binlog_samples.specs.Profiles.{TwoUnnamed, StrictRefuses, ServerNames, ServerRefuses, Vectors, Dimensions, ServerValues, ElevenUnnamed, Numbers, ByProfiles, NamedLater, GovernsNamed, ReadsNamed, AgreesOnBoth};

/// What bodies of table maps say by the server's profile, and what files give by both profiles.
pub fn sample_profiles()
    ensures two_unnamed { TwoUnnamed }
    ensures strict_refuses { StrictRefuses }
    ensures server_names { ServerNames }
    ensures server_refuses { ServerRefuses }
    ensures vectors { Vectors }
    ensures dimensions { Dimensions }
    ensures server_values { ServerValues }
    ensures eleven_unnamed { ElevenUnnamed }
    ensures numbers { Numbers }
    ensures by_profiles { ByProfiles }
    ensures named_later { NamedLater }
    ensures governs_named { GovernsNamed }
    ensures reads_named { ReadsNamed }
    ensures agrees_on_both { AgreesOnBoth }
{}
