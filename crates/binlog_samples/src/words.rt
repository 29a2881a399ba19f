//! The definitions of what the words of a command line ask for.
ghost use Rattle.binlog_samples.specs.Words.{Files, Options, EqualsSigns, Histories, Following, Profiles, Helps, Mistakes};

/// What is found in the words of a command line, and which mistakes they have.
#[tactic(auto, unfolding(crate::proofs::OnWords::on_words))]
pub fn sample_words()
    ensures files { Files }
    ensures options { Options }
    ensures equals_signs { EqualsSigns }
    ensures histories { Histories }
    ensures following { Following }
    ensures profiles { Profiles }
    ensures helps { Helps }
    ensures mistakes { Mistakes }
{}
