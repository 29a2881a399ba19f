//! The definitions of GTID sets, over texts and members that are written out.
ghost use Rattle.binlog_samples.specs.Sets.{PlainSets, TaggedSets, LooseSets, BadSets, Tags, WrittenSets, Members};

/// What texts name by each profile, which tags there are, how sets are written, and which GTIDs are in them.
#[tactic(auto, unfolding(crate::proofs::OnSets::on_sets))]
pub fn sample_sets()
    ensures plain_sets { PlainSets }
    ensures tagged_sets { TaggedSets }
    ensures loose_sets { LooseSets }
    ensures bad_sets { BadSets }
    ensures tags { Tags }
    ensures written_sets { WrittenSets }
    ensures members { Members }
{}
