//! The definitions and the laws of the index by key, over small files.
ghost use Rattle.json_samples.specs.Indexes.{AllPass, HoldsPlaces, LendsOne, HeldPlaces, LentChange, GrownIndex, KeptIndex};

/// Which places an index of a file of two changes has, what they lend, and what becomes of it when the file grows.
#[tactic(auto, unfolding(crate::proofs::OnTypes::on_types, crate::proofs::OnValues::on_values, crate::proofs::OnLines::on_lines))]
pub fn sample_indexes()
    ensures all_pass { AllPass }
    ensures holds_places { HoldsPlaces }
    ensures lends_one { LendsOne }
    ensures held_places { HeldPlaces }
    ensures lent_change { LentChange }
    ensures grown_index { GrownIndex }
    ensures kept_index { KeptIndex }
{}
