//! The definitions of texts and keys, where they are long.
ghost use Rattle.json_samples.specs.Lengths.{TextsOfAnyLength, KeysOfManyColumns, ManyColumnsFound};

/// Texts of any length, and keys of five columns and of nine.
#[tactic(auto, unfolding(crate::proofs::OnTypes::on_types, crate::proofs::OnValues::on_values, crate::proofs::OnLines::on_lines))]
pub fn sample_lengths()
    ensures texts_of_any_length { TextsOfAnyLength }
    ensures keys_of_many_columns { KeysOfManyColumns }
    ensures many_columns_found { ManyColumnsFound }
{}
