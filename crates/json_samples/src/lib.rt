//! The definitions of full lines at work: what they say of bytes whose meaning is known without them. Nothing runs here.
#![tactic(auto, unfolding(crate::proofs::OnTypes::on_types, crate::proofs::OnValues::on_values))]

mod indexes;
mod lengths;
mod lines;
mod types;
mod values;

pub use indexes::sample_indexes;
pub use lengths::sample_lengths;
pub use lines::{sample_histories, sample_json_nulls, sample_lines, sample_statements};
pub use types::sample_types;
pub use values::sample_full_values;
