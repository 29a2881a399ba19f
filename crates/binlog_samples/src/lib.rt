//! The definitions at work: what they say of bytes, files, tokens and faults whose meaning is known without them. Nothing runs here.
#![tactic(auto, unfolding(crate::proofs::OnBytes::on_bytes))]

mod commits;
mod continuations;
mod feeds;
mod files;
mod following;
mod frames;
mod going_on;
mod growing;
mod laws;
mod loads;
mod parts;
mod profiles;
mod runs;
mod sets;
mod sources;
mod statements;
mod statuses;
mod system_files;
mod tables;
mod tokens;
mod turns;
mod values;
mod words;

pub use commits::sample_commits;
pub use continuations::sample_continuations;
pub use feeds::sample_feeds;
pub use files::sample_files;
pub use following::{
    sample_follow_ends, sample_lists, sample_look_ends, sample_looked_at, sample_looks,
    sample_next_looks, sample_refused_lists,
};
pub use frames::sample_frames;
pub use going_on::{sample_found_places, sample_refused_feeds, sample_unfound_places};
pub use growing::sample_growing;
pub use laws::sample_laws;
pub use loads::{sample_loaded_files, sample_loads};
pub use parts::{sample_begins, sample_parts};
pub use profiles::sample_profiles;
pub use runs::{sample_further_runs, sample_outputs, sample_refused_runs, sample_runs_on};
pub use sets::sample_sets;
pub use sources::{sample_honesty, sample_paths, sample_sources};
pub use statements::sample_statements;
pub use statuses::sample_statuses;
pub use system_files::sample_system_files;
pub use tables::sample_tables;
pub use tokens::sample_tokens;
pub use turns::sample_other_turns;
pub use values::sample_values;
pub use words::sample_words;
