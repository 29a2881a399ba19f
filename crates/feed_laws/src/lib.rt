//! What holds of the units and the row changes of all lists of files. Nothing runs here: proofs cite the contracts.
#![tactic(auto)]

mod laws;

pub use laws::{
    changes_are_fed, changes_are_found, changes_stand_at_their_places, closing_changes_nothing,
    feeds_grow, feeds_resume, files_are_distinct, files_are_read_apart, one_end, places_rise,
    profiles_agree, strict_profile, tokens_are_judged, units_are_stable,
};
