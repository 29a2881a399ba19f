//! By which profile a list of log files is read.
#![tactic(auto)]

mod profile;

pub use profile::Profile;
