//! What a reader of a change feed chooses by, and the text that it keeps to go on from: GTID sets,
//! filters and tokens. And how a number is written, there and in lines.
#![tactic(auto)]

mod decimal;
mod file_name;
mod filter;
mod gtid_set;
mod interval;
mod joining;
mod kind;
mod laws;
mod names;
mod set_fault;
mod set_form;
mod set_text;
mod source;
mod split;
mod tag;
mod token;

pub use decimal::push_number;
pub use file_name::FileName;
pub use filter::Filter;
pub use gtid_set::{GtidSet, one_set_for_each_text, one_written_form, written_form_names_the_set};
pub use kind::{ChangeKind, Kinds};
pub use laws::{one_source, one_tag, one_token, profiles_read_sets};
pub use names::Names;
pub use set_fault::SetFault;
pub use token::{Token, TokenFault, TokenRef};
