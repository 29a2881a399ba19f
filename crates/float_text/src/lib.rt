//! The text of a float as a JSON number: the shortest decimal that reads back, laid out as Python's `repr` does.
#![tactic(auto)]

mod candidate;
mod comparison;
mod laws;
mod layout;
mod natural;
mod number;
mod search;
mod stored;

pub use laws::texts_read_back;
pub use number::{NUMBER_ROOM, push_number, put_number, shortest_decimal};
pub use stored::push_stored;
