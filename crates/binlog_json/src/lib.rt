//! Row changes as lines of JSON.
#![tactic(auto)]

mod append;
mod digits;
mod encodings;
mod event_text;
mod full_image;
mod full_sets;
mod full_table;
mod full_values;
mod full_writer;
mod gtid;
mod image;
mod index_laws;
mod json_nulls;
mod key;
mod key_finder;
mod key_index;
mod labels;
mod lines;
mod names;
mod pieces;
mod room;
mod stated;
mod style;
mod texts;
mod type_texts;
mod values;
mod vectors;
mod visit;
mod writer;

pub use gtid::push_gtid;
pub use index_laws::{histories_are_held, indexes_go_on, places_lend_their_changes};
pub use key::{has_key, has_key_as, key_text};
pub use key_finder::KeyFinder;
pub use key_index::KeyIndex;
pub use style::Style;
pub use visit::{HistoryFault, history};
pub use writer::{LineWriter, line};
