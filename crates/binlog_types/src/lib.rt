//! The types of a table's columns as a server declares them: signs, lengths and character sets, by the body of its table map.
#![tactic(auto)]

mod character_tables;
mod charsets;
mod collations;
mod column_type;
mod types;

pub use charsets::{Charset, Encoding, character_table, charset_name, charset_of, encoding_of};
pub use column_type::ColumnType;
pub use types::types_of;
