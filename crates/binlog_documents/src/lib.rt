//! The documents of MySQL's binary form of JSON, as JSON text.
#![tactic(auto)]

mod append;
mod bytes;
mod container;
mod decimal;
mod documents;
mod draft;
mod laws;
mod opaque;
mod padded;
mod plain;
mod quote;
mod read;
mod scalar;
mod time;
mod writer;

pub use laws::{documents_are_json, documents_are_read, values_are_shown};
pub use plain::is_plain;
pub use writer::DocumentWriter;
