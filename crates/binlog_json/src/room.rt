//! Room to work in, kept from line to line.

use crate::append::Quoter;
use crate::encodings::Decoder;
use crate::lines::Line;
use binlog_documents::DocumentWriter;
use std::alloc::Global;

/// What a value is put together in.
#[derive(Drop)]
pub(crate) struct Room {
    pub(crate) quoter: Quoter,
    /// A text before it is quoted.
    pub(crate) text: String,
    /// The text of a type before it is quoted.
    pub(crate) table: Line,
    /// The names of a SET's value, the bytes of a BINARY, or the text of a float or of a document.
    pub(crate) names: Vec<u8>,
    pub(crate) decoder: Decoder,
    pub(crate) documents: DocumentWriter,
}

impl Room {
    pub(crate) fn new(alloc: Global) -> Room {
        Room {
            quoter: Quoter::new(alloc),
            text: String::new(alloc),
            table: Line::new(alloc),
            names: Vec::new(alloc),
            decoder: Decoder::new(alloc),
            documents: DocumentWriter::new(alloc),
        }
    }
}
