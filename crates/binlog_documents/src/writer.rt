//! Documents as JSON, at the end of a text.
ghost use Rattle.std.specs.Prelude.{◌≡◌, IfOk, IfSome, OnErr, option_map};
ghost use Rattle.std.specs.Str.{IsUtf8};
ghost use Rattle.binlog_documents.specs.Appended.{IsRead, AppendsText};
ghost use Rattle.binlog_documents.specs.AsJson.{AppendsJson, IsJsonOf};
ghost use Rattle.binlog_documents.specs.Drafts.{said};
ghost use Rattle.binlog_documents.specs.Values.{value_text};

use crate::documents::append_value;
use crate::draft::Draft;
use std::alloc::{AllocError, Global};

/// How many arrays and objects may stand in one another: MySQL accepts no document that is nested deeper.
const GREATEST_DEPTH: usize = 100;

/// Writes documents. It keeps its room for the next one.
#[derive(Drop)]
pub struct DocumentWriter {
    text: Draft,
}

impl DocumentWriter {
    pub fn new(alloc: Global) -> DocumentWriter {
        DocumentWriter {
            text: Draft::new(alloc),
        }
    }

    /// The document that a column's value is, as compact JSON; none where the value is no document. It stands until the next call.
    pub fn text(&mut self, value: &[u8]) -> Result<Option<&[u8]>, AllocError>
        ensures text { IfOk result (λ text. option_map (λ t. t.now) text ≡ value_text value.now) }
        ensures json { IfOk result (λ text. IfSome text (λ t. IsJsonOf value.now t.now)) }
    {
        self.text.clear();
        if append_document(&mut self.text, value)? {
            Ok(Some(self.text.as_bytes()))
        } else {
            Ok(None)
        }
    }

    /// Appends the document that a column's value is, as compact JSON. False where the value is no document; nothing is appended then,
    /// nor is it where memory runs out.
    pub fn append(&mut self, out: &mut Vec<u8>, value: &[u8]) -> Result<bool, AllocError>
        ensures text { IfOk result (AppendsText out.old.items out.new.items (value_text value.now)) }
        ensures json { IfOk result (λ _. AppendsJson value.now out.old.items out.new.items) }
        ensures utf8 { IfOk result (λ _. IsUtf8 out.old.items → IsUtf8 out.new.items) }
        ensures err { OnErr result (out.new.items ≡ out.old.items) }
    {
        let Some(text) = self.text(value)? else {
            return Ok(false);
        };
        out.extend_from_slice(text)?;
        Ok(true)
    }
}

/// Appends the document, where the value is one; else the parts of it that could be read may have been appended.
#[tactic(auto, unfolding(crate::specs::Containers::document_at))]
fn append_document(out: &mut Draft, value: &[u8]) -> Result<bool, AllocError>
    ensures { IfOk result (IsRead (said out.old) (said out.new) (value_text value.now)) }
{
    let [kind, bytes @ ..] = value else {
        out.push(b"null")?;
        return Ok(true);
    };
    let end = append_value(out, *kind, bytes, GREATEST_DEPTH)?;
    Ok(end.is_some())
}
