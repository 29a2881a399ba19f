//! The key that `--key` names.
ghost use Rattle.std.specs.Prelude.{◌≡◌, IfOk, IfErr, string_bytes};
ghost use Rattle.serde_json.specs.View.{view, items_view};
ghost use Rattle.binlogfeed.specs.KeyWords.{GivesKey, RefusesKey, IsKeyText, IsKeyFault, is_key as is_key_data, is_key_part, are_key_parts, is_key_object as is_object_of_key, is_coded as stands_for_bytes, is_in_charset as stands_for_text, has_text as names_text};

use crate::words_fault::WordsFault;
use binlog_json::Style;
use serde_json::{Category, Value};
use std::alloc::Global;

/// The key that a text spells, as compact JSON. It has its values as lines of the style have them.
pub(crate) fn key_of(alloc: Global, style: Style, text: &str) -> Result<String, WordsFault>
    ensures ok { IfOk result (λ key. IsKeyText style text.now (string_bytes key)) }
    ensures err { IfErr result (IsKeyFault style text.now) }
{
    match Value::from_str(alloc, text) {
        Ok(value) => compact_key(alloc, style, &value),
        Err(error) => match error.classify() {
            Category::Memory => Err(WordsFault::OutOfMemory),
            _ => Err(WordsFault::Key),
        },
    }
}

/// The compact JSON of a value that is a key.
fn compact_key(alloc: Global, style: Style, value: &Value) -> Result<String, WordsFault>
    ensures ok { GivesKey style value.now result }
    ensures err { RefusesKey style value.now result }
{
    if !is_key(style, value) {
        return Err(WordsFault::Key);
    }
    let key = value.to_string(alloc)?;
    Ok(key)
}

/// Whether it is an array of values that columns of a key can have.
fn is_key(style: Style, value: &Value) -> bool
    ensures { result ≡ is_key_data style (view value.now) }
{
    match value {
        Value::Array(parts) => are_parts(style, parts),
        _ => false,
    }
}

fn are_parts(style: Style, parts: &[Value]) -> bool
    ensures { result ≡ are_key_parts style (items_view parts.now) }
{
    for part in parts {
        if !is_part(style, part) {
            return false;
        }
    }
    true
}

/// Whether a column of a key can have this value: null, a string, a whole number, or an object that stands for bytes.
fn is_part(style: Style, part: &Value) -> bool
    ensures { result ≡ is_key_part style (view part.now) }
{
    match part {
        Value::Null | Value::String(_) => true,
        Value::Number(number) => !number.is_f64(),
        Value::Object(members) => is_key_object(style, part, members.len()),
        _ => false,
    }
}

/// Whether an object of so many members stands for a value in lines of the style.
fn is_key_object(style: Style, object: &Value, count: usize) -> bool
    ensures { result ≡ is_object_of_key style count (view object.now) }
{
    match style {
        Style::Plain => is_coded(object, count),
        Style::Full => is_coded(object, count) || is_in_charset(object, count),
    }
}

/// Whether an object of so many members stands for bytes that are no text.
fn is_coded(object: &Value, count: usize) -> bool
    ensures { result ≡ stands_for_bytes count (view object.now) }
{
    count == 1 && (has_text(object, "base64") || has_text(object, "raw"))
}

/// Whether an object of so many members stands for the bytes of a text in a character set.
fn is_in_charset(object: &Value, count: usize) -> bool
    ensures { result ≡ stands_for_text count (view object.now) }
{
    count == 2 && has_text(object, "base64") && has_text(object, "charset")
}

/// Whether an object has a member of this name, which is a string.
fn has_text(object: &Value, name: &str) -> bool
    ensures { result ≡ names_text name.now (view object.now) }
{
    match object.get(name) {
        Some(value) => value.is_string(),
        None => false,
    }
}
