//! Values of all types as JSON, at the end of a text. An array or object is read and written element by element. Where one of them is
//! none, what was written of the others is left to the caller to take back.
ghost use Rattle.std.specs.Prelude.{◌≡◌, ◌<◌, ◌≤◌, ◌+◌, ◌*◌, ◌^◌, length, IfOk, IfSome, option_map, false};
ghost use Rattle.binlog_documents.specs.Scalars.{scalar_at, text_at};
ghost use Rattle.binlog_documents.specs.Containers.{value_in, key_in, elements_of, members_of, value_at, element_entry, member_entries};
ghost use Rattle.binlog_documents.specs.Texts.{elements_text, members_text};
ghost use Rattle.binlog_documents.specs.Widths.{bytes_of, container_view};
ghost use Rattle.binlog_documents.specs.Appended.{Appends, IsFrontOf, IsKeyAppended, IsRead, array_of, object_of, text_of_elements, text_of_members};
ghost use Rattle.binlog_documents.specs.Drafts.{said};
ghost use Rattle.binlog_documents.specs.declared.container.Width.TheVariants.{Two, Four};

use crate::append::{append_comma, append_key, append_scalar, append_text};
use crate::bytes::text_length_at;
use crate::container::{
    Container, Width, container_at, is_inlined, key_entry, keys_end, value_place,
};
use crate::draft::Draft;
use crate::read::scalar_at;
use std::alloc::AllocError;

/// The type of a string.
const TEXT: u8 = 12;

/// The string at the front of the bytes, and where it ends.
#[tactic(auto, unfolding(crate::specs::Scalars::text_at))]
fn append_text_at(out: &mut Draft, bytes: &[u8]) -> Result<Option<usize>, AllocError>
    ensures text { IfOk result (Appends out.old out.new (text_at bytes.now)) }
    ensures within { IfOk result (λ end. IfSome end (λ len. len ≤ length bytes.now)) }
{
    let Some((len, begin)) = text_length_at(bytes) else {
        return Ok(None);
    };
    let text = &bytes[begin..];
    if len > text.len() {
        return Ok(None);
    }
    if !append_text(out, text, len)? {
        return Ok(None);
    }
    Ok(Some(begin + len))
}

/// The value at the front of the bytes, where it has no parts, and where it ends.
pub(crate) fn append_scalar_at(
    out: &mut Draft,
    kind: u8,
    bytes: &[u8],
) -> Result<Option<usize>, AllocError>
    ensures text { IfOk result (Appends out.old out.new (scalar_at kind bytes.now)) }
    ensures within { IfOk result (λ end. IfSome end (λ len. len ≤ length bytes.now)) }
{
    if kind == TEXT {
        return append_text_at(out, bytes);
    }
    let Some((scalar, len)) = scalar_at(kind, bytes) else {
        return Ok(None);
    };
    append_scalar(out, scalar)?;
    Ok(Some(len))
}

/// The key of the entry at a place with its colon, and where it ends. What stands behind the bytes may be looked at.
#[inline(always)]
#[tactic(auto, unfolding(crate::specs::Containers::key_in))]
fn append_key_in(
    out: &mut Draft,
    bytes: &[u8],
    ahead: &[u8],
    width: Width,
    entry: usize,
    from: usize,
) -> Result<Option<usize>, AllocError>
    requires room { entry + (bytes_of width + 2) ≤ length bytes.now }
    requires front { IsFrontOf ahead.now bytes.now }
    ensures { IfOk result (IsKeyAppended (said out.old) (said out.new) (key_in (bytes_of width) bytes.now entry from)) }
{
    let (place, len) = key_entry(bytes, width, entry);
    if place < from || place + len > bytes.len() {
        return Ok(None);
    }
    if !append_key(out, &ahead[place..], len)? {
        return Ok(None);
    }
    Ok(Some(place + len))
}

/// The value at the front of the bytes, with at most so many arrays and objects in one another, and where it ends.
#[inline(always)]
#[cycle(values)]
#[tactic(auto, unfolding(crate::specs::Containers::value_at))]
pub(crate) fn append_value(
    out: &mut Draft,
    kind: u8,
    bytes: &[u8],
    depth: usize,
) -> Result<Option<usize>, AllocError>
    ensures text { IfOk result (Appends out.old out.new (value_at depth kind bytes.now)) }
    ensures within { IfOk result (λ end. IfSome end (λ len. len ≤ length bytes.now)) }
{
    if depth == 0 {
        return append_scalar_at(out, kind, bytes);
    }
    match kind {
        0 => append_small_object(out, bytes, depth - 1),
        1 => append_large_object(out, bytes, depth - 1),
        2 => append_small_array(out, bytes, depth - 1),
        3 => append_large_array(out, bytes, depth - 1),
        _ => append_scalar_at(out, kind, bytes),
    }
}

/// A small array at the front of the bytes, and where it ends.
#[inline(never)]
#[cycle(values)]
fn append_small_array(
    out: &mut Draft,
    bytes: &[u8],
    depth: usize,
) -> Result<Option<usize>, AllocError>
    ensures text { IfOk result (Appends out.old out.new (array_of depth Two bytes.now)) }
    ensures within { IfOk result (λ end. IfSome end (λ len. len ≤ length bytes.now)) }
{
    append_array(out, bytes, Width::Two, depth)
}

/// A large array at the front of the bytes, and where it ends.
#[inline(never)]
#[cycle(values)]
fn append_large_array(
    out: &mut Draft,
    bytes: &[u8],
    depth: usize,
) -> Result<Option<usize>, AllocError>
    ensures text { IfOk result (Appends out.old out.new (array_of depth Four bytes.now)) }
    ensures within { IfOk result (λ end. IfSome end (λ len. len ≤ length bytes.now)) }
{
    append_array(out, bytes, Width::Four, depth)
}

/// The array at the front of the bytes, and where it ends. Its code stands once for each width.
#[inline(always)]
#[cycle(values)]
#[tactic(auto, unfolding(crate::specs::Containers::array_at))]
fn append_array(
    out: &mut Draft,
    bytes: &[u8],
    width: Width,
    depth: usize,
) -> Result<Option<usize>, AllocError>
    ensures text { IfOk result (Appends out.old out.new (array_of depth width bytes.now)) }
    ensures within { IfOk result (λ end. IfSome end (λ len. len ≤ length bytes.now)) }
{
    let Some(array) = container_at(bytes, width, width.bytes() + 1) else {
        return Ok(None);
    };
    out.push_byte(b'[')?;
    if !append_elements(out, array, bytes, width, depth)? {
        return Ok(None);
    }
    out.push_byte(b']')?;
    Ok(Some(array.bytes.len()))
}

/// The elements of an array, each but the first behind a comma.
#[inline(always)]
#[cycle(values)]
fn append_elements(
    out: &mut Draft,
    array: Container<'_>,
    ahead: &[u8],
    width: Width,
    depth: usize,
) -> Result<bool, AllocError>
    requires room { 2 * bytes_of width + array.count * element_entry (bytes_of width) ≤ length array.bytes.now }
    requires few { array.count < 2 ^ 32 }
    requires front { IsFrontOf ahead.now array.bytes.now }
    ensures text { IfOk result (IsRead (said out.old) (said out.new) (text_of_elements depth width array.entry)) }
{
    let step = width.bytes() + 1;
    let mut entry = 2 * width.bytes();
    let mut from = entry + array.count * step;
    for place in 0..array.count {
        append_comma(out, place > 0)?;
        let Some(end) = append_value_in(out, array.bytes, ahead, width, entry, from, depth)? else {
            return Ok(false);
        };
        entry += step;
        from = end;
    }
    Ok(true)
}

/// A small object at the front of the bytes, and where it ends.
#[inline(never)]
#[cycle(values)]
fn append_small_object(
    out: &mut Draft,
    bytes: &[u8],
    depth: usize,
) -> Result<Option<usize>, AllocError>
    ensures text { IfOk result (Appends out.old out.new (object_of depth Two bytes.now)) }
    ensures within { IfOk result (λ end. IfSome end (λ len. len ≤ length bytes.now)) }
{
    append_object(out, bytes, Width::Two, depth)
}

/// A large object at the front of the bytes, and where it ends.
#[inline(never)]
#[cycle(values)]
fn append_large_object(
    out: &mut Draft,
    bytes: &[u8],
    depth: usize,
) -> Result<Option<usize>, AllocError>
    ensures text { IfOk result (Appends out.old out.new (object_of depth Four bytes.now)) }
    ensures within { IfOk result (λ end. IfSome end (λ len. len ≤ length bytes.now)) }
{
    append_object(out, bytes, Width::Four, depth)
}

/// The object at the front of the bytes, and where it ends. Its code stands once for each width.
#[inline(always)]
#[cycle(values)]
#[tactic(auto, unfolding(crate::specs::Containers::object_at))]
fn append_object(
    out: &mut Draft,
    bytes: &[u8],
    width: Width,
    depth: usize,
) -> Result<Option<usize>, AllocError>
    ensures text { IfOk result (Appends out.old out.new (object_of depth width bytes.now)) }
    ensures within { IfOk result (λ end. IfSome end (λ len. len ≤ length bytes.now)) }
{
    let entries = (width.bytes() + 2) + (width.bytes() + 1);
    let Some(object) = container_at(bytes, width, entries) else {
        return Ok(None);
    };
    out.push_byte(b'{')?;
    if !append_members(out, object, bytes, width, depth)? {
        return Ok(None);
    }
    out.push_byte(b'}')?;
    Ok(Some(object.bytes.len()))
}

/// The members of an object, each but the first behind a comma.
#[inline(always)]
#[cycle(values)]
fn append_members(
    out: &mut Draft,
    object: Container<'_>,
    ahead: &[u8],
    width: Width,
    depth: usize,
) -> Result<bool, AllocError>
    requires room { 2 * bytes_of width + object.count * member_entries (bytes_of width) ≤ length object.bytes.now }
    requires few { object.count < 2 ^ 32 }
    requires front { IsFrontOf ahead.now object.bytes.now }
    ensures text { IfOk result (IsRead (said out.old) (said out.new) (text_of_members depth width object.entry)) }
{
    let key_step = width.bytes() + 2;
    let step = width.bytes() + 1;
    let mut key_entry = 2 * width.bytes();
    let mut entry = key_entry + object.count * key_step;
    let mut key_from = key_entry + object.count * (key_step + step);
    let mut from = keys_end(object, width);
    for place in 0..object.count {
        append_comma(out, place > 0)?;
        let Some(key_end) = append_key_in(out, object.bytes, ahead, width, key_entry, key_from)?
        else {
            return Ok(false);
        };
        let Some(end) = append_value_in(out, object.bytes, ahead, width, entry, from, depth)? else {
            return Ok(false);
        };
        key_entry += key_step;
        key_from = key_end;
        entry += step;
        from = end;
    }
    Ok(true)
}

/// The value of the entry at a place, and where the next value may begin.
#[inline(always)]
#[cycle(values)]
#[tactic(auto, unfolding(crate::specs::Containers::value_in))]
fn append_value_in(
    out: &mut Draft,
    bytes: &[u8],
    ahead: &[u8],
    width: Width,
    entry: usize,
    from: usize,
    depth: usize,
) -> Result<Option<usize>, AllocError>
    requires room { entry + element_entry (bytes_of width) ≤ length bytes.now }
    requires front { IsFrontOf ahead.now bytes.now }
    ensures text { IfOk result (Appends out.old out.new (value_in (value_at depth) (bytes_of width) bytes.now entry from)) }
{
    let kind = bytes[entry];
    if is_inlined(width, kind) {
        return match append_scalar_at(out, kind, &bytes[entry + 1..])? {
            None => Ok(None),
            Some(_) => Ok(Some(from)),
        };
    }
    let Some(place) = value_place(bytes, width, entry, from) else {
        return Ok(None);
    };
    let Some(len) = append_value(out, kind, &ahead[place..], depth)? else {
        return Ok(None);
    };
    if len > bytes.len() - place {
        return Ok(None);
    }
    Ok(Some(place + len))
}
