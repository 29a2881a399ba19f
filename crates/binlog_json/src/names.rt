//! The texts of ENUM and SET values, by the names that the table map has for them.
ghost use Rattle.std.specs.Prelude.{◌≡◌, ◌<◌, ◌++◌, ◌||◌, length, IfOk, OnOk};
ghost use Rattle.binlog_json.specs.Joining.{comma_if, member_if};
ghost use Rattle.binlog_json.specs.Encodings.{texts_of};
ghost use Rattle.binlog_json.specs.Growth.{Gathers};
ghost use Rattle.binlog_json.specs.NamedValues.{NamesEnum, NamesSet, known_members, known_members_text, known_names};

use binlog_table::RowView;
use std::alloc::{AllocError, Global};

/// The name of an ENUM's value, however it is given. None where the value is written as its number.
pub(crate) fn enum_name<'a>(image: &RowView<'a>, column: usize, number: u16) -> Option<&'a [u8]>
    requires { column < length image.now.table.columns }
    ensures { NamesEnum (known_names image.now column) number result }
{
    let _ = image.value_name_count(column)?;
    if number == 0 {
        return Some(b"");
    }
    image.value_name(column, usize::from(number))
}

/// Whether each bit of a SET's value has a name, however the names are given. Where one has none, the value is written as its number.
pub(crate) fn is_named(image: &RowView<'_>, column: usize, number: u64) -> bool
    requires { column < length image.now.table.columns }
    ensures { NamesSet (known_names image.now column) number result }
{
    match image.value_name_count(column) {
        None => false,
        Some(count) => count >= 64 || number >> count == 0,
    }
}

/// The names of a SET's value.
pub(crate) fn members_of<'a>(
    alloc: Global,
    image: &RowView<'a>,
    column: usize,
    number: u64,
) -> Result<Vec<&'a [u8]>, AllocError>
    requires { column < length image.now.table.columns }
    ensures { IfOk result (λ members. texts_of members.items ≡ known_members image.now column number) }
{
    let mut members = Vec::new(alloc);
    let mut rest = number;
    for place in 1..65 {
        let Some(name) = image.value_name(column, place) else {
            return Ok(members);
        };
        if rest % 2 == 1 {
            members.push(name)?;
        }
        rest /= 2;
    }
    Ok(members)
}

/// The names of a SET's value, parted by commas, at the end of a text.
pub(crate) fn append_names(
    text: &mut Vec<u8>,
    image: &RowView<'_>,
    column: usize,
    number: u64,
) -> Result<(), AllocError>
    requires { column < length image.now.table.columns }
    ensures { OnOk result (Gathers text.old text.new (known_members_text image.now column number)) }
{
    let mut rest = number;
    let mut later = false;
    for place in 1..65 {
        let Some(name) = image.value_name(column, place) else {
            return Ok(());
        };
        later = append_member(text, later, rest % 2 == 1, name)?;
        rest /= 2;
    }
    Ok(())
}

/// Appends a name that is a member, behind a comma where something stands before it. Whether something stands there then.
pub(crate) fn append_member(
    text: &mut Vec<u8>,
    later: bool,
    is_member: bool,
    name: &[u8],
) -> Result<bool, AllocError>
    ensures text { OnOk result (Gathers text.old text.new (member_if is_member later name.now)) }
    ensures later { IfOk result (λ now. now ≡ (is_member || later)) }
{
    if !is_member {
        return Ok(later);
    }
    append_name(text, later, name)?;
    Ok(true)
}

fn append_name(text: &mut Vec<u8>, later: bool, name: &[u8]) -> Result<(), AllocError>
    ensures { OnOk result (Gathers text.old text.new (comma_if later ++ name.now)) }
{
    if later {
        text.push(b',')?;
    }
    text.extend_from_slice(name)
}
