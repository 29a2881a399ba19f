//! The optional fields of a table map.
ghost use Rattle.std.specs.Prelude.{◌≡◌, ◌≤◌, ◌+◌, ◌*◌, length};
ghost use Rattle.binlog_table.specs.MapResult.{GivesExactly};
ghost use Rattle.binlog_table.specs.Fields.{bytes_at, number_at, string_at, name_at, is_utf8, text_of, is_refused, with_field, fields_from, no_fields};
ghost use Rattle.binlog_table.specs.FieldsShown.{fields_view};

use crate::fault::{MapFault, given};
use crate::packed::packed_at;

/// The values of the optional fields that are read.
#[derive(Clone, Copy)]
pub struct Fields<'a> {
    /// Bits of signedness.
    pub signs: Option<&'a [u8]>,
    /// The names of columns.
    pub names: Option<&'a [u8]>,
    /// The names of the values of SET columns.
    pub set_names: Option<&'a [u8]>,
    /// The names of the values of ENUM columns.
    pub enum_names: Option<&'a [u8]>,
    /// The columns of the key.
    pub key: Option<&'a [u8]>,
    /// The columns of a key with prefixes, and the lengths of these.
    pub prefix_key: Option<&'a [u8]>,
    /// The collation of most columns of text, and those of others.
    pub default_charset: Option<&'a [u8]>,
    /// The collation of each column of text.
    pub column_charset: Option<&'a [u8]>,
    /// The collation of the names of values in most ENUM and SET columns, and those of others.
    pub default_name_charset: Option<&'a [u8]>,
    /// The collation of the names of values in each ENUM and SET column.
    pub column_name_charset: Option<&'a [u8]>,
    /// The dimensions of VECTOR columns.
    pub dimensions: Option<&'a [u8]>,
}

/// So many bytes, and those after them.
pub(crate) fn bytes_at(len: u64, bytes: &[u8]) -> Result<(&[u8], &[u8]), MapFault>
    ensures { GivesExactly (λ x. (x.0.now, x.1.now)) result (bytes_at len bytes.now) }
{
    if len > bytes.len() as u64 {
        return Err(MapFault::BadMap);
    }
    Ok(bytes.split_at(len as usize))
}

/// A packed number, and the bytes after it.
#[tactic(auto, unfolding(crate::specs::Fields::number_at))]
pub(crate) fn number_at(bytes: &[u8]) -> Result<(u64, &[u8]), MapFault>
    ensures { GivesExactly (λ x. (x.0, x.1.now)) result (number_at bytes.now) }
{
    match packed_at(bytes) {
        None => Err(MapFault::BadMap),
        Some((number, len)) => Ok((number, &bytes[len..])),
    }
}

/// A packed length, as many bytes, and the bytes after them.
#[tactic(auto, unfolding(crate::specs::Fields::string_at))]
pub(crate) fn string_at(bytes: &[u8]) -> Result<(&[u8], &[u8]), MapFault>
    ensures { GivesExactly (λ x. (x.0.now, x.1.now)) result (string_at bytes.now) }
{
    let (len, rest) = given!(number_at(bytes));
    bytes_at(len, rest)
}

/// The bytes as text.
pub(crate) fn text_of(bytes: &[u8]) -> Result<&str, MapFault>
    ensures { GivesExactly (λ s. s.now) result (text_of bytes.now) }
{
    match str::from_utf8(bytes) {
        Ok(text) => Ok(text),
        Err(_) => Err(MapFault::BadMap),
    }
}

/// A short name, and the bytes after its zero byte.
#[tactic(auto, unfolding(crate::specs::Fields::name_at))]
pub(crate) fn name_at(bytes: &[u8]) -> Result<(&str, &[u8]), MapFault>
    ensures { GivesExactly (λ x. (x.0.now, x.1.now)) result (name_at bytes.now) }
{
    let [len, rest @ ..] = bytes else {
        return Err(MapFault::BadMap);
    };
    let len = usize::from(*len);
    if len > 250 || len >= rest.len() || rest[len] != 0 {
        return Err(MapFault::BadMap);
    }
    Ok((given!(text_of(&rest[..len])), &rest[len + 1..]))
}

/// Whether a field of a type can't be added: one of the type stands already, or of the two keys the other one.
fn is_refused(fields: &Fields<'_>, kind: u8) -> bool
    ensures { result ≡ is_refused (fields_view fields.now) kind }
{
    match kind {
        1 => fields.signs.is_some(),
        4 => fields.names.is_some(),
        5 => fields.set_names.is_some(),
        6 => fields.enum_names.is_some(),
        8 | 9 => fields.key.is_some() || fields.prefix_key.is_some(),
        _ => false,
    }
}

/// The fields with one more: two of one type are refused, and both keys.
fn with_field<'a>(fields: Fields<'a>, kind: u8, value: &'a [u8]) -> Result<Fields<'a>, MapFault>
    ensures { GivesExactly fields_view result (with_field (fields_view fields.entry) kind value.now) }
{
    if is_refused(&fields, kind) {
        return Err(MapFault::BadMap);
    }
    let mut fields = fields;
    match kind {
        1 => fields.signs = Some(value),
        4 => fields.names = Some(value),
        5 => fields.set_names = Some(value),
        6 => fields.enum_names = Some(value),
        8 => fields.key = Some(value),
        9 => fields.prefix_key = Some(value),
        2 => fields.default_charset = Some(value),
        3 => fields.column_charset = Some(value),
        10 => fields.default_name_charset = Some(value),
        11 => fields.column_name_charset = Some(value),
        13 => fields.dimensions = Some(value),
        _ => {}
    }
    Ok(fields)
}

/// The optional fields, to the end of the bytes.
pub(crate) fn fields_of(bytes: &[u8]) -> Result<Fields<'_>, MapFault>
    ensures { GivesExactly fields_view result (fields_from (length bytes.now) no_fields bytes.now) }
{
    let mut fields = Fields {
        signs: None,
        names: None,
        set_names: None,
        enum_names: None,
        key: None,
        prefix_key: None,
        default_charset: None,
        column_charset: None,
        default_name_charset: None,
        column_name_charset: None,
        dimensions: None,
    };
    let mut rest = bytes;
    while let [kind, after @ ..] = rest {
        let (value, after) = given!(string_at(after));
        fields = given!(with_field(fields, *kind, value));
        rest = after;
    }
    Ok(fields)
}
