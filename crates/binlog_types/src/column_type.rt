//! The type of a column.

use crate::charsets::Charset;

/// What a table map says of a column's type.
#[derive(Clone, Copy, Debug, PartialEq, Eq)]
pub struct ColumnType {
    /// The type's number, for CHAR, BINARY, ENUM and SET the real one.
    pub code: u8,
    /// The greatest length of CHAR, BINARY and VARCHAR in bytes, the bits of BIT, the digits of DECIMAL, those of a fraction of a
    /// second, the bytes of the length of a BLOB, the numbers of a VECTOR. Of other types it is what the metadata has there, or 0.
    pub size: u16,
    /// The digits of DECIMAL behind the point.
    pub scale: u8,
    /// As real servers tell it: numeric columns and those of YEAR have a bit of signedness.
    pub unsigned: bool,
    /// Its character set, where it has a collation that is known.
    pub charset: Option<Charset>,
}
