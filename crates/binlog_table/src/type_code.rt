//! The numbers of columns' types (`enum_field_types`, MySQL's include/field_types.h).

/// TINYINT.
pub const TINY: u8 = 1;

/// SMALLINT.
pub const SHORT: u8 = 2;

/// INT.
pub const LONG: u8 = 3;

/// FLOAT.
pub const FLOAT: u8 = 4;

/// DOUBLE.
pub const DOUBLE: u8 = 5;

/// BIGINT.
pub const LONGLONG: u8 = 8;

/// MEDIUMINT.
pub const INT24: u8 = 9;

/// DATE.
pub const DATE: u8 = 10;

/// YEAR.
pub const YEAR: u8 = 13;

/// VARCHAR and VARBINARY.
pub const VARCHAR: u8 = 15;

/// BIT.
pub const BIT: u8 = 16;

/// TIMESTAMP with a fraction of a second.
pub const TIMESTAMP2: u8 = 17;

/// DATETIME with a fraction of a second.
pub const DATETIME2: u8 = 18;

/// TIME with a fraction of a second.
pub const TIME2: u8 = 19;

/// VECTOR, of servers from 9.0 on.
pub const VECTOR: u8 = 242;

/// JSON.
pub const JSON: u8 = 245;

/// DECIMAL.
pub const NEWDECIMAL: u8 = 246;

/// ENUM.
pub const ENUM: u8 = 247;

/// SET.
pub const SET: u8 = 248;

/// BLOB and TEXT of all sizes.
pub const BLOB: u8 = 252;

/// VARCHAR and VARBINARY, as old tables have them.
pub const VAR_STRING: u8 = 253;

/// CHAR and BINARY.
pub const STRING: u8 = 254;

/// GEOMETRY.
pub const GEOMETRY: u8 = 255;
