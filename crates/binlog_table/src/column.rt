//! A column as its table map describes it, and its layout: what of its metadata a row is walked by.

use std::marker::Model;

/// How many bytes a number takes: 1 to 8.
#[derive(Clone, Copy)]
pub struct ByteCount {
    pub bytes: u8,
}

impl Model for ByteCount {
    ghost use Rattle.std.specs.Prelude.{ℕ, ◌≤◌};

    ghost Value = { ℕ };

    ghost view = { λ c. c.bytes };

    ghost invariant = { λ c. (1 ≤ c.bytes) × (c.bytes ≤ 8) };

    ghost inverse = { λ n. record { bytes = n } };
}

/// How many bytes the number of an ENUM's name takes: 1 or 2.
#[derive(Clone, Copy)]
pub struct EnumSize {
    pub bytes: u8,
}

impl Model for EnumSize {
    ghost use Rattle.std.specs.Prelude.{ℕ, ◌≤◌};

    ghost Value = { ℕ };

    ghost view = { λ c. c.bytes };

    ghost invariant = { λ c. (1 ≤ c.bytes) × (c.bytes ≤ 2) };

    ghost inverse = { λ n. record { bytes = n } };
}

/// How many digits a fraction of a second has: 0 to 6.
#[derive(Clone, Copy)]
pub struct Precision {
    pub digits: u8,
}

impl Model for Precision {
    ghost use Rattle.std.specs.Prelude.{ℕ, ◌≤◌};

    ghost Value = { ℕ };

    ghost view = { λ p. p.digits };

    ghost invariant = { λ p. p.digits ≤ 6 };

    ghost inverse = { λ n. record { digits = n } };
}

/// How many digits a decimal has, 1 to 65, and how many of them stand after the point, at most 30.
#[derive(Clone, Copy)]
pub struct DecimalSize {
    pub precision: u8,
    pub scale: u8,
}

impl Model for DecimalSize {
    ghost use Rattle.binlog_table.specs.DecimalDigits.{DecimalDigits, IsInRange};

    ghost Value = { DecimalDigits };

    ghost view = { λ d. record { precision = d.precision; scale = d.scale } };

    ghost invariant = { λ d. IsInRange (record { precision = d.precision; scale = d.scale }) };

    ghost inverse = { λ d. record { precision = d.precision; scale = d.scale } };
}

/// How the values of a column are stored, and what they mean.
#[derive(Clone, Copy)]
pub enum Layout {
    /// TINYINT to BIGINT: so many bytes, the lowest first, two's complement where signed.
    Integer(ByteCount),
    /// YEAR: a byte, 0 for the year 0000, else the years since 1900.
    Year,
    /// DATE in three bytes.
    Date,
    /// CHAR, VARCHAR, BINARY, BLOB, TEXT: a length of so many bytes, then the bytes.
    Text(ByteCount),
    /// JSON and GEOMETRY: as text, and given as it stands.
    Raw(ByteCount),
    /// FLOAT and DOUBLE: so many bytes, given as they stand.
    Float(ByteCount),
    /// BIT: so many bytes, the highest first.
    Bits(ByteCount),
    /// TIMESTAMP with a fraction of some digits.
    Timestamp(Precision),
    /// DATETIME with a fraction of some digits.
    DateTime(Precision),
    /// TIME with a fraction of some digits.
    Time(Precision),
    /// DECIMAL.
    Decimal(DecimalSize),
    /// ENUM: the number of a name.
    Enum(EnumSize),
    /// SET: a bit for each name, in so many bytes.
    Set(ByteCount),
}

/// A column without its name: how its values are stored, and whether its integers are unsigned.
#[derive(Clone, Copy)]
pub struct Column {
    pub layout: Layout,
    pub unsigned: bool,
}
