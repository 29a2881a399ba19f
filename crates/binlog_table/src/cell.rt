//! What a cell holds: nothing, null, or a value, with the types of dates and times.
use crate::decimal_view::DecimalView;

/// A day. No range is checked: months go to 15, and a day, a month or a year may be 0.
#[derive(Clone, Copy, Debug, PartialEq, Eq)]
pub struct Date {
    pub year: u16,
    pub month: u8,
    pub day: u8,
}

/// A day and a time of day. No range but the fraction's is checked.
#[derive(Clone, Copy, Debug, PartialEq, Eq)]
pub struct DateTime {
    pub year: u32,
    pub month: u8,
    pub day: u8,
    pub hour: u8,
    pub minute: u8,
    pub second: u8,
    /// In hundredths at a precision of 1 or 2, in ten-thousandths at 3 or 4, in millionths at 5 or 6.
    pub fraction: u32,
    /// How many digits the column's fractions have: 0 to 6.
    pub precision: u8,
}

/// A time, perhaps below zero: a length of time, of up to 1023 hours.
#[derive(Clone, Copy, Debug, PartialEq, Eq)]
pub struct Time {
    pub negative: bool,
    pub hour: u16,
    pub minute: u8,
    pub second: u8,
    /// In hundredths at a precision of 1 or 2, in ten-thousandths at 3 or 4, in millionths at 5 or 6.
    pub fraction: u32,
    /// How many digits the column's fractions have: 0 to 6.
    pub precision: u8,
}

/// Seconds since 1970.
#[derive(Clone, Copy, Debug, PartialEq, Eq)]
pub struct Timestamp {
    pub seconds: u32,
    /// In hundredths at a precision of 1 or 2, in ten-thousandths at 3 or 4, in millionths at 5 or 6.
    pub fraction: u32,
    /// How many digits the column's fractions have: 0 to 6.
    pub precision: u8,
}

/// A column's value in a row image.
#[derive(Clone, Copy)]
pub enum Cell<'a> {
    /// The image doesn't have the column.
    Absent,
    Null,
    Int(i64),
    UInt(u64),
    Decimal(DecimalView<'a>),
    Year(u16),
    Date(Date),
    DateTime(DateTime),
    Time(Time),
    Timestamp(Timestamp),
    Bits(u64),
    /// The number of a name, from 1; 0 is the empty name.
    Enum(u16),
    /// A bit for each name, the lowest for the first.
    Set(u64),
    /// The bytes of a text or a blob, in the column's character set.
    Bytes(&'a [u8]),
    /// A float, a double, JSON or a geometry, as it is stored.
    Raw(&'a [u8]),
}
