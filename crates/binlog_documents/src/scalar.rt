//! Values that have no parts.
ghost use Rattle.std.specs.Prelude.{◌≡◌, true};
ghost use Rattle.binlog_documents.specs.Scalars.{is_finite};

/// The bits of a double that is neither infinite nor NaN.
#[derive(Clone, Copy)]
pub(crate) struct Finite {
    pub(crate) bits: u64,
    ghost finite: { is_finite bits ≡ true },
}

/// A value that has no parts.
#[derive(Clone, Copy)]
pub(crate) enum Scalar<'a> {
    Null,
    Boolean(bool),
    Signed(i64),
    Unsigned(u64),
    Double(Finite),
    Text(&'a str),
    /// A value of another of MySQL's types: the type, and the bytes.
    Opaque(u8, &'a [u8]),
}
