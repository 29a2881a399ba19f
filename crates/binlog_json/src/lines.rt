//! Text that grows at its end by pieces that are mostly short.
ghost use Rattle.std.specs.Prelude.{◌≡◌, ◌≤◌, length, take};
ghost use Rattle.std.specs.Str.{IsUtf8};

use crate::pieces::{
    count_digits, put_at_once, put_byte, put_digits, put_first, put_number, put_text,
};
use std::alloc::{AllocError, Global};

/// A text like a `String`, whose room is written before, so that a short piece is stored into it without a call.
#[derive(Drop)]
pub(crate) struct Line {
    /// What is written, and the room behind it.
    bytes: Vec<u8>,
    len: usize,
    ghost within: { len ≤ length bytes.items },
    ghost utf8: { ∥ IsUtf8 (take len bytes.items) ∥₁ },
}

impl Line {
    ghost use Rattle.std.specs.Prelude.{◌≡◌, ◌+◌, ◌<◌, ◌≤◌, ◌++◌, ◌∷◌, [], length, take, is_ok, if◌then◌else◌, OnOk, decimal, string_bytes};
    ghost use Rattle.std.specs.Str.{IsUtf8};
    ghost use Rattle.binlog_table.specs.Decimal.{digits_of};
    ghost use Rattle.binlog_json.specs.Texts.{digits_text};
    ghost use Rattle.binlog_json.specs.LineBytes.{line_bytes};
    ghost use Rattle.binlog_json.specs.Growth.{GainsOrStays};

    /// An empty text. It takes no memory.
    pub(crate) fn new(alloc: Global) -> Line
        ensures bytes { line_bytes result ≡ [] }
    {
        Line {
            bytes: Vec::new(alloc),
            len: 0,
        }
    }

    pub(crate) fn clear(&mut self)
        ensures bytes { line_bytes self.new ≡ [] }
    {
        self.len = 0;
    }

    #[inline(always)]
    pub(crate) fn len(&self) -> usize
        ensures { result ≡ length (line_bytes self.now) }
    {
        self.len
    }

    #[inline(always)]
    pub(crate) fn as_bytes(&self) -> &[u8]
        ensures value { result.now ≡ line_bytes self.now }
    {
        &self.bytes[..self.len]
    }

    #[inline(always)]
    pub(crate) fn as_str(&self) -> &str
        ensures value { result.now ≡ line_bytes self.now }
    {
        unsafe { str::from_utf8_unchecked(self.as_bytes()) }
    }

    pub(crate) fn into_string(self) -> String
        ensures value { string_bytes result ≡ line_bytes self }
    {
        let Line { bytes, len } = self;
        let mut bytes = bytes;
        bytes.truncate(len);
        unsafe { String::from_utf8_unchecked(bytes) }
    }

    /// Sees to room for so many bytes.
    #[inline(always)]
    fn make_room(&mut self, more: usize) -> Result<(), AllocError>
        ensures bytes { line_bytes self.new ≡ line_bytes self.old }
        ensures len { self.new.len ≡ self.old.len }
        ensures room { OnOk result (self.new.len + more ≤ length self.new.bytes.items) }
    {
        if more <= self.bytes.len() - self.len {
            return Ok(());
        }
        self.grow(more)
    }

    #[cold]
    fn grow(&mut self, more: usize) -> Result<(), AllocError>
        ensures bytes { line_bytes self.new ≡ line_bytes self.old }
        ensures len { self.new.len ≡ self.old.len }
        ensures room { OnOk result (self.new.len + more ≤ length self.new.bytes.items) }
    {
        let room = self.bytes.len();
        match room.checked_add(more) {
            None => Err(AllocError),
            Some(least) => self.bytes.resize(least.saturating_add(room), 0),
        }
    }

    /// Appends an ASCII character: it, or nothing where a growth was refused.
    #[inline(always)]
    pub(crate) fn push(&mut self, byte: u8) -> Result<(), AllocError>
        requires { byte < 128 }
        ensures bytes { GainsOrStays self.old self.new result (byte ∷ []) }
    {
        self.make_room(1)?;
        self.len = put_byte(self.bytes.as_mut_slice(), self.len, byte);
        Ok(())
    }

    /// Appends a text: all of it, or nothing where a growth was refused.
    #[inline(always)]
    pub(crate) fn push_str(&mut self, text: &str) -> Result<(), AllocError>
        ensures bytes { GainsOrStays self.old self.new result text.now }
    {
        let text = text.as_bytes();
        self.make_room(text.len())?;
        self.len = put_text(self.bytes.as_mut_slice(), self.len, text);
        Ok(())
    }

    /// Appends a text whose length is known where it is put together: all of it, or nothing where a growth was refused. It takes no look at
    /// the length.
    #[inline(always)]
    pub(crate) fn push_array<const LEN: usize>(
        &mut self,
        text: &[u8; LEN],
    ) -> Result<(), AllocError>
        requires { IsUtf8 text.now }
        ensures bytes { GainsOrStays self.old self.new result text.now }
    {
        self.make_room(LEN)?;
        self.len = put_at_once(self.bytes.as_mut_slice(), self.len, text);
        Ok(())
    }

    /// Appends a number in decimal digits: all of them, or nothing where a growth was refused. They are written where they stand.
    #[inline(always)]
    pub(crate) fn push_number(&mut self, number: u64) -> Result<(), AllocError>
        ensures bytes { GainsOrStays self.old self.new result (decimal number) }
    {
        let count = count_digits(number);
        self.make_room(count)?;
        self.len = put_number(self.bytes.as_mut_slice(), self.len, number, count);
        Ok(())
    }

    /// Appends the first bytes of others, which are text: all of them, or nothing where a growth was refused. They take one copy where
    /// they are few and others stand behind them.
    #[inline(always)]
    pub(crate) fn push_first(&mut self, text: &[u8], count: usize) -> Result<(), AllocError>
        requires count { count ≤ length text.now }
        requires utf8 { IsUtf8 (take count text.now) }
        ensures bytes { GainsOrStays self.old self.new result (take count text.now) }
    {
        if count > 16 || text.len() < 16 {
            return self.push_str(unsafe { str::from_utf8_unchecked(&text[..count]) });
        }
        self.make_room(16)?;
        self.len = put_first(self.bytes.as_mut_slice(), self.len, text, count);
        Ok(())
    }

    /// Appends the last digits of a number: so many, or nothing where a growth was refused.
    #[inline(always)]
    pub(crate) fn push_digits(&mut self, number: u64, width: usize) -> Result<(), AllocError>
        ensures bytes { GainsOrStays self.old self.new result (digits_text (digits_of width number)) }
    {
        self.make_room(width)?;
        self.len = put_digits(self.bytes.as_mut_slice(), self.len, number, width);
        Ok(())
    }
}
