//! Text that grows at its end by pieces that are mostly short.
ghost use Rattle.std.specs.Prelude.{◌+◌, ◌<◌, ◌≤◌, ◌++◌, ◌∷◌, [], length, take};
ghost use Rattle.json.specs.Filled.{Placed};

use crate::scalar::Finite;
use float_text::{NUMBER_ROOM, put_number};
use std::alloc::{AllocError, Global};
use std::mem;
use std::simd::prelude::*;

/// A text whose room is written before, so that a short piece is stored into it without a call.
#[derive(Drop)]
pub(crate) struct Draft {
    /// What is written, and the room behind it.
    bytes: Vec<u8>,
    len: usize,
    /// A piece that others put together.
    pub(crate) piece: Vec<u8>,
    ghost within: { len ≤ length bytes.items },
}

impl Draft {
    ghost use Rattle.std.specs.Prelude.{◌≡◌, ◌+◌, ◌≤◌, ◌++◌, ◌∷◌, [], length, take, OnOk};
    ghost use Rattle.binlog_documents.specs.Drafts.{said};
    ghost use Rattle.binlog_documents.specs.Texts.{double_text};

    /// An empty text. It takes no memory.
    pub(crate) fn new(alloc: Global) -> Draft
        ensures bytes { said result ≡ [] }
    {
        Draft {
            bytes: Vec::new(alloc),
            len: 0,
            piece: Vec::new(alloc),
        }
    }

    pub(crate) fn clear(&mut self)
        ensures bytes { said self.new ≡ [] }
    {
        self.len = 0;
    }

    pub(crate) fn as_bytes(&self) -> &[u8]
        ensures value { result.now ≡ said self.now }
    {
        &self.bytes[..self.len]
    }

    /// Sees to room for so many bytes.
    #[inline(always)]
    fn make_room(&mut self, more: usize) -> Result<(), AllocError>
        ensures bytes { said self.new ≡ said self.old }
        ensures len { self.new.len ≡ self.old.len }
        ensures room { OnOk result (self.new.len + more ≤ length self.new.bytes.items) }
    {
        if more <= self.bytes.len() - self.len {
            return Ok(());
        }
        self.grow(more)
    }

    #[cold]
    fn grow(&mut self, more: usize) -> Result<(), AllocError>
        ensures bytes { said self.new ≡ said self.old }
        ensures len { self.new.len ≡ self.old.len }
        ensures room { OnOk result (self.new.len + more ≤ length self.new.bytes.items) }
    {
        let room = self.bytes.len();
        match room.checked_add(more) {
            None => Err(AllocError),
            Some(least) => self.bytes.resize(least.saturating_add(room), 0),
        }
    }

    #[inline(always)]
    pub(crate) fn push_byte(&mut self, byte: u8) -> Result<(), AllocError>
        ensures { OnOk result (said self.new ≡ said self.old ++ byte ∷ []) }
    {
        self.make_room(1)?;
        self.len = put_byte(self.bytes.as_mut_slice(), self.len, byte);
        Ok(())
    }

    /// Appends a text. Where its length is known, it takes no call.
    #[inline(always)]
    pub(crate) fn push(&mut self, text: &[u8]) -> Result<(), AllocError>
        ensures { OnOk result (said self.new ≡ said self.old ++ text.now) }
    {
        self.make_room(text.len())?;
        self.len = put(self.bytes.as_mut_slice(), self.len, text);
        Ok(())
    }

    /// Appends a text between quotation marks.
    #[inline(always)]
    pub(crate) fn push_string(&mut self, text: &[u8]) -> Result<(), AllocError>
        ensures { OnOk result (said self.new ≡ said self.old ++ 34 ∷ (text.now ++ 34 ∷ [])) }
    {
        self.make_room(text.len() + 2)?;
        self.len = put_string(self.bytes.as_mut_slice(), self.len, text);
        Ok(())
    }

    /// Appends the first bytes of sixteen or more between quotation marks.
    #[inline(always)]
    pub(crate) fn push_first_string(&mut self, text: &[u8], count: usize) -> Result<(), AllocError>
        requires text { 16 ≤ length text.now }
        requires count { count ≤ 16 }
        ensures { OnOk result (said self.new ≡ said self.old ++ 34 ∷ (take count text.now ++ 34 ∷ [])) }
    {
        self.make_room(18)?;
        self.len = put_first_string(self.bytes.as_mut_slice(), self.len, text, count);
        Ok(())
    }

    /// Appends the first bytes of sixteen or more between quotation marks, and a colon.
    #[inline(always)]
    pub(crate) fn push_first_key(&mut self, text: &[u8], count: usize) -> Result<(), AllocError>
        requires text { 16 ≤ length text.now }
        requires count { count ≤ 16 }
        ensures { OnOk result (said self.new ≡ said self.old ++ 34 ∷ (take count text.now ++ 34 ∷ 58 ∷ [])) }
    {
        self.make_room(19)?;
        self.len = put_first_key(self.bytes.as_mut_slice(), self.len, text, count);
        Ok(())
    }

    /// Appends the text of a finite double.
    #[inline(always)]
    pub(crate) fn push_double(&mut self, double: Finite) -> Result<(), AllocError>
        ensures { OnOk result (said self.new ≡ said self.old ++ double_text double.bits) }
    {
        self.make_room(NUMBER_ROOM)?;
        self.len = put_number::<f64>(self.bytes.as_mut_slice(), self.len, double.bits);
        Ok(())
    }

    /// Appends the piece.
    pub(crate) fn push_piece(&mut self) -> Result<(), AllocError>
        ensures { OnOk result (said self.new ≡ said self.old ++ self.old.piece.items) }
    {
        let empty = Vec::new(*self.piece.allocator());
        let piece = mem::replace(&mut self.piece, empty);
        let pushed = self.push(&piece);
        self.piece = piece;
        pushed
    }
}

/// Puts a byte to a place. Where it ends.
#[inline(always)]
fn put_byte(bytes: &mut [u8], at: usize, byte: u8) -> usize
    requires { at < length bytes.old }
    ensures { Placed bytes.old bytes.new at (byte ∷ []) result }
{
    bytes[at] = byte;
    at + 1
}

/// Puts a text to a place. Where it ends.
#[inline(always)]
fn put(bytes: &mut [u8], at: usize, text: &[u8]) -> usize
    requires { at + length text.now ≤ length bytes.old }
    ensures { Placed bytes.old bytes.new at text.now result }
{
    let end = at + text.len();
    bytes[at..end].copy_from_slice(text);
    end
}

/// Puts a text between quotation marks to a place. Where it ends.
#[inline(always)]
fn put_string(bytes: &mut [u8], at: usize, text: &[u8]) -> usize
    requires { at + length text.now + 2 ≤ length bytes.old }
    ensures { Placed bytes.old bytes.new at (34 ∷ (text.now ++ 34 ∷ [])) result }
{
    let begin = put_byte(bytes, at, b'"');
    let end = put(bytes, begin, text);
    put_byte(bytes, end, b'"')
}

/// Puts the first bytes of sixteen or more to a place, by one copy. Where they end.
#[inline(always)]
fn put_first(bytes: &mut [u8], at: usize, text: &[u8], count: usize) -> usize
    requires count { count ≤ 16 }
    requires text { 16 ≤ length text.now }
    requires room { at + 16 ≤ length bytes.old }
    ensures { Placed bytes.old bytes.new at (take count text.now) result }
{
    put_sixteen(bytes, at, text);
    at + count
}

#[inline(always)]
fn put_sixteen(bytes: &mut [u8], at: usize, text: &[u8]) -> usize
    requires text { 16 ≤ length text.now }
    requires room { at + 16 ≤ length bytes.old }
    ensures { Placed bytes.old bytes.new at (take 16 text.now) result }
{
    u8x16::from_slice(text).copy_to_slice(&mut bytes[at..]);
    at + 16
}

#[inline(always)]
fn put_first_string(bytes: &mut [u8], at: usize, text: &[u8], count: usize) -> usize
    requires count { count ≤ 16 }
    requires text { 16 ≤ length text.now }
    requires room { at + 18 ≤ length bytes.old }
    ensures { Placed bytes.old bytes.new at (34 ∷ (take count text.now ++ 34 ∷ [])) result }
{
    let begin = put_byte(bytes, at, b'"');
    let end = put_first(bytes, begin, text, count);
    put_byte(bytes, end, b'"')
}

#[inline(always)]
fn put_first_key(bytes: &mut [u8], at: usize, text: &[u8], count: usize) -> usize
    requires count { count ≤ 16 }
    requires text { 16 ≤ length text.now }
    requires room { at + 19 ≤ length bytes.old }
    ensures { Placed bytes.old bytes.new at (34 ∷ (take count text.now ++ 34 ∷ 58 ∷ [])) result }
{
    let begin = put_byte(bytes, at, b'"');
    let end = put_first(bytes, begin, text, count);
    put(bytes, end, b"\":")
}
