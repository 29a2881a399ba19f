//! Laws of the texts, as contracts of functions that do nothing.

ghost use Rattle.std.specs.Prelude.{◌≡◌, ◌<◌, ℕ, List, length, slice_index};
ghost use Rattle.binlog_select.specs.Gtid.{source_number};
ghost use Rattle.binlog_select.specs.SetText.{ProfilesReadSets};
ghost use Rattle.binlog_select.specs.Spelling.{SpellsOneToken};
ghost use Rattle.binlog_select.specs.Tags.{RanksTellApart};

use uuid::Uuid;

/// A text spells at most one token.
pub fn one_token()
    ensures { (text : List ℕ) → SpellsOneToken text }
{}

/// A text that names a set by the strict profile names the same one by the server's.
pub fn profiles_read_sets()
    ensures { ProfilesReadSets }
{}

/// The rank by which a source is kept tells its server, and its tag but for capitals.
pub fn one_tag()
    ensures { RanksTellApart }
{}

/// Two UUIDs with one number are one, so that a set's sources can be kept as numbers.
pub fn one_source(a: Uuid, b: Uuid)
    ensures { source_number a ≡ source_number b → a ≡ b }
{
    sixteen_bytes(a.as_bytes());
    sixteen_bytes(b.as_bytes());
}

/// An array of sixteen bytes has that length, and bytes in it.
fn sixteen_bytes(bytes: &[u8; 16])
    ensures length { length bytes.now ≡ 16 }
    ensures bytes { (i : ℕ) → slice_index bytes.now i < 256 }
{
    are_bytes(bytes.as_slice());
}

/// A slice of bytes has bytes in it.
fn are_bytes(bytes: &[u8])
    ensures { (i : ℕ) → slice_index bytes.now i < 256 }
{}
