//! Sets of GTIDs: read from a text, written, and asked for a transaction.
ghost use Rattle.std.specs.Prelude.{◌≡◌, ◌↔◌, ℕ, All, IfOk, MatchResult, OnOk, OnErr, IsTrue, List, string_bytes};
ghost use Rattle.binlog_select.specs.Gtid.{HasGtid, HasTaggedGtid};
ghost use Rattle.binlog_select.specs.Intervals.{HasNoTag, IsJoined, IsMember, SameNumbers};
ghost use Rattle.binlog_select.specs.SetForm.{written};
ghost use Rattle.binlog_select.specs.Text.{BeginsWith, GrowsBy};
ghost use Rattle.binlog_select.specs.SetText.{elements, IsSetText, IsSetTextBy, NamesOneSet};
ghost use Rattle.binlog_select.specs.Appending.{RefusesFirstBad, RefusesFirstBadBy};
ghost use Rattle.binlog_select.specs.Tags.{rank};
ghost use Rattle.binlog_profile.specs.declared.profile.Profile.TheVariants.{Server};

use crate::interval::Interval;
use crate::joining::joined;
use crate::set_fault::SetFault;
use crate::set_form;
use crate::set_text::read;
use crate::source::Source;
use crate::tag::{is_same, lies_before, named, untagged};
use binlog_profile::Profile;
use std::alloc::{AllocError, Global};
use std::marker::Model;
use uuid::Uuid;

/// A set of GTIDs: a source, a tag or none, and a number from 1 to 2^63 - 1.
///
/// The intervals are kept sorted by source, tag and number, with adjacent and overlapping ones joined.
#[derive(Drop)]
pub struct GtidSet {
    intervals: Vec<Interval>,
}

impl Model for GtidSet {
    ghost use Rattle.std.specs.Prelude.{List};
    ghost use Rattle.binlog_select.specs.declared.interval.Interval.{Interval};
    ghost use Rattle.binlog_select.specs.Intervals.{IsJoined};

    ghost Value = { List Interval };

    ghost view = { λ s. s.intervals.items };

    ghost invariant = { λ s. IsJoined s.intervals.items };
}

impl Clone for GtidSet {
    ghost is_clone = { λ set copy. copy ≡ set };

    /// The same set, in memory of its own.
    fn clone(&self) -> Result<GtidSet, AllocError>
        // What the trait says of each `clone`.
        ensures cases { MatchResult result (λ copy. copy ≡ self.now) (λ _. ¬ ⊥) }
        ensures same { IfOk result (λ copy. copy ≡ self.now) }
    {
        Ok(GtidSet {
            intervals: self.intervals.clone()?,
        })
    }
}

impl GtidSet {
    /// The set that a text names: elements parted by commas, each a UUID and one or more `:n` or `:n-m`.
    ///
    /// A text of blanks alone names the empty set. Otherwise `BadSet` has the number, from 0, of the
    /// first element that isn't one.
    pub fn parse(alloc: Global, text: &str) -> Result<GtidSet, SetFault>
        ensures read { IfOk result (IsSetText text.now) }
        ensures refused { RefusesFirstBad (elements text.now) result }
    {
        GtidSet::parse_by(alloc, Profile::Strict, text)
    }

    /// The set that a text names by a profile. By the server's one tags stand among an element's
    /// intervals: `:t:n` or `:t:n-m` for those with the tag `t`, and more intervals behind that have it
    /// too, until the next tag. A tag has 1 to 32 letters, digits and `_`, no digit first, and capitals
    /// name the same as small letters.
    pub fn parse_by(alloc: Global, profile: Profile, text: &str) -> Result<GtidSet, SetFault>
        ensures read { IfOk result (IsSetTextBy profile text.now) }
        ensures refused { RefusesFirstBadBy profile (elements text.now) result }
    {
        let mut intervals = read(alloc, profile, text.as_bytes())?;
        intervals.sort_unstable();
        let intervals = joined(alloc, &intervals)?;
        Ok(GtidSet { intervals })
    }

    /// Appends the written form: sources in the order of their bytes, in lower case and parted by `,`,
    /// each followed by its intervals, ascending, adjacent and overlapping ones joined, one number as `:n`
    /// and more as `:n-m`. Those without a tag come first, then each tag, in the order of their bytes and
    /// in small letters, with its own.
    ///
    /// After an error the text begins with what it held.
    pub fn write(&self, text: &mut String) -> Result<(), AllocError>
        ensures form { IsJoined self.now }
        ensures ok { OnOk result (GrowsBy text.old text.new (written self.now)) }
        ensures err { OnErr result (BeginsWith (string_bytes text.new) (string_bytes text.old)) }
    {
        set_form::write(&self.intervals, text)
    }

    /// Whether the GTID of a source and a number, without a tag, is in the set.
    pub fn contains(&self, source: Uuid, number: u64) -> bool
        ensures { IsTrue result ↔ HasGtid self.now source number }
    {
        holds(&self.intervals, untagged(source.as_u128()), number)
    }

    /// Whether the GTID of a source, a tag and a number is in the set. An empty tag is none.
    pub fn contains_tagged(&self, source: Uuid, tag: &[u8], number: u64) -> bool
        ensures { IsTrue result ↔ HasTaggedGtid self.now source tag.now number }
    {
        holds(&self.intervals, named(source.as_u128(), tag), number)
    }
}

/// Whether a number is in one of the intervals, by binary search.
fn holds(intervals: &[Interval], source: Source, number: u64) -> bool
    requires { IsJoined intervals.now }
    ensures { IsTrue result ↔ IsMember intervals.now (rank source) number }
{
    let at = intervals.partition_point(|interval| lies_before(interval, source, number));
    if at == intervals.len() {
        return false;
    }
    let found = intervals[at];
    is_same(found.source, source) && found.first <= number
}

/// Sets with the same GTIDs are one value, so they have one written form.
pub fn one_written_form(a: &GtidSet, b: &GtidSet)
    ensures value { SameNumbers a.now b.now → a.now ≡ b.now }
    ensures written { SameNumbers a.now b.now → written a.now ≡ written b.now }
{
    let _ = &a.intervals;
    let _ = &b.intervals;
}

/// The written form of a set is a text that names the same set, by the strict profile where it has no tag.
pub fn written_form_names_the_set(set: &GtidSet)
    ensures server { IsSetTextBy Server (written set.now) set.now }
    ensures strict { All HasNoTag set.now → IsSetText (written set.now) set.now }
{
    let _ = &set.intervals;
}

/// A text names at most one set by a profile.
pub fn one_set_for_each_text(a: &GtidSet, b: &GtidSet)
    ensures { NamesOneSet a.now b.now }
{
    let _ = &a.intervals;
    let _ = &b.intervals;
}
