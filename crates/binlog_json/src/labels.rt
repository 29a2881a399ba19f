//! A table's names as lines have them, and those of its columns as they stand in front of members, each behind a comma. They are kept
//! from image to image by the body of the table's map.
ghost use Rattle.std.specs.Prelude.{◌≡◌, ◌<◌, ◌≤◌, ℕ, List, length, take, true, Ok, OnOk};
ghost use Rattle.std.proofs.Props.{props};
ghost use Rattle.binlog_table.specs.Map.{Map, map_at_by};
ghost use Rattle.binlog_profile.specs.declared.profile.Profile.TheVariants.{Server};
ghost use Rattle.binlog_json.specs.Labels.{AreLabels, label_text};
ghost use Rattle.binlog_json.specs.Written.{label_joined, table_text};
ghost use Rattle.binlog_json.specs.LineBytes.{line_bytes};
ghost use Rattle.binlog_json.specs.Growth.{Gains};

use crate::append::Quoter;
use crate::lines::Line;
use crate::values::append_member_name;
use binlog_table::TableMap;
use std::alloc::{AllocError, Global};

/// How many tables' labels are kept.
const TABLES: usize = 16;

/// What stands behind the last label, so that each can be copied by sixteen bytes.
const PADDING: &str = "                ";

/// The labels of a table's columns, one behind another, where each begins and ends, and the body of the map that has the names.
#[derive(Drop)]
pub(crate) struct Labels {
    /// Whether they are those of the body.
    are_known: bool,
    body: Vec<u8>,
    /// The members of the schema and the table.
    names: Line,
    text: Line,
    bounds: Vec<(usize, usize)>,
    ghost known: { are_known ≡ true → (map : Map) → map_at_by Server body.items ≡ Ok map → AreLabels map.names (line_bytes text) bounds.items } by { Prim.hlevel props },
    ghost named: { are_known ≡ true → (map : Map) → map_at_by Server body.items ≡ Ok map → line_bytes names ≡ table_text map.schema map.table } by { Prim.hlevel props },
}

impl Labels {
    ghost use Rattle.binlog_json.specs.LineBytes.{line_bytes};
    ghost use Rattle.std.specs.Prelude.{◌≡◌, ◌<◌, ◌≤◌, ℕ, List, length, take, true, Ok, OnOk};
    ghost use Rattle.binlog_json.specs.Labels.{AreLabels, label_text};
    ghost use Rattle.binlog_json.specs.Written.{table_text};
    ghost use Rattle.binlog_json.specs.KeptLabels.{GainsLabel, GivesLabel, HasLabelOf, HasLabels};

    fn new(alloc: Global) -> Labels {
        Labels {
            are_known: false,
            body: Vec::new(alloc),
            names: Line::new(alloc),
            text: Line::new(alloc),
            bounds: Vec::new(alloc),
        }
    }

    /// Takes the labels of a map's columns in place of those that it held, unless it holds these.
    pub(crate) fn take(&mut self, map: &TableMap, quoter: &mut Quoter) -> Result<(), AllocError>
        ensures labels { OnOk result (HasLabels self.new map.now.names) }
        ensures names { OnOk result (line_bytes self.new.names ≡ table_text map.now.schema map.now.table) }
    {
        if self.are_known && map.spells(&self.body) {
            return Ok(());
        }
        self.are_known = false;
        self.names.clear();
        append_names(&mut self.names, quoter, map.schema(), map.table())?;
        write_labels(&mut self.text, &mut self.bounds, quoter, map)?;
        self.body.clear();
        self.body.extend_from_slice(map.body())?;
        self.are_known = true;
        Ok(())
    }

    /// The members of the schema and the table.
    pub(crate) fn names(&self) -> &str
        ensures { result.now ≡ line_bytes self.now.names }
    {
        self.names.as_str()
    }

    /// The label of a column, with the comma in front of it: so many bytes of what is answered.
    #[inline(always)]
    fn label(&self, column: usize) -> (&[u8], usize)
        requires { HasLabelOf self.now column }
        ensures label { GivesLabel self.now column result }
        ensures count { result.1 ≤ length result.0.now }
    {
        let (start, end) = self.bounds[column];
        (&self.text.as_bytes()[start..], end - start)
    }

    /// Appends the label of a column, without the comma in front of it unless a member stands before it.
    #[inline(always)]
    pub(crate) fn append_label(
        &self,
        out: &mut Line,
        column: usize,
        later: bool,
    ) -> Result<(), AllocError>
        requires { HasLabelOf self.now column }
        ensures { OnOk result (GainsLabel self.now column later out.old out.new) }
    {
        let (label, count) = self.label(column);
        let (label, count) = joined(label, count, later);
        out.push_first(label, count)
    }
}

/// A label of so many bytes, without the comma in front of it unless a member stands before it.
#[inline(always)]
fn joined(label: &[u8], count: usize, later: bool) -> (&[u8], usize)
    requires some { 0 < count }
    requires count { count ≤ length label.now }
    ensures label { take result.1 result.0.now ≡ label_joined later (take count label.now) }
    ensures count { result.1 ≤ length result.0.now }
{
    if later {
        (label, count)
    } else {
        (&label[1..], count - 1)
    }
}

/// The members of a schema and a table, with the comma before each.
pub(crate) fn append_names(
    out: &mut Line,
    quoter: &mut Quoter,
    schema: &str,
    table: &str,
) -> Result<(), AllocError>
    ensures { OnOk result (Gains out.old out.new (table_text schema.now table.now)) }
{
    out.push_str(",\"schema\":")?;
    quoter.append(out, schema)?;
    out.push_str(",\"table\":")?;
    quoter.append(out, table)
}

/// Writes the labels of a map's columns in place of others.
fn write_labels(
    text: &mut Line,
    bounds: &mut Vec<(usize, usize)>,
    quoter: &mut Quoter,
    map: &TableMap,
) -> Result<(), AllocError>
    ensures { OnOk result (AreLabels map.now.names (line_bytes text.new) bounds.new.items) }
{
    text.clear();
    bounds.clear();
    for column in 0..map.column_count() {
        let start = text.len();
        text.push_str(",")?;
        append_member_name(text, quoter, map.column_name(column))?;
        bounds.push((start, text.len()))?;
    }
    text.push_str(PADDING)?;
    Ok(())
}

/// The labels of some tables, each at a place that its table's id has.
#[derive(Drop)]
pub(crate) struct KeptLabels {
    alloc: Global,
    tables: Vec<Labels>,
}

impl KeptLabels {
    pub(crate) fn new(alloc: Global) -> KeptLabels {
        KeptLabels {
            alloc,
            tables: Vec::new(alloc),
        }
    }

    /// What is kept at the place of a table.
    pub(crate) fn at(&mut self, table_id: u64) -> Result<&mut Labels, AllocError> {
        let place = (table_id % TABLES as u64) as usize;
        for _missing in self.tables.len()..place + 1 {
            self.tables.push(Labels::new(self.alloc))?;
        }
        match self.tables.get_mut(place) {
            None => Err(AllocError),
            Some(labels) => Ok(labels),
        }
    }
}
