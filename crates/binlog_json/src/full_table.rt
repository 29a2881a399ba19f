//! What full lines need of a table: its columns' types and the names of its key, kept from line to line by the body of the table's map.
ghost use Rattle.std.specs.Prelude.{◌≡◌, ◌<◌, length, true, Ok, OnOk};
ghost use Rattle.std.proofs.Props.{props};
ghost use Rattle.binlog_table.specs.Map.{Map, map_at_by};
ghost use Rattle.binlog_profile.specs.declared.profile.Profile.TheVariants.{Server};
ghost use Rattle.binlog_types.specs.ColumnTypes.{types_of};
ghost use Rattle.binlog_json.specs.FullWritten.{key_part, key_text, type_member};
ghost use Rattle.binlog_json.specs.JsonNulls.{has_documents};
ghost use Rattle.binlog_json.specs.TypeTexts.{types_data};
ghost use Rattle.binlog_json.specs.LineBytes.{line_bytes};
ghost use Rattle.binlog_json.specs.Growth.{Gains, Prints};

use crate::append::{Quoter, append_comma};
use crate::full_image::type_at;
use crate::full_values::is_json;
use crate::lines::Line;
use crate::type_texts::append_type;
use crate::values::append_member_name;
use binlog_table::TableMap;
use binlog_types::{ColumnType, types_of};
use std::alloc::{AllocError, Global};

/// How many tables are kept.
const TABLES: usize = 16;

/// The types of a table's columns and the member with its key, and the body of the map that says them.
#[derive(Drop)]
pub(crate) struct FullTable {
    /// Whether they are those of the body.
    are_known: bool,
    body: Vec<u8>,
    pub(crate) types: Vec<ColumnType>,
    /// Whether one of them is JSON.
    pub(crate) has_json: bool,
    /// The members `key` and `types`.
    pub(crate) key: Line,
    ghost typed: { are_known ≡ true → (map : Map) → map_at_by Server body.items ≡ Ok map → types.items ≡ types_of map.sections } by { Prim.hlevel props },
    ghost keyed: { are_known ≡ true → (map : Map) → map_at_by Server body.items ≡ Ok map → line_bytes key ≡ key_part map } by { Prim.hlevel props },
    ghost documented: { are_known ≡ true → has_json ≡ has_documents types.items },
}

impl FullTable {
    ghost use Rattle.std.specs.Prelude.{◌≡◌, true, Ok, OnOk};
    ghost use Rattle.binlog_types.specs.ColumnTypes.{types_of};
    ghost use Rattle.binlog_json.specs.FullWritten.{key_part};
    ghost use Rattle.binlog_json.specs.JsonNulls.{has_documents};
    ghost use Rattle.binlog_json.specs.LineBytes.{line_bytes};

    fn new(alloc: Global) -> FullTable {
        FullTable {
            are_known: false,
            body: Vec::new(alloc),
            types: Vec::new(alloc),
            has_json: false,
            key: Line::new(alloc),
        }
    }

    /// Takes what a map says in place of what it held, unless it holds that.
    #[inline(never)]
    pub(crate) fn take(
        &mut self,
        alloc: Global,
        map: &TableMap,
        quoter: &mut Quoter,
        scratch: &mut Line,
    ) -> Result<(), AllocError>
        ensures types { OnOk result (self.new.types.items ≡ types_of map.now.sections) }
        ensures key { OnOk result (line_bytes self.new.key ≡ key_part map.now) }
        ensures documents { OnOk result (self.new.has_json ≡ has_documents self.new.types.items) }
    {
        if self.are_known && map.spells(&self.body) {
            return Ok(());
        }
        self.are_known = false;
        self.types = types_of(alloc, map)?;
        self.has_json = has_documents(&self.types);
        write_declared(&mut self.key, quoter, scratch, map, &self.types)?;
        self.body.clear();
        self.body.extend_from_slice(map.body())?;
        self.are_known = true;
        Ok(())
    }
}

/// Writes the members with the names of a key's columns and with the types of all columns in place of others.
fn write_declared(
    text: &mut Line,
    quoter: &mut Quoter,
    scratch: &mut Line,
    map: &TableMap,
    types: &[ColumnType],
) -> Result<(), AllocError>
    requires { types.now ≡ types_of map.now.sections }
    ensures { OnOk result (line_bytes text.new ≡ key_part map.now) }
{
    write_key(text, quoter, map)?;
    text.push_str(",\"types\":")?;
    append_types(text, quoter, scratch, map, types)
}

/// Whether one of these types is JSON.
fn has_documents(types: &[ColumnType]) -> bool
    ensures { result ≡ has_documents types.now }
{
    types.iter().any(|column_type| is_json(column_type.code))
}

/// Appends the types of all columns as an object, in the order of the table.
fn append_types(
    out: &mut Line,
    quoter: &mut Quoter,
    scratch: &mut Line,
    map: &TableMap,
    types: &[ColumnType],
) -> Result<(), AllocError>
    requires { types.now ≡ types_of map.now.sections }
    ensures { OnOk result (Prints out.old out.new (types_data map.now)) }
{
    out.push_str("{")?;
    let mut later = false;
    for column in 0..map.column_count() {
        append_comma(out, later)?;
        append_column_type(out, quoter, scratch, map, types, column)?;
        later = true;
    }
    out.push_str("}")?;
    Ok(())
}

/// Appends the member of a column's type.
fn append_column_type(
    out: &mut Line,
    quoter: &mut Quoter,
    scratch: &mut Line,
    map: &TableMap,
    types: &[ColumnType],
    column: usize,
) -> Result<(), AllocError>
    requires column { column < length map.now.columns }
    requires types { types.now ≡ types_of map.now.sections }
    ensures { OnOk result (Gains out.old out.new (type_member map.now column)) }
{
    append_member_name(out, quoter, map.column_name(column))?;
    scratch.clear();
    let column_type = type_at(types, column);
    append_type(scratch, &column_type)?;
    quoter.append(out, scratch.as_str())
}

/// Writes the member with the names of a key's columns in place of another.
fn write_key(text: &mut Line, quoter: &mut Quoter, map: &TableMap) -> Result<(), AllocError>
    ensures { OnOk result (line_bytes text.new ≡ key_text map.now) }
{
    text.clear();
    text.push_str(",\"key\":[")?;
    let mut later = false;
    let columns = map.key();
    for column in columns {
        append_comma(text, later)?;
        quoter.append(text, map.column_name(*column))?;
        later = true;
    }
    text.push_str("]")
}

/// What is kept of some tables, each at a place that its table's id has.
#[derive(Drop)]
pub(crate) struct KeptTables {
    alloc: Global,
    tables: Vec<FullTable>,
}

impl KeptTables {
    pub(crate) fn new(alloc: Global) -> KeptTables {
        KeptTables {
            alloc,
            tables: Vec::new(alloc),
        }
    }

    /// What is kept at the place of a table.
    pub(crate) fn at(&mut self, table_id: u64) -> Result<&mut FullTable, AllocError> {
        let place = (table_id % TABLES as u64) as usize;
        for _missing in self.tables.len()..place + 1 {
            self.tables.push(FullTable::new(self.alloc))?;
        }
        match self.tables.get_mut(place) {
            None => Err(AllocError),
            Some(table) => Ok(table),
        }
    }
}
