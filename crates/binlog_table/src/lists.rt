//! The lists of a table map: its columns, their names, its key, and the names of values.
ghost use Rattle.std.specs.Prelude.{◌≡◌, ◌≤◌, IfOk};
ghost use Rattle.binlog_table.specs.MapResult.{Gives};
ghost use Rattle.binlog_table.specs.Map.{map_of_by};
ghost use Rattle.binlog_table.specs.ListsShown.{listed_map, AreFit};
ghost use Rattle.binlog_table.specs.SectionsShown.{sections_view};

use crate::column::Column;
use crate::columns::columns_in;
use crate::fault::{MapFault, given};
use crate::key::key_in;
use crate::names::{ColumnNames, column_names};
use crate::sections::Sections;
use crate::steps::{Step, steps_of};
use crate::value_names::value_names;
use binlog_profile::Profile;
use std::alloc::Global;

/// The lists of a table map, each with an entry for each column but the key.
#[derive(Drop)]
pub(crate) struct Lists {
    pub(crate) columns: Vec<Column>,
    /// How a walk passes the values of the columns over.
    pub(crate) steps: Vec<Step>,
    pub(crate) names: ColumnNames,
    pub(crate) key: Vec<usize>,
    pub(crate) value_names: Vec<Option<Vec<Vec<u8>>>>,
}

/// The lists of the map of these sections, or its first fault.
pub(crate) fn lists_of(
    alloc: Global,
    profile: Profile,
    sections: &Sections<'_>,
) -> Result<Lists, MapFault>
    ensures value { Gives (λ l. listed_map (sections_view sections.now) l) result (map_of_by profile (sections_view sections.now)) }
    ensures fit { IfOk result AreFit }
{
    let fields = &sections.fields;
    let count = sections.types.len();
    let names = given!(column_names(alloc, profile, count, fields.names));
    let key = given!(key_in(alloc, count, fields.key, fields.prefix_key));
    let columns = given!(columns_in(alloc, profile, sections));
    let value_names = given!(value_names(alloc, &columns, fields.set_names, fields.enum_names));
    let steps = steps_of(alloc, &columns)?;
    Ok(Lists {
        columns,
        steps,
        names,
        key,
        value_names,
    })
}
