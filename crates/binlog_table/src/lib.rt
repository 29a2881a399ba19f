//! Table maps, rows and column values of MySQL's binary log.
#![tactic(auto)]

mod cell;
mod cell_places;
mod column;
mod columns;
mod decimal;
mod decimal_view;
mod digits;
mod extent;
mod fault;
mod fields;
mod image;
mod key;
mod laws;
mod layout;
mod lists;
mod names;
mod number;
mod packed;
mod placed_rows;
mod row_view;
mod rows;
mod rows_head;
mod sections;
mod steps;
mod table_map;
mod time;
pub mod type_code;
mod value;
mod value_names;

pub use cell::{Cell, Date, DateTime, Time, Timestamp};
pub use cell_places::{CellPlace, PlacedRow};
pub use column::{ByteCount, Column, DecimalSize, EnumSize, Layout, Precision};
pub use decimal_view::DecimalView;
pub use digits::Digits;
pub use fault::{BadRows, MapFault, PlacedRowFault};
pub use fields::Fields;
pub use laws::{
    images_are_read, map_bodies_have_one_reading, map_fields_are_read, profiles_read_maps,
    rows_are_read, rows_bodies_have_one_reading, spellings_are_apart, value_names_are_read,
};
pub use packed::packed_at;
pub use placed_rows::{RowPlaces, next_placed_row};
pub use row_view::{Cells, RowView, Side};
pub use rows::{RowSpan, next_row};
pub use rows_head::{Part, RowsHead, rows_table_id};
pub use sections::Sections;
pub use table_map::TableMap;
