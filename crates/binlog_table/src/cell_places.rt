//! Where the cells of an image lie, found in one walk, so that they can be read in any order.
ghost use Rattle.std.specs.Prelude.{◌≡◌, ◌≤◌, ◌<◌, ◌+◌, ℕ, length, drop, slice_index_or, Some, IsSome, IfSome, OnOk};
ghost use Rattle.binlog_table.specs.Walks.{IsLengthOf, FitFrom, image_of_row};
ghost use Rattle.binlog_table.specs.Value.{Content, view};
ghost use Rattle.binlog_table.specs.Image.{cell_at, cells_at, IsRead};
ghost use Rattle.binlog_table.specs.CellPlaces.{Fits, IsPlace, read_from, content_in};

use crate::cell::Cell;
use crate::column::Column;
use crate::extent::{extent_len, extent_of};
use crate::image::bit;
use crate::placed_rows::RowPlaces;
use crate::row_view::Side;
use crate::rows::RowSpan;
use crate::rows_head::{Part, RowsHead};
use crate::table_map::TableMap;
use crate::value::known_value;
use std::alloc::AllocError;
use std::marker::Model;

/// Whether a column is present and null, and where its value begins and ends among the values of its image.
#[derive(Clone, Copy, Drop)]
pub struct CellPlace {
    pub(crate) is_present: bool,
    pub(crate) is_null: bool,
    pub(crate) start: usize,
    pub(crate) end: usize,
}

/// How many bytes a cell takes that can be read.
#[tactic(auto, unfolding(crate::specs::Image::cell_at, crate::specs::Image::value_at))]
fn len_of(column: &Column, is_present: bool, is_null: bool, bytes: &[u8]) -> Option<usize>
    ensures value { IsLengthOf column.now is_present is_null bytes.now result }
    ensures within { IfSome result (λ len. len ≤ length bytes.now) }
{
    if !is_present {
        return Some(0);
    }
    if is_null {
        return Some(0);
    }
    extent_len(extent_of(&column.layout), bytes)
}

/// Finds the places of these columns' cells, which can be read from a place of these bytes on.
pub(crate) fn find_places(
    columns: &[Column],
    present: &[u8],
    nulls: &[u8],
    values: &[u8],
    from: usize,
    places: &mut Vec<CellPlace>,
) -> Result<(), AllocError>
    requires within { from ≤ length values.now }
    requires read { IsRead (cells_at columns.now present.now nulls.now 0 0 (drop from values.now)) }
    ensures { OnOk result (FitFrom columns.now present.now nulls.now from values.now places.new.items) }
{
    places.clear();
    let mut start = from;
    let mut null_place = 0;
    for (place, column) in columns.iter().enumerate() {
        let is_present = bit(present, place);
        let is_null = bit(nulls, null_place);
        let Some(len) = len_of(column, is_present, is_null, &values[start..]) else {
            return Ok(());
        };
        places.push(CellPlace {
            is_present,
            is_null,
            start,
            end: start + len,
        })?;
        start += len;
        if is_present {
            null_place += 1;
        }
    }
    Ok(())
}

/// The cell at a place among these values.
#[inline(always)]
fn cell_in<'a>(column: &Column, place: CellPlace, values: &'a [u8]) -> Cell<'a>
    requires { IsPlace column.now values.now place }
    ensures { view result ≡ content_in (read_from column.now values.now place) }
{
    if !place.is_present {
        return Cell::Absent;
    }
    if place.is_null {
        return Cell::Null;
    }
    known_value(column, &values[place.start..place.end])
}

/// The place of a column's cell among those of an image.
#[inline(always)]
fn place_in(places: &[CellPlace], column: usize) -> CellPlace
    requires { column < length places.now }
    ensures { result ≡ slice_index_or places.now column result }
{
    places[column]
}

/// An image of a row whose cells are found without a walk.
#[derive(Drop)]
pub struct PlacedRow<'a> {
    map: &'a TableMap,
    body: &'a [u8],
    places: &'a [CellPlace],
}

impl<'a> Model for PlacedRow<'a> {
    ghost use Rattle.binlog_table.specs.RowImage.{RowImage};
    ghost use Rattle.binlog_table.specs.CellPlaces.{cells_from, ArePlaces};

    ghost Value = { RowImage };

    ghost view = { λ r. record { table = r.map.now; cells = cells_from r.map.now.columns r.body.now r.places.now } };

    ghost invariant = { λ r. ArePlaces r.map.now.columns r.body.now r.places.now };
}

impl<'a> PlacedRow<'a> {
    ghost use Rattle.std.specs.Prelude.{◌≡◌, ◌<◌, length, slice_get, option_map, Some};
    ghost use Rattle.binlog_table.specs.Value.{view};
    ghost use Rattle.binlog_table.specs.Image.{cells_of, IsRead};
    ghost use Rattle.binlog_table.specs.Rows.{image_in, row_of, IsSpan};
    ghost use Rattle.binlog_table.specs.Side.{image_on};
    ghost use Rattle.binlog_table.specs.CellPlaces.{HasPlaces, HavePlaces};

    /// The image at a place of a body, under a bitmap that the body has, whose cells' places were noted.
    #[inline(always)]
    #[tactic(auto, using(crate::proofs::PlacedCells::image_placed, crate::proofs::PlacedCells::fits_are))]
    fn at(
        map: &'a TableMap,
        bitmap: Part,
        body: &'a [u8],
        place: usize,
        places: &'a [CellPlace],
    ) -> PlacedRow<'a>
        requires image { IsRead (image_in map.now.columns body.now bitmap place) }
        requires places { HasPlaces map.now.columns body.now bitmap place places.now }
        ensures { result ≡ record { table = map.now; cells = cells_of (image_in map.now.columns body.now bitmap place) } }
    {
        let _ = (bitmap, place);
        PlacedRow { map, body, places }
    }

    /// The image of a row on a side, where the event has one. The places are those that `next_placed_row` noted as it answered the span
    /// over this map, head and body.
    #[inline(always)]
    pub fn of(
        map: &'a TableMap,
        head: &RowsHead,
        body: &'a [u8],
        span: RowSpan,
        side: Side,
        places: &'a RowPlaces,
    ) -> Option<PlacedRow<'a>>
        requires span { IsSpan head.now map.now.columns body.now span }
        requires places { HavePlaces head.now map.now.columns body.now span places.now }
        ensures { result ≡ image_of_row map.now side (row_of head.now map.now.columns body.now span) }
    {
        match side {
            Side::Before => match head.before {
                None => None,
                Some(part) => Some(PlacedRow::at(
                    map,
                    part,
                    body,
                    span.before,
                    places.before.as_slice(),
                )),
            },
            Side::After => match head.after {
                None => None,
                Some(part) => Some(PlacedRow::at(
                    map,
                    part,
                    body,
                    span.after,
                    places.after.as_slice(),
                )),
            },
        }
    }

    /// The map of its table.
    #[inline(always)]
    pub fn map(&self) -> &'a TableMap
        ensures { result.now ≡ self.now.table }
    {
        self.map
    }

    /// The cell of a column, counted from 0.
    #[inline(always)]
    pub fn cell(&self, column: usize) -> Cell<'a>
        requires { column < length self.now.table.columns }
        ensures { slice_get self.now.cells column ≡ Some (view result) }
    {
        let place = place_in(self.places, column);
        let columns = self.map.columns();
        cell_in(&columns[column], place, self.body)
    }
}
