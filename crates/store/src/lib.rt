// A lent store: whether it has room (16), whether it is well shaped (17), and the columns of one of its rows (18).
#![tactic(auto)]

ghost use Rattle.std.specs.Prelude.{◌≡◌, ◌≤◌, length};
ghost use Rattle.layout.specs.Layout.{element_ceiling, row_starts_length, shape_length};
ghost use Rattle.pywr.specs.Store.{Store, store_has_room};
ghost use Rattle.pywr.specs.Misshapen.{well_shaped};
ghost use Rattle.store.specs.Reading.{Lengths, RowAnswered, RowRead};

use layout::{
    COLUMN_CEILING, ELEMENT_CEILING, ROW_CEILING, ROW_STARTS_LENGTH, SENTINEL_AT, SHAPE_LENGTH,
};
use pywr::{Reason, RowAnswer};
use store_node_rows::node_rows_fit;
use store_rows::{columns_rise, starts_rise};
use store_shape::{
    aggregates_fit, counts_fit, edges_fit, flow_order_fits, makers_fit, nodes_fit, row_count,
    virtual_storages_fit,
};

// Whether runs of these lengths have the room that the ceilings need.
pub fn has_room(
    col_lower: usize,
    col_upper: usize,
    col_obj_coef: usize,
    row_lower: usize,
    row_upper: usize,
    elements: usize,
    columns: usize,
    row_starts: usize,
    shape: usize,
) -> bool
    ensures { (s : Store) → Lengths s col_lower col_upper col_obj_coef row_lower row_upper elements columns row_starts shape → result ≡ store_has_room s }
{
    (COLUMN_CEILING <= col_lower)
        & (COLUMN_CEILING <= col_upper)
        & (COLUMN_CEILING <= col_obj_coef)
        & (ROW_CEILING <= row_lower)
        & (ROW_CEILING <= row_upper)
        & (ELEMENT_CEILING <= elements)
        & (ELEMENT_CEILING <= columns)
        & (ROW_STARTS_LENGTH <= row_starts)
        & (SHAPE_LENGTH <= shape)
}

// Whether a store with these runs is well shaped; the runs of doubles are not read.
pub fn well_shaped(columns: &[u16], row_starts: &[u32], shape: &[u16]) -> bool
    requires { (element_ceiling ≤ length columns.now) × (row_starts_length ≤ length row_starts.now) × (shape_length ≤ length shape.now) }
    ensures { (s : Store) → s.columns ≡ columns.now → s.row_starts ≡ row_starts.now → s.shape ≡ shape.now → result ≡ well_shaped s }
{
    if !(counts_fit(shape) & (shape[SENTINEL_AT] <= 1)) {
        return false;
    }
    if !starts_rise(row_starts, shape) {
        return false;
    }
    columns_rise(columns, row_starts, shape)
        & nodes_fit(shape)
        & edges_fit(shape)
        & node_rows_fit(columns, row_starts, shape)
        & aggregates_fit(shape)
        & virtual_storages_fit(shape)
        & makers_fit(shape)
        & flow_order_fits(shape)
}

// The answer to reading a row: where its columns stand, or 16, 17 or 18.
pub fn row_answer(
    col_lower: &[f64],
    col_upper: &[f64],
    col_obj_coef: &[f64],
    row_lower: &[f64],
    row_upper: &[f64],
    elements: &[f64],
    columns: &[u16],
    row_starts: &[u32],
    shape: &[u16],
    row: usize,
) -> RowAnswer
    ensures { RowAnswered (record {
      col_lower = col_lower.now;
      col_upper = col_upper.now;
      col_obj_coef = col_obj_coef.now;
      row_lower = row_lower.now;
      row_upper = row_upper.now;
      elements = elements.now;
      columns = columns.now;
      row_starts = row_starts.now;
      shape = shape.now;
    }) row result }
{
    if !has_room(
        col_lower.len(),
        col_upper.len(),
        col_obj_coef.len(),
        row_lower.len(),
        row_upper.len(),
        elements.len(),
        columns.len(),
        row_starts.len(),
        shape.len(),
    ) {
        return Err(Reason::ShortBuffer.at(0));
    }
    if !well_shaped(columns, row_starts, shape) {
        return Err(Reason::MisshapenStore.at(0));
    }
    if row_count(shape) <= row {
        return Err(Reason::NoSuchRow.at(row));
    }
    Ok((row_starts[row] as usize, row_starts[row + 1] as usize))
}

// The columns of a row, as a part of the column run: empty where the answer is a refusal, whose number and place are stored.
pub fn row_columns<'a>(
    col_lower: &[f64],
    col_upper: &[f64],
    col_obj_coef: &[f64],
    row_lower: &[f64],
    row_upper: &[f64],
    elements: &[f64],
    columns: &'a [u16],
    row_starts: &[u32],
    shape: &[u16],
    row: usize,
    number: &mut u8,
    place: &mut usize,
) -> &'a [u16]
    ensures { RowRead (record {
      col_lower = col_lower.now;
      col_upper = col_upper.now;
      col_obj_coef = col_obj_coef.now;
      row_lower = row_lower.now;
      row_upper = row_upper.now;
      elements = elements.now;
      columns = columns.now;
      row_starts = row_starts.now;
      shape = shape.now;
    }) row result.now number.new place.new }
{
    let answer = row_answer(
        col_lower,
        col_upper,
        col_obj_coef,
        row_lower,
        row_upper,
        elements,
        columns,
        row_starts,
        shape,
        row,
    );
    match answer {
        Err(refusal) => {
            *number = refusal.number;
            *place = refusal.place;
            &columns[0..0]
        }
        Ok((start, end)) => {
            *number = 0;
            *place = 0;
            &columns[start..end]
        }
    }
}
