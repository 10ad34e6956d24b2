// The lines of what a store holds: its counts, a column, a row; and who made a row.
#![tactic(auto)]

ghost use Rattle.std.specs.Prelude.{◌≡◌, ◌+◌, ◌<◌, ◌≤◌, ◌^◌, length, get_or};
ghost use Rattle.layout.specs.Layout.{varying_in, fixed_in};
ghost use Rattle.pywr.specs.Store.{Store, row_maker};
ghost use Rattle.listing_fields.specs.Fields.{PutWithin};
ghost use Rattle.listing_lines.specs.Lines.{line_room, to_maker};
ghost use Rattle.listing_stored.specs.Stored.{store_of, counts_text, column_text, row_text};

use layout::{
    EDGE_COLUMN_COUNT_AT, ELEMENT_COUNT_AT, FIXED_COUNT_AT, MAKER_INDEX, MAKER_SHARED_BY,
    MAKER_WIDTH, MAKERS_AT, SET_COUNT_AT, VARYING_COUNT_AT,
};
use listing_lines::RowMaker;

// The runs of a store, lent to be read.
#[derive(Clone, Copy)]
pub struct StoreView<'a> {
    pub col_lower: &'a [f64],
    pub col_upper: &'a [f64],
    pub col_obj_coef: &'a [f64],
    pub row_lower: &'a [f64],
    pub row_upper: &'a [f64],
    pub elements: &'a [f64],
    pub columns: &'a [u16],
    pub row_starts: &'a [u32],
    pub shape: &'a [u16],
}

// A word of the shape run; 0 behind its end.
pub fn word(shape: &[u16], at: usize) -> usize
    ensures { (result ≡ get_or shape.now at 0) × (result < 65536) }
{
    usize::from(shape.get(at).copied().unwrap_or(0))
}

// How many rows the store says it has.
pub fn row_count(shape: &[u16]) -> usize
    ensures { (result ≡ varying_in shape.now + fixed_in shape.now) × (result < 131072) }
{
    word(shape, VARYING_COUNT_AT) + word(shape, FIXED_COUNT_AT)
}

// Who made a row.
pub fn row_maker(shape: &[u16], row: usize) -> RowMaker
    requires { row < 2 ^ 32 }
    ensures { (s : Store) → s.shape ≡ shape.now → to_maker result ≡ row_maker s row }
{
    let at = MAKERS_AT + MAKER_WIDTH * row;
    RowMaker {
        kind: word(shape, at),
        index: word(shape, at + MAKER_INDEX),
        shared_by: word(shape, at + MAKER_SHARED_BY),
    }
}

// The P line of a store.
pub fn put_counts(out: &mut [u8], at: usize, store: &StoreView<'_>) -> usize
    requires { at + line_room ≤ length out.old }
    ensures { PutWithin line_room (counts_text (store_of store.now)) out.old at out.new result }
{
    let columns = word(store.shape, EDGE_COLUMN_COUNT_AT) + word(store.shape, SET_COUNT_AT);
    let rows = row_count(store.shape);
    let varying = word(store.shape, VARYING_COUNT_AT);
    let elements = word(store.shape, ELEMENT_COUNT_AT);
    listing_lines::put_programme(out, at, columns, rows, varying, elements)
}

// The C line of one of its columns: the integer columns come after the edge columns.
pub fn put_stored_column(out: &mut [u8], at: usize, store: &StoreView<'_>, c: usize) -> usize
    requires { (at + line_room ≤ length out.old) × (c < length store.now.col_lower.now) × (c < length store.now.col_upper.now) × (c < length store.now.col_obj_coef.now) }
    ensures { PutWithin line_room (column_text (store_of store.now) c) out.old at out.new result }
{
    let integer = word(store.shape, EDGE_COLUMN_COUNT_AT) <= c;
    listing_lines::put_column(
        out,
        at,
        c,
        integer,
        store.col_lower[c],
        store.col_upper[c],
        store.col_obj_coef[c],
    )
}

// The R line of one of its rows, which has so many elements: the varying rows come first.
pub fn put_stored_row(
    out: &mut [u8],
    at: usize,
    store: &StoreView<'_>,
    row: usize,
    elements: usize,
) -> usize
    requires { (at + line_room ≤ length out.old) × (row < length store.now.row_lower.now) × (row < length store.now.row_upper.now) × (row < 2 ^ 32) }
    ensures { PutWithin line_room (row_text (store_of store.now) row elements) out.old at out.new result }
{
    let varying = row < word(store.shape, VARYING_COUNT_AT);
    let maker = row_maker(store.shape, row);
    listing_lines::put_row(
        out,
        at,
        row,
        varying,
        store.row_lower[row],
        store.row_upper[row],
        elements,
        maker,
    )
}
