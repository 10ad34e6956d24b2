// The rows of a store: the parts of refusal 17 on row starts and columns.
#![tactic(auto)]

ghost use Rattle.std.specs.Prelude.{◌≡◌, ◌&&◌, ℕ, ◌+◌, ◌≤◌, ◌<◌, length, get_or, eqb};
ghost use Rattle.layout.specs.Layout.{row_ceiling, element_ceiling, row_starts_length, shape_length, varying_in, fixed_in};
ghost use Rattle.pywr.specs.Store.{Store, row_count, start_of};
ghost use Rattle.pywr.specs.Misshapen.{starts_rise, row_columns_rise, all_entries};
ghost use Rattle.store_rows.specs.Falls.{fall, fall_at, sum_from, start_fall, row_fall};
ghost use Rattle.store_rows.specs.Starts.{RowsWithin};

use layout::{EDGE_COLUMN_COUNT_AT, ELEMENT_COUNT_AT, SET_COUNT_AT};
use pywr::ColumnIndex;
use store_shape::{row_count, words_under};

// "row starts not from 0, falling, or not ending at the element count"
pub fn starts_rise(row_starts: &[u32], shape: &[u16]) -> bool
    requires { (row_starts_length ≤ length row_starts.now) × (shape_length ≤ length shape.now) × (varying_in shape.now + fixed_in shape.now ≤ row_ceiling) }
    ensures { (s : Store) → s.row_starts ≡ row_starts.now → s.shape ≡ shape.now
        → result ≡ (eqb (start_of s 0) 0 && starts_rise s 0 (row_count s)) }
{
    let rows = row_count(shape);
    let mut good = row_starts[0] == 0;
    for r in 0..rows {
        good &= row_starts[r] <= row_starts[r + 1];
    }
    good & (row_starts[rows] as usize == usize::from(shape[ELEMENT_COUNT_AT]))
}

// A column falls where it is not over the one before it: 1 there.
#[tactic(auto, using(std::proofs::lemmas::Bool::Decides::nat_tests), unfolding(crate::specs::Falls::fall))]
fn fall_of(before: ColumnIndex, column: ColumnIndex) -> u16
    ensures { (result ≡ fall before.0 column.0) × (result ≤ 1) }
{
    if before.0 < column.0 { 0 } else { 1 }
}

// How often the first n columns fall.
fn falls(columns: &[u16], n: usize) -> u16
    requires { (n ≤ length columns.now) × (n ≤ element_ceiling) }
    ensures { result ≡ sum_from (fall_at columns.now) 0 n }
{
    let mut sum: u16 = 0;
    for i in 1..n {
        sum += fall_of(ColumnIndex(columns[i - 1]), ColumnIndex(columns[i]));
    }
    sum
}

// 1 if the row from `start` up to `end` starts with a fall; an empty row does not, nor does the first column.
fn start_fall(columns: &[u16], start: usize, end: usize) -> u16
    requires { end ≤ length columns.now }
    ensures { (result ≡ start_fall columns.now start end) × (result ≤ 1) }
{
    if end <= start || start == 0 {
        return 0;
    }
    fall_of(ColumnIndex(columns[start - 1]), ColumnIndex(columns[start]))
}

// How many rows start with a fall.
fn start_falls(columns: &[u16], row_starts: &[u32], rows: usize) -> u16
    requires { (rows ≤ row_ceiling) × (rows < length row_starts.now) × ((r : ℕ) → r < rows → get_or row_starts.now (r + 1) 0 ≤ length columns.now) }
    ensures { result ≡ sum_from (row_fall columns.now row_starts.now) 0 rows }
{
    let mut sum: u16 = 0;
    for r in 0..rows {
        sum += start_fall(columns, row_starts[r] as usize, row_starts[r + 1] as usize);
    }
    sum
}

// "columns out of range or not rising in a row": every column is under the count, and the run falls only where a row starts.
pub fn columns_rise(columns: &[u16], row_starts: &[u32], shape: &[u16]) -> bool
    requires { RowsWithin columns.now row_starts.now shape.now }
    ensures { (s : Store) → s.columns ≡ columns.now → s.row_starts ≡ row_starts.now → s.shape ≡ shape.now
        → result ≡ all_entries (row_columns_rise s) 1 0 (row_count s) }
{
    let kept = usize::from(shape[ELEMENT_COUNT_AT]);
    let under = words_under(
        columns,
        0,
        kept,
        shape[EDGE_COLUMN_COUNT_AT] + shape[SET_COUNT_AT],
    );
    under & (falls(columns, kept) == start_falls(columns, row_starts, row_count(shape)))
}
