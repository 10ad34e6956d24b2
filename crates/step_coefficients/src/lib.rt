// The coefficients of a step: one element of a row set or lowered (apply_updated_coefficients of builder.rs).
#![tactic(auto)]

ghost use Rattle.std.specs.Prelude.{◌≡◌, true, ◌+◌, ◌<◌, ◌≤◌, length, get_or};
ghost use Rattle.std.proofs.Math.Seq.{slice};
ghost use Rattle.layout.specs.Layout.{element_ceiling};
ghost use Rattle.pywr.specs.Numbers.{lesser};
ghost use Rattle.pywr.specs.Network.{listed};
ghost use Rattle.step_row_bounds.specs.SameRuns.{ElementsAlone};
ghost use Rattle.step_coefficients.specs.RowCoefficients.{CoefficientChanged};

use extremes::lesser;
use pywr::ColumnIndex;
use step_row_bounds::StoreRows;

// The place of a column in the row from `start` up to `end`, looked for from the end, where a row's integer columns stand.
fn column_place(columns: &[u16], start: usize, end: usize, column: ColumnIndex) -> usize
    requires { (end ≤ length columns.now) × (listed column.0 (slice start end columns.now) ≡ true) }
    ensures { (start ≤ result) × (result < end) × (get_or columns.now result 0 ≡ column.0) }
{
    for k in (start..end).rev() {
        if columns[k] == column.0 {
            return k;
        }
    }
    unreachable!()
}

// The place in the elements of a row's coefficient on a column.
fn coefficient_place(columns: &[u16], row_starts: &[u32], row: usize, column: ColumnIndex) -> usize
    requires { (row + 1 < length row_starts.now) × (get_or row_starts.now (row + 1) 0 ≤ length columns.now)
        × (listed column.0 (slice (get_or row_starts.now row 0) (get_or row_starts.now (row + 1) 0) columns.now) ≡ true) }
    ensures { (get_or row_starts.now row 0 ≤ result) × (result < get_or row_starts.now (row + 1) 0) × (get_or columns.now result 0 ≡ column.0) }
{
    let start = row_starts[row] as usize;
    let end = row_starts[row + 1] as usize;
    column_place(columns, start, end, column)
}

// The element on a column of a row is set.
pub fn set_coefficient(store: &mut StoreRows<'_>, row: usize, column: ColumnIndex, value: f64)
    requires { (row + 1 < length store.old.row_starts.now) × (get_or store.old.row_starts.now (row + 1) 0 ≤ element_ceiling)
        × (element_ceiling ≤ length store.old.columns.now) × (element_ceiling ≤ length store.old.elements.now)
        × (listed column.0 (slice (get_or store.old.row_starts.now row 0) (get_or store.old.row_starts.now (row + 1) 0) store.old.columns.now) ≡ true) }
    ensures changed { CoefficientChanged store.old.columns.now store.old.row_starts.now row column.0 (λ held. value) store.old.elements.now store.new.elements.now }
    ensures alone { ElementsAlone store.old store.new }
{
    let place = coefficient_place(store.columns, store.row_starts, row, column);
    store.elements[place] = value;
}

// The element on a column of a row becomes the value if that is smaller.
pub fn lower_coefficient(store: &mut StoreRows<'_>, row: usize, column: ColumnIndex, value: f64)
    requires { (row + 1 < length store.old.row_starts.now) × (get_or store.old.row_starts.now (row + 1) 0 ≤ element_ceiling)
        × (element_ceiling ≤ length store.old.columns.now) × (element_ceiling ≤ length store.old.elements.now)
        × (listed column.0 (slice (get_or store.old.row_starts.now row 0) (get_or store.old.row_starts.now (row + 1) 0) store.old.columns.now) ≡ true) }
    ensures changed { CoefficientChanged store.old.columns.now store.old.row_starts.now row column.0 (λ held. lesser held value) store.old.elements.now store.new.elements.now }
    ensures alone { ElementsAlone store.old store.new }
{
    let place = coefficient_place(store.columns, store.row_starts, row, column);
    let held = store.elements[place];
    store.elements[place] = lesser(held, value);
}
