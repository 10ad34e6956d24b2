// The node rows of a store: the part of refusal 17 on the node-row table, with "an integer column absent from its row".
#![tactic(auto)]

ghost use Rattle.std.specs.Prelude.{◌≡◌, ◌+◌, ◌≤◌, length};
ghost use Rattle.std.proofs.Math.Seq.{slice};
ghost use Rattle.layout.specs.Layout.{node_row_ceiling, shape_length, node_rows_at, node_row_width, node_rows_in};
ghost use Rattle.pywr.specs.Network.{listed};
ghost use Rattle.pywr.specs.Store.{Store, node_row_count};
ghost use Rattle.pywr.specs.Misshapen.{node_row_fits, all_entries};
ghost use Rattle.store_rows.specs.Starts.{RowsWithin};

use layout::{
    EDGE_COLUMN_COUNT_AT, NODE_COUNT_AT, NODE_ROW_COUNT_AT, NODE_ROW_ROW, NODE_ROW_SET,
    NODE_ROW_TYPE, NODE_ROW_WIDTH, NODE_ROWS_AT, SET_COUNT_AT, VARYING_COUNT_AT,
};
use pywr::ColumnIndex;

// Whether the row from `start` up to `end` has the column, looked for from the end, where a row's integer columns stand.
fn row_holds(columns: &[u16], start: usize, end: usize, column: ColumnIndex) -> bool
    requires { end ≤ length columns.now }
    ensures { result ≡ listed column.0 (slice start end columns.now) }
{
    for k in (start..end).rev() {
        if column.0 == columns[k] {
            return true;
        }
    }
    false
}

// A node row: a node, a varying row, a row type, and, unless continuous, a set whose integer column is in the row.
#[tactic(auto, using(std::proofs::lemmas::Bool::Decides::nat_tests), unfolding(pywr::specs::Misshapen::node_row_fits, pywr::specs::Store::columns_of_row))]
fn node_row_fits(columns: &[u16], row_starts: &[u32], shape: &[u16], at: usize) -> bool
    requires { RowsWithin columns.now row_starts.now shape.now × (at + node_row_width ≤ shape_length) }
    ensures { (s : Store) → s.columns ≡ columns.now → s.row_starts ≡ row_starts.now → s.shape ≡ shape.now
        → result ≡ node_row_fits s at }
{
    let row = shape[at + NODE_ROW_ROW];
    let row_type = shape[at + NODE_ROW_TYPE];
    let set = shape[at + NODE_ROW_SET];
    if shape[NODE_COUNT_AT] <= shape[at] {
        return false;
    }
    if shape[VARYING_COUNT_AT] <= row {
        return false;
    }
    if 2 < row_type {
        return false;
    }
    if row_type == 0 {
        return true;
    }
    if shape[SET_COUNT_AT] <= set {
        return false;
    }
    let r = usize::from(row);
    row_holds(
        columns,
        row_starts[r] as usize,
        row_starts[r + 1] as usize,
        ColumnIndex(shape[EDGE_COLUMN_COUNT_AT] + set),
    )
}

pub fn node_rows_fit(columns: &[u16], row_starts: &[u32], shape: &[u16]) -> bool
    requires { RowsWithin columns.now row_starts.now shape.now × (node_rows_in shape.now ≤ node_row_ceiling) }
    ensures { (s : Store) → s.columns ≡ columns.now → s.row_starts ≡ row_starts.now → s.shape ≡ shape.now
        → result ≡ all_entries (node_row_fits s) node_row_width node_rows_at (node_row_count s) }
{
    let node_rows = usize::from(shape[NODE_ROW_COUNT_AT]);
    for i in 0..node_rows {
        if !node_row_fits(
            columns,
            row_starts,
            shape,
            NODE_ROWS_AT + NODE_ROW_WIDTH * i,
        ) {
            return false;
        }
    }
    true
}
