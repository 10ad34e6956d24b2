// One row gathered (RowBuilder of builder.rs): its columns rise in an array, its elements lie in the same order in the lent run of elements.
#![tactic(auto)]

ghost use Rattle.std.specs.Prelude.{◌≡◌, ◌<◌, ◌≤◌, true, length};
ghost use Rattle.std.specs.Result.{MatchResult};
ghost use Rattle.layout.specs.Layout.{column_ceiling};
ghost use Rattle.build_row.specs.RowBuilder.{Rising, Stands, Belongs, insert_at, ElementAdded};
ghost use Rattle.pywr.specs.Misshapen.{columns_rise};
ghost use Rattle.build_row.specs.EdgeList.{ListedEdges, ColumnsAdded};

use layout::{COLUMN_CEILING, EDGE_CEILING};
use pywr::{ColumnIndex, ColumnNumber, EdgeIndex};

// Where the column stands in the row, or else where it belongs.
fn place_of(columns: &[ColumnNumber], column: ColumnIndex) -> Result<usize, usize>
    requires { columns_rise column_ceiling 0 columns.now ≡ true }
    ensures { MatchResult result (Stands columns.now column.0) (Belongs columns.now column.0) }
{
    // a row is mostly gathered in rising order
    match columns.last() {
        Some(&last) if column.0 <= last => columns.binary_search(&column.0),
        _ => Err(columns.len()),
    }
}

// x put at place p: what stands from there up to place n moves up by one.
fn insert_at<T: Copy>(run: &mut [T], n: usize, p: usize, x: T)
    requires { (p ≤ n) × (n < length run.old) }
    ensures { run.new ≡ insert_at n p x run.old }
{
    // no copy_within, which calls memmove
    for i in (p..n).rev() {
        run[i + 1] = run[i];
    }
    run[p] = x;
}

// Adds value on a column of the row of n elements, and answers how many it has then.
pub fn add_element(
    columns: &mut [ColumnNumber; COLUMN_CEILING],
    elements: &mut [f64],
    n: usize,
    column: ColumnIndex,
    value: f64,
) -> usize
    requires { (n ≤ column_ceiling) × (column_ceiling ≤ length elements.old) × (column.0 < column_ceiling) × Rising columns.old n }
    ensures { ElementAdded columns.old elements.old n column.0 value columns.new elements.new result }
{
    match place_of(&columns[..n], column) {
        Ok(p) => {
            elements[p] += value;
            n
        }
        Err(p) => {
            insert_at(columns, n, p, column.0);
            insert_at(elements, n, p, 0.0 + value);
            n + 1
        }
    }
}

// Adds the factor on the column of each edge of a list. `first` is 0 or an edge's number plus 1, and so is each entry of `next`;
// `edge_to_col` has each edge's column plus 1.
pub fn add_columns(
    next: &[u16; EDGE_CEILING],
    edge_to_col: &[u16; EDGE_CEILING],
    first: u16,
    factor: f64,
    columns: &mut [ColumnNumber; COLUMN_CEILING],
    elements: &mut [f64],
    n: usize,
) -> usize
    requires { (n ≤ column_ceiling) × (column_ceiling ≤ length elements.old) × Rising columns.old n × ListedEdges next.now edge_to_col.now first }
    ensures { ColumnsAdded next.now edge_to_col.now first factor columns.old elements.old n columns.new elements.new result }
{
    let mut count = n;
    let mut link = first;
    while link != 0 {
        let edge = EdgeIndex(link - 1);
        let e = usize::from(edge.0);
        count = add_element(
            columns,
            elements,
            count,
            ColumnIndex(edge_to_col[e] - 1),
            factor,
        );
        link = next[e];
    }
    count
}
