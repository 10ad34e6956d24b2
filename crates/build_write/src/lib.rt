// An assembled programme written from the work runs into the store's runs (LpBuilder::build of builder.rs).
#![tactic(auto)]

ghost use Rattle.std.specs.Prelude.{◌≡◌, ◌≤◌, length};
ghost use Rattle.std.proofs.lemmas.List.Edits.{sets};
ghost use Rattle.layout.specs.Layout.{column_ceiling, row_ceiling, element_ceiling, row_starts_length, shape_length, words_length, elements_made_at, numbers_length};
ghost use Rattle.laws.specs.Part.{part};
ghost use Rattle.build_write.specs.Lp.{Few, RowStarts, ColumnsWritten, RowsWritten, MatrixWritten, shape_tables, shape_written};
ghost use Rattle.layout.specs.WorkRoom.{WorkRoom};

use layout::{
    AGGREGATES_AT, COUNTS_LENGTH, EDGE_WIDTH, EDGES_AT, ELEMENTS_MADE_AT, FLOW_ORDER_AT,
    MAKER_WIDTH, MAKERS_AT, NODE_ROW_WIDTH, NODE_ROWS_AT, NODE_WIDTH, NODES_AT, SHAPE_MADE_AT,
    STARTS_MADE_AT, UPPERS_MADE_AT, VIRTUAL_STORAGE_WIDTH, VIRTUAL_STORAGES_AT,
};
use pywr::Sentinel;

// How much an assembled programme holds.
#[derive(Clone, Copy)]
pub struct Sizes {
    pub nodes: usize,
    pub edges: usize,
    pub edge_columns: usize,
    pub sets: usize,
    pub rows: usize,
    pub elements: usize,
    pub node_rows: usize,
    pub aggregates: usize,
    pub virtual_storages: usize,
}

// Column bounds and costs: the edges' columns, then the sets' integer columns.
pub fn write_columns(
    z: Sizes,
    sentinel: Sentinel,
    col_lower: &mut [f64],
    col_upper: &mut [f64],
    col_obj_coef: &mut [f64],
)
    requires { Few z × (column_ceiling ≤ length col_lower.old) × (column_ceiling ≤ length col_upper.old) × (column_ceiling ≤ length col_obj_coef.old) }
    ensures { ColumnsWritten sentinel z col_lower.old col_upper.old col_obj_coef.old
        col_lower.new col_upper.new col_obj_coef.new }
{
    let e = z.edge_columns;
    let k = z.sets;
    runs::fill(col_lower, 0, e + k, 0.0);
    runs::fill(col_upper, 0, e, sentinel.high());
    runs::fill(col_upper, e, k, 1.0);
    runs::fill(col_obj_coef, 0, e + k, 0.0);
}

// Row bounds.
pub fn write_rows(z: Sizes, numbers: &[f64], row_lower: &mut [f64], row_upper: &mut [f64])
    requires { Few z × (numbers_length ≤ length numbers.now) × (row_ceiling ≤ length row_lower.old) × (row_ceiling ≤ length row_upper.old) }
    ensures { RowsWritten z numbers.now row_lower.old row_upper.old row_lower.new row_upper.new }
{
    let k = z.rows;
    runs::copy(row_lower, 0, numbers, 0, k);
    runs::copy(row_upper, 0, numbers, UPPERS_MADE_AT, k);
}

// One row's elements, written at the front of the run lent.
fn write_row(elements: &mut [f64], row: &[f64])
    requires { length row.now ≤ length elements.old }
    ensures { elements.new ≡ sets elements.old 0 row.now }
{
    runs::copy(elements, 0, row, 0, row.len());
}

// The elements row by row: each row is written into the element run from its start.
fn write_elements(z: Sizes, words: &[u16], numbers: &[f64], elements: &mut [f64])
    requires { Few z × RowStarts z words.now × WorkRoom words.now numbers.now × (element_ceiling ≤ length elements.old) }
    ensures { elements.new ≡ sets elements.old 0 (part elements_made_at z.elements numbers.now) }
{
    for r in 0..z.rows {
        let start = usize::from(words[STARTS_MADE_AT + r]);
        let end = usize::from(words[STARTS_MADE_AT + r + 1]);
        let row = &numbers[ELEMENTS_MADE_AT + start..ELEMENTS_MADE_AT + end];
        write_row(&mut elements[start..], row);
    }
}

// Elements, their columns, and the row starts.
pub fn write_matrix(
    z: Sizes,
    words: &[u16],
    numbers: &[f64],
    elements: &mut [f64],
    columns: &mut [u16],
    row_starts: &mut [u32],
)
    requires { Few z × RowStarts z words.now × WorkRoom words.now numbers.now
        × (element_ceiling ≤ length elements.old) × (element_ceiling ≤ length columns.old) × (row_starts_length ≤ length row_starts.old) }
    ensures { MatrixWritten z words.now numbers.now elements.old columns.old row_starts.old
        elements.new columns.new row_starts.new }
{
    let k = z.elements;
    let n = z.rows + 1;
    write_elements(z, words, numbers, elements);
    runs::copy(columns, 0, words, 0, k);
    runs::widen(row_starts, 0, words, STARTS_MADE_AT, n);
}

// The shape run's counts and the tables that steps read.
fn write_tables(z: Sizes, words: &[u16], shape: &mut [u16])
    requires { Few z × (words_length ≤ length words.now) × (shape_length ≤ length shape.old) }
    ensures { shape.new ≡ shape_tables z words.now shape.old }
{
    let made = &words[SHAPE_MADE_AT..];
    runs::copy(shape, 0, made, 0, COUNTS_LENGTH);
    runs::copy(shape, NODES_AT, made, NODES_AT, NODE_WIDTH * z.nodes);
    runs::copy(shape, EDGES_AT, made, EDGES_AT, EDGE_WIDTH * z.edges);
    runs::copy(
        shape,
        NODE_ROWS_AT,
        made,
        NODE_ROWS_AT,
        NODE_ROW_WIDTH * z.node_rows,
    );
    runs::copy(shape, AGGREGATES_AT, made, AGGREGATES_AT, z.aggregates);
    runs::copy(
        shape,
        VIRTUAL_STORAGES_AT,
        made,
        VIRTUAL_STORAGES_AT,
        VIRTUAL_STORAGE_WIDTH * z.virtual_storages,
    );
}

// The shape run: counts and tables, then the rows' makers and the flow order.
pub fn write_shape(z: Sizes, words: &[u16], shape: &mut [u16])
    requires { Few z × (words_length ≤ length words.now) × (shape_length ≤ length shape.old) }
    ensures { shape.new ≡ shape_written z words.now shape.old }
{
    write_tables(z, words, shape);
    let made = &words[SHAPE_MADE_AT..];
    runs::copy(shape, MAKERS_AT, made, MAKERS_AT, MAKER_WIDTH * z.rows);
    runs::copy(shape, FLOW_ORDER_AT, made, FLOW_ORDER_AT, z.edges);
}
