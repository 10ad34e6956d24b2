// Reads rows of a small store: as it stands, with each run one short, and with one word changed.
// A line is what was changed, then the number and the place of the answer and the length of the part.
#![tactic(auto)]

use layout::{
    AGGREGATE_CEILING, AGGREGATE_COUNT_AT, AGGREGATES_AT, BY_EXCLUSIVITY, BY_MASS, BY_NODE,
    COLUMN_CEILING, EDGE_CEILING, EDGE_COLUMN_COUNT_AT, EDGE_COUNT_AT, EDGE_TO, EDGES_AT,
    ELEMENT_CEILING, ELEMENT_COUNT_AT, FIXED_COUNT_AT, MAKER_INDEX, MAKER_SHARED_BY, MAKER_WIDTH,
    MAKERS_AT, MAPPED_COLUMN, NODE_CEILING, NODE_COUNT_AT, NODE_FLAG, NODE_ROW_CEILING,
    NODE_ROW_COUNT_AT, NODE_ROW_ROW, NODE_ROW_SET, NODE_ROW_TYPE, NODE_ROW_WIDTH, NODE_ROWS_AT,
    NODE_WIDTH, NODES_AT, PERIOD_END_DAY, PERIOD_END_MONTH, PERIOD_FLAG, PERIOD_START_DAY,
    PERIOD_START_MONTH, ROW_CEILING, ROW_STARTS_LENGTH, SENTINEL_AT, SET_CEILING, SET_COUNT_AT,
    SHAPE_LENGTH, VARYING_COUNT_AT, VIRTUAL_STORAGE_CEILING, VIRTUAL_STORAGE_COUNT_AT,
    VIRTUAL_STORAGES_AT,
};
use std::io;

// The second entries of the tables of nodes and of node rows.
const SECOND_NODE: usize = NODES_AT + NODE_WIDTH;

const SECOND_NODE_ROW: usize = NODE_ROWS_AT + NODE_ROW_WIDTH;

// The makers of rows 1 to 3, and the words behind them, of a row that is not there.
const SECOND_MAKER: usize = MAKERS_AT + MAKER_WIDTH;

const THIRD_MAKER: usize = SECOND_MAKER + MAKER_WIDTH;

const FOURTH_MAKER: usize = THIRD_MAKER + MAKER_WIDTH;

const FIFTH_MAKER: usize = FOURTH_MAKER + MAKER_WIDTH;

// A store of a few rows; the runs that are not here are zeros.
#[derive(Drop)]
struct SmallStore {
    columns: [u16; ELEMENT_CEILING],
    row_starts: [u32; ROW_STARTS_LENGTH],
    shape: [u16; SHAPE_LENGTH],
}

// Node 0 has row 0 and, as a binary upper row, row 1. The aggregate and the virtual storage, which has a period, have row 0. Row 2 is node 1's mass row;
// row 3 has this maker.
fn shape_with(kind: u16, index: u16, shared_by: u16) -> [u16; SHAPE_LENGTH] {
    let mut shape = [0u16; SHAPE_LENGTH];
    shape[NODE_COUNT_AT] = 2;
    shape[EDGE_COUNT_AT] = 1;
    shape[EDGE_COLUMN_COUNT_AT] = 1;
    shape[SET_COUNT_AT] = 1;
    shape[VARYING_COUNT_AT] = 2;
    shape[FIXED_COUNT_AT] = 2;
    shape[ELEMENT_COUNT_AT] = 4;
    shape[NODE_ROW_COUNT_AT] = 2;
    shape[AGGREGATE_COUNT_AT] = 1;
    shape[VIRTUAL_STORAGE_COUNT_AT] = 1;
    shape[SECOND_NODE] = 1;
    shape[SECOND_NODE + NODE_FLAG] = 1;
    shape[EDGES_AT + EDGE_TO] = 1;
    shape[SECOND_NODE_ROW + NODE_ROW_ROW] = 1;
    shape[SECOND_NODE_ROW + NODE_ROW_TYPE] = 1;
    shape[VIRTUAL_STORAGES_AT + PERIOD_FLAG] = 1;
    shape[VIRTUAL_STORAGES_AT + PERIOD_START_MONTH] = 4;
    shape[VIRTUAL_STORAGES_AT + PERIOD_START_DAY] = 1;
    shape[VIRTUAL_STORAGES_AT + PERIOD_END_MONTH] = 9;
    shape[VIRTUAL_STORAGES_AT + PERIOD_END_DAY] = 30;
    shape[MAKERS_AT] = BY_NODE;
    shape[MAKERS_AT + MAKER_SHARED_BY] = 3;
    shape[SECOND_MAKER] = BY_NODE;
    shape[SECOND_MAKER + MAKER_SHARED_BY] = 1;
    shape[THIRD_MAKER] = BY_MASS;
    shape[THIRD_MAKER + MAKER_INDEX] = 1;
    shape[THIRD_MAKER + MAKER_SHARED_BY] = 1;
    shape[FOURTH_MAKER] = kind;
    shape[FOURTH_MAKER + MAKER_INDEX] = index;
    shape[FOURTH_MAKER + MAKER_SHARED_BY] = shared_by;
    shape
}

// Two nodes with an edge, one edge column and one set. Varying rows: 0 with column 0, and 1 with columns 0 and 1, the set's.
// Fixed rows: 2 with column 0, and 3 with none, whose maker this is.
fn store_with(kind: u16, index: u16, shared_by: u16) -> SmallStore {
    let mut columns = [0u16; ELEMENT_CEILING];
    columns[2] = 1;
    let mut row_starts = [0u32; ROW_STARTS_LENGTH];
    row_starts[1] = 1;
    row_starts[2] = 3;
    row_starts[3] = 4;
    row_starts[4] = 4;
    SmallStore {
        columns,
        row_starts,
        shape: shape_with(kind, index, shared_by),
    }
}

// Row 3 is the aggregate's exclusivity row.
fn small_store() -> SmallStore {
    store_with(BY_EXCLUSIVITY, 0, 1)
}

// The run, or the run without its last element.
fn front<T>(run: &[T], short: bool) -> &[T] {
    match run.split_last() {
        Some((_, front)) if short => front,
        _ => run,
    }
}

// Reads a row of the store; run `short`, if under 9, is one short.
fn read(rt: &impl Print, store: &SmallStore, row: usize, short: usize) -> io::Result<()> {
    let col_lower = [0.0; COLUMN_CEILING];
    let col_upper = [0.0; COLUMN_CEILING];
    let col_obj_coef = [0.0; COLUMN_CEILING];
    let row_lower = [0.0; ROW_CEILING];
    let row_upper = [0.0; ROW_CEILING];
    let elements = [0.0; ELEMENT_CEILING];
    let mut number: u8 = 0;
    let mut place: usize = 0;
    let part = store::row_columns(
        front(&col_lower, short == 0),
        front(&col_upper, short == 1),
        front(&col_obj_coef, short == 2),
        front(&row_lower, short == 3),
        front(&row_upper, short == 4),
        front(&elements, short == 5),
        front(&store.columns, short == 6),
        front(&store.row_starts, short == 7),
        front(&store.shape, short == 8),
        row,
        &mut number,
        &mut place,
    );
    let length = part.len();
    println!(rt; ": {number} {place} {length}")
}

fn row(rt: &impl Print, r: usize) -> io::Result<()> {
    print!(rt; "row {r}")?;
    read(rt, &small_store(), r, 9)
}

fn short_run(rt: &impl Print, k: usize) -> io::Result<()> {
    print!(rt; "short {k}")?;
    read(rt, &small_store(), 4, k)
}

// The same with another maker of row 3.
fn maker(rt: &impl Print, kind: u16, index: u16, shared_by: u16) -> io::Result<()> {
    print!(rt; "maker {kind} {index} {shared_by}")?;
    read(rt, &store_with(kind, index, shared_by), 0, 9)
}

fn shape_word(rt: &impl Print, at: usize, word: u16) -> io::Result<()> {
    let mut store = small_store();
    if at < SHAPE_LENGTH {
        store.shape[at] = word;
        print!(rt; "shape {at} {word}")?;
        read(rt, &store, 0, 9)?;
    }
    Ok(())
}

fn row_start(rt: &impl Print, r: usize, start: u32) -> io::Result<()> {
    let mut store = small_store();
    if r < ROW_STARTS_LENGTH {
        store.row_starts[r] = start;
        print!(rt; "start {r} {start}")?;
        read(rt, &store, 0, 9)?;
    }
    Ok(())
}

fn column(rt: &impl Print, at: usize, column: u16) -> io::Result<()> {
    let mut store = small_store();
    if at < ELEMENT_CEILING {
        store.columns[at] = column;
        print!(rt; "column {at} {column}")?;
        read(rt, &store, 0, 9)?;
    }
    Ok(())
}

fn rows(rt: &impl Print) -> io::Result<()> {
    for r in [0, 1, 2, 3, 4, ROW_CEILING, usize::MAX] {
        row(rt, r)?;
    }
    Ok(())
}

fn short_runs(rt: &impl Print) -> io::Result<()> {
    for k in 0..9 {
        short_run(rt, k)?;
    }
    Ok(())
}

// The other sentinel, neither, each count over its ceiling, and an element count that the starts do not end at.
fn counts(rt: &impl Print) -> io::Result<()> {
    for (at, word) in [
        (SENTINEL_AT, 1),
        (SENTINEL_AT, 2),
        (NODE_COUNT_AT, NODE_CEILING as u16 + 1),
        (EDGE_COUNT_AT, EDGE_CEILING as u16 + 1),
        (EDGE_COLUMN_COUNT_AT, EDGE_CEILING as u16 + 1),
        (SET_COUNT_AT, SET_CEILING as u16 + 1),
        (VARYING_COUNT_AT, ROW_CEILING as u16 - 1),
        (FIXED_COUNT_AT, ROW_CEILING as u16 - 1),
        (ELEMENT_COUNT_AT, ELEMENT_CEILING as u16 + 1),
        (NODE_ROW_COUNT_AT, NODE_ROW_CEILING as u16 + 1),
        (AGGREGATE_COUNT_AT, AGGREGATE_CEILING as u16 + 1),
        (VIRTUAL_STORAGE_COUNT_AT, VIRTUAL_STORAGE_CEILING as u16 + 1),
        (ELEMENT_COUNT_AT, 3),
    ] {
        shape_word(rt, at, word)?;
    }
    Ok(())
}

// A node's kind and flag; an edge's nodes and column; an aggregate's row; a virtual storage's row and flag.
fn tables(rt: &impl Print) -> io::Result<()> {
    for (at, word) in [
        (NODES_AT, 3),
        (NODES_AT, 4),
        (NODES_AT + NODE_FLAG, 2),
        (EDGES_AT, 2),
        (EDGES_AT + EDGE_TO, 2),
        (EDGES_AT + MAPPED_COLUMN, 1),
        (AGGREGATES_AT, 1),
        (AGGREGATES_AT, 2),
        (VIRTUAL_STORAGES_AT, 2),
        (VIRTUAL_STORAGES_AT + PERIOD_FLAG, 0),
        (VIRTUAL_STORAGES_AT + PERIOD_FLAG, 2),
    ] {
        shape_word(rt, at, word)?;
    }
    Ok(())
}

// The second node row: its node, its row (row 0 has no integer column), its type (without a type its set is not read) and its set.
fn node_rows(rt: &impl Print) -> io::Result<()> {
    for (at, word) in [
        (SECOND_NODE_ROW, 2),
        (SECOND_NODE_ROW + NODE_ROW_ROW, 2),
        (SECOND_NODE_ROW + NODE_ROW_ROW, 0),
        (SECOND_NODE_ROW + NODE_ROW_TYPE, 2),
        (SECOND_NODE_ROW + NODE_ROW_TYPE, 3),
        (SECOND_NODE_ROW + NODE_ROW_SET, 1),
        (NODE_ROWS_AT + NODE_ROW_SET, 1),
    ] {
        shape_word(rt, at, word)?;
    }
    Ok(())
}

// Of the first, the third and the last row's maker each word out of range; what stands behind the last is not read.
fn maker_words(rt: &impl Print) -> io::Result<()> {
    for (at, word) in [
        (MAKERS_AT, 5),
        (MAKERS_AT + MAKER_INDEX, 1),
        (MAKERS_AT + MAKER_INDEX, 2),
        (MAKERS_AT + MAKER_SHARED_BY, 0),
        (THIRD_MAKER, 5),
        (THIRD_MAKER + MAKER_INDEX, 2),
        (THIRD_MAKER + MAKER_SHARED_BY, 0),
        (FOURTH_MAKER, 65535),
        (FOURTH_MAKER + MAKER_INDEX, 1),
        (FOURTH_MAKER + MAKER_SHARED_BY, 0),
        (FOURTH_MAKER + MAKER_SHARED_BY, 65535),
        (FIFTH_MAKER, 5),
        (FIFTH_MAKER + MAKER_INDEX, 65535),
    ] {
        shape_word(rt, at, word)?;
    }
    Ok(())
}

// Each kind with its last index and the one behind it, of two nodes, one aggregate and one virtual storage; shared by none; no such kind.
fn makers(rt: &impl Print) -> io::Result<()> {
    for (kind, index, shared_by) in [
        (0, 1, 1),
        (0, 2, 1),
        (0, 1, 0),
        (1, 1, 1),
        (1, 2, 1),
        (1, 1, 0),
        (2, 0, 1),
        (2, 1, 1),
        (2, 0, 0),
        (3, 0, 1),
        (3, 1, 1),
        (3, 0, 0),
        (4, 0, 1),
        (4, 1, 1),
        (4, 0, 0),
        (5, 0, 1),
    ] {
        maker(rt, kind, index, shared_by)?;
    }
    Ok(())
}

// Not from 0; falling; not ending at the element count; row 2 empty and row 3 not; row 2 with columns 1, 0; row 1 with columns 0, 0, 1.
fn row_starts(rt: &impl Print) -> io::Result<()> {
    for (r, start) in [(0, 1), (1, 4), (4, 5), (3, 3), (2, 2), (1, 0)] {
        row_start(rt, r, start)?;
    }
    Ok(())
}

// Out of range; row 1 with columns 1, 1 and 0, 0; another column in row 2; a column behind the last row, which is not read.
fn columns(rt: &impl Print) -> io::Result<()> {
    for (at, word) in [(0, 2), (1, 1), (2, 0), (3, 1), (4, 2)] {
        column(rt, at, word)?;
    }
    Ok(())
}

fn main(rt: HostRuntime) -> io::Result<()> {
    rows(&rt)?;
    short_runs(&rt)?;
    counts(&rt)?;
    tables(&rt)?;
    node_rows(&rt)?;
    maker_words(&rt)?;
    makers(&rt)?;
    row_starts(&rt)?;
    columns(&rt)
}
