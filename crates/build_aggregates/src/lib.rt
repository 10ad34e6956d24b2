// The rows of the aggregated nodes (SolverBuilder::create_aggregated_node_constraints of builder.rs).
#![tactic(auto)]

ghost use Rattle.std.specs.Prelude.{◌≡◌, List, [], ◌∷◌, map, ℕ, Ok, ◌+◌, ◌<◌, ◌≤◌, length};
ghost use Rattle.std.proofs.lemmas.List.Edits.{sets};
ghost use Rattle.layout.specs.Layout.{column_ceiling, aggregates_at, aggregates_made_at, words_length, numbers_length};
ghost use Rattle.pywr.specs.Bytes.{byte, le16};
ghost use Rattle.pywr.specs.Rows.{Element, column_map, add_nodes, aggregate_row};
ghost use Rattle.pywr.specs.VaryingRows.{fresh_row};
ghost use Rattle.network_aggregate.specs.AggregatedNode.{aggregate_set_at, set_end, aggregate_at, aggregate_end, check_aggregate, member_place};
ghost use Rattle.build_row.specs.RowBuilder.{gathered, Rising};
ghost use Rattle.build_append.specs.LpBuilder.{RowsHeld, Holding, filled_then, SameRuns};
ghost use Rattle.build_join.specs.VariableRow.{AfterVariableRow, placed_then};
ghost use Rattle.build_node_row.specs.Tables.{network_of, TablesHold};
ghost use Rattle.build_row.specs.Gathered.{Gathered};
ghost use Rattle.build_join.specs.JoinedRows.{HoldingVarying, AfterVariableRows};
ghost use Rattle.build_aggregates.specs.AggregateRows.{aggregate_rows, aggregate_table};
ghost use Rattle.layout.specs.WorkRoom.{WorkRoom};

use build_append::LpBuilder;
use build_exclusive_sets::ProgrammeFull;
use build_node_row::EdgeTables;
use layout::{AGGREGATES_AT, COLUMN_CEILING, ELEMENTS_MADE_AT, SHAPE_MADE_AT};
use pywr::ColumnNumber;

// Adds the nodes of the set at `at` to the row.
fn add_nodes(
    tables: &EdgeTables<'_>,
    at: usize,
    columns: &mut [ColumnNumber; COLUMN_CEILING],
    elements: &mut [f64],
    n: usize,
) -> usize
    requires { TablesHold tables.now
        × (set_end tables.now.file.now at ≤ length tables.now.file.now) × ((k : ℕ) → k < byte tables.now.file.now at → le16 tables.now.file.now (member_place at k) < tables.now.counts.nodes)
        × (n ≤ column_ceiling) × (column_ceiling ≤ length elements.old) × Rising columns.old n }
    ensures { Gathered (add_nodes (column_map (network_of tables.now.file.now tables.now.counts)) (aggregate_set_at tables.now.file.now at) (gathered columns.old elements.old n))
        columns.new elements.new result }
{
    let mut count = n;
    for k in 0..network_aggregate::set_size(tables.file, at) {
        let node = network_aggregate::member(tables.file, at, k);
        count = build_node_row::add_node(tables, node, 1.0, columns, elements, count);
    }
    count
}

// Gathers the row of the aggregate at `at`: the node rows of every node listed, set by set.
fn aggregate_row(
    tables: &EdgeTables<'_>,
    at: usize,
    columns: &mut [ColumnNumber; COLUMN_CEILING],
    elements: &mut [f64],
) -> usize
    requires { TablesHold tables.now
        × (check_aggregate tables.now.file.now tables.now.counts.nodes at ≡ Ok (aggregate_end tables.now.file.now at)) × (column_ceiling ≤ length elements.old) }
    ensures { Gathered (aggregate_row (column_map (network_of tables.now.file.now tables.now.counts)) (aggregate_at tables.now.file.now at)) columns.new elements.new result }
{
    let mut here = network_aggregate::sets_at(at);
    let mut n = 0;
    for _ in 0..network_aggregate::set_count(tables.file, at) {
        n = add_nodes(tables, here, columns, elements, n);
        here = network_aggregate::set_end(tables.file, here);
    }
    n
}

// The row of the aggregate at `at` is gathered behind the elements so far and asked for.
fn add_aggregate_row(
    tables: &EdgeTables<'_>,
    at: usize,
    lp: &mut LpBuilder<'_>,
) -> Result<usize, ProgrammeFull>
    requires { TablesHold tables.now
        × (check_aggregate tables.now.file.now tables.now.counts.nodes at ≡ Ok (aggregate_end tables.now.file.now at))
        × WorkRoom lp.old.words.now lp.old.numbers.now × Holding lp.old.words.now lp.old.numbers.now lp.old.filled }
    ensures row { (rows : List (List Element)) → RowsHeld (map (fresh_row lp.old.sentinel) rows) lp.old.words.now lp.old.numbers.now lp.old.filled
        → AfterVariableRow lp.old.sentinel rows (aggregate_row (column_map (network_of tables.now.file.now tables.now.counts)) (aggregate_at tables.now.file.now at))
        lp.old.words.now (placed_then result lp.new.filled) lp.new.words.now lp.new.numbers.now }
    ensures same { SameRuns lp.old lp.new }
{
    let from = ELEMENTS_MADE_AT + lp.filled.elements;
    let n = aggregate_row(tables, at, &mut lp.columns, &mut lp.numbers[from..]);
    build_join::add_variable_row(lp, n)
}

// Aggregate i of the table: its row.
fn put_aggregate(shape: &mut [u16], i: usize, row: u16)
    requires { aggregates_at + i < length shape.old }
    ensures { shape.new ≡ sets shape.old (aggregates_at + i) (row ∷ []) }
{
    shape[AGGREGATES_AT + i] = row;
}

// Each aggregate asks for its row; the row's number is written to the aggregates' table.
pub fn create_aggregated_node_constraints(
    tables: &EdgeTables<'_>,
    lp: &mut LpBuilder<'_>,
) -> Result<(), ProgrammeFull>
    requires { TablesHold tables.now
        × WorkRoom lp.old.words.now lp.old.numbers.now × HoldingVarying lp.old.sentinel lp.old.words.now lp.old.numbers.now lp.old.filled }
    ensures rows { (rows : List (List Element)) → RowsHeld (map (fresh_row lp.old.sentinel) rows) lp.old.words.now lp.old.numbers.now lp.old.filled
        → AfterVariableRows lp.old.sentinel rows (aggregate_rows (network_of tables.now.file.now tables.now.counts)) aggregates_made_at tables.now.counts.aggregates aggregate_table
        lp.old.words.now (filled_then result lp.new.filled) lp.new.words.now lp.new.numbers.now }
    ensures same { SameRuns lp.old lp.new }
{
    let mut at = network_edge::edges_end(tables.counts.nodes, tables.counts.edges);
    for i in 0..tables.counts.aggregates {
        let row = add_aggregate_row(tables, at, lp)?;
        put_aggregate(&mut lp.words[SHAPE_MADE_AT..], i, row as u16);
        at = network_aggregate::aggregate_end(tables.file, at);
    }
    Ok(())
}
