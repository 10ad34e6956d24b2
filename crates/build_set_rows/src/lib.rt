// The fixed rows of an exclusive constant node (SolverBuilder::create_node_constraints of builder.rs).
#![tactic(auto)]

ghost use Rattle.std.specs.Prelude.{◌≡◌, ◌<◌, ◌≤◌, List, [], ◌∷◌, ◌++◌, length};
ghost use Rattle.layout.specs.Layout.{set_ceiling, column_ceiling, words_length, numbers_length};
ghost use Rattle.pywr.specs.Numbers.{zero64, high};
ghost use Rattle.pywr.specs.Rows.{column_map, add_element, add_node};
ghost use Rattle.pywr.specs.FixedRows.{exclusive_rows};
ghost use Rattle.pywr.specs.Programme.{Row};
ghost use Rattle.network_node.specs.Node.{node_at, node_place};
ghost use Rattle.build_append.specs.LpBuilder.{RowsHeld, Holding, AfterRows, filled_then, SameRuns};
ghost use Rattle.build_node_row.specs.Tables.{network_of, TablesHold};
ghost use Rattle.build_node_row.specs.EdgeColumns.{edge_columns_of};
ghost use Rattle.layout.specs.WorkRoom.{WorkRoom};

use build_append::LpBuilder;
use build_exclusive_sets::ProgrammeFull;
use build_node_row::EdgeTables;
use extremes::{greater, lesser};
use layout::ELEMENTS_MADE_AT;
use pywr::{ColumnIndex, Interval, NodeIndex};

// A node's row with a coefficient on a set's column becomes the last row: its bounds are 0 and the high sentinel.
fn add_bounded_row(
    tables: &EdgeTables<'_>,
    node: NodeIndex,
    factor: f64,
    column: ColumnIndex,
    coefficient: f64,
    lp: &mut LpBuilder<'_>,
) -> Result<(), ProgrammeFull>
    requires { TablesHold tables.now × (node.0 < tables.now.counts.nodes) × (column.0 < column_ceiling)
        × WorkRoom lp.old.words.now lp.old.numbers.now × Holding lp.old.words.now lp.old.numbers.now lp.old.filled }
    ensures rows { (rows : List Row) → RowsHeld rows lp.old.words.now lp.old.numbers.now lp.old.filled
        → AfterRows (rows ++ (record {
          lower = zero64;
          upper = high lp.old.sentinel;
          elements = add_element column.0 coefficient
              (add_node (column_map (network_of tables.now.file.now tables.now.counts)) node.0 factor []);
        } ∷ []))
        lp.old.words.now (filled_then result lp.new.filled) lp.new.words.now lp.new.numbers.now }
    ensures same { SameRuns lp.old lp.new }
{
    let at = ELEMENTS_MADE_AT + lp.filled.elements;
    let n = build_node_row::bounded_row(
        tables,
        node,
        factor,
        column,
        coefficient,
        &mut lp.columns,
        &mut lp.numbers[at..],
    );
    let bounds = Interval {
        lower: 0.0,
        upper: lp.sentinel.high(),
    };
    lp.add_fixed_row(n, bounds)
}

// The rows of a constant node in one exclusive set: the upper row, and unless its min is 0 the lower row.
pub fn add_bounded_rows(
    tables: &EdgeTables<'_>,
    node: NodeIndex,
    set: usize,
    lp: &mut LpBuilder<'_>,
) -> Result<(), ProgrammeFull>
    requires { TablesHold tables.now × (node.0 < tables.now.counts.nodes)
        × (tables.now.edge_columns ≡ edge_columns_of tables.now.file.now tables.now.counts) × (set < set_ceiling)
        × WorkRoom lp.old.words.now lp.old.numbers.now × Holding lp.old.words.now lp.old.numbers.now lp.old.filled }
    ensures rows { (rows : List Row) → RowsHeld rows lp.old.words.now lp.old.numbers.now lp.old.filled
        → AfterRows (rows ++ exclusive_rows lp.old.sentinel (column_map (network_of tables.now.file.now tables.now.counts)) node.0 (node_at tables.now.file.now (node_place node.0)) (set ∷ []))
        lp.old.words.now (filled_then result lp.new.filled) lp.new.words.now lp.new.numbers.now }
    ensures same { SameRuns lp.old lp.new }
{
    let min = network_node::min(tables.file, node);
    let max = network_node::max(tables.file, node);
    let column = ColumnIndex((tables.edge_columns + set) as u16);
    let upper = lesser(max, 1e6);
    add_bounded_row(tables, node, -1.0, column, upper, lp)?;
    if min == 0.0 {
        return Ok(());
    }
    let lower = -greater(min, 1e-6);
    add_bounded_row(tables, node, 1.0, column, lower, lp)
}
