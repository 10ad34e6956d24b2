// One node's request for one row: its own row, or its row with a set's column.
#![tactic(auto)]

ghost use Rattle.std.specs.Prelude.{◌≡◌, List, [], ◌∷◌, ◌++◌, ◌<◌, ◌≤◌, length};
ghost use Rattle.layout.specs.Layout.{column_ceiling, node_row_ceiling, words_length, numbers_length};
ghost use Rattle.pywr.specs.Rows.{column_map, add_element, add_node, node_row};
ghost use Rattle.pywr.specs.Programme.{continuous};
ghost use Rattle.pywr.specs.VaryingRows.{RowRequest};
ghost use Rattle.build_node_row.specs.Tables.{network_of, TablesHold};
ghost use Rattle.build_node_table.specs.NodeTable.{row_type_of, node_rows, node_rows_then, NodeRowsHeld, NodeRowsHolding, AfterRequests};
ghost use Rattle.build_append.specs.LpBuilder.{SameRuns};
ghost use Rattle.layout.specs.WorkRoom.{WorkRoom};

use build_append::LpBuilder;
use build_exclusive_sets::ProgrammeFull;
use build_node_row::EdgeTables;
use build_node_table::NodeRowType;
use layout::ELEMENTS_MADE_AT;
use pywr::{ColumnIndex, NodeIndex};

// A node that no exclusive set lists asks for its node row.
pub fn request_node_row(
    tables: &EdgeTables<'_>,
    node: NodeIndex,
    lp: &mut LpBuilder<'_>,
    count: usize,
) -> Result<usize, ProgrammeFull>
    requires { TablesHold tables.now × (node.0 < tables.now.counts.nodes)
        × WorkRoom lp.old.words.now lp.old.numbers.now × NodeRowsHolding lp.old.sentinel lp.old.words.now lp.old.numbers.now (node_rows lp.old count) × (count < node_row_ceiling) }
    ensures rows { (asks : List RowRequest) → NodeRowsHeld lp.old.sentinel asks lp.old.words.now lp.old.numbers.now (node_rows lp.old count)
        → AfterRequests lp.old.sentinel (asks ++ (record { node = node.0; row_type = continuous; set = 0; row = node_row (column_map (network_of tables.now.file.now tables.now.counts)) node.0 } ∷ []))
        (node_rows_then result lp.new) lp.new.words.now lp.new.numbers.now }
    ensures same { SameRuns lp.old lp.new }
{
    let at = ELEMENTS_MADE_AT + lp.filled.elements;
    let n = build_node_row::add_node(tables, node, 1.0, &mut lp.columns, &mut lp.numbers[at..], 0);
    build_node_table::add_node_row(lp, n, node, NodeRowType::Continuous, 0, count)
}

// A node asks for its row with a coefficient on a set's column.
pub fn request_bounded_row(
    tables: &EdgeTables<'_>,
    node: NodeIndex,
    factor: f64,
    column: ColumnIndex,
    coefficient: f64,
    row_type: NodeRowType,
    set: u16,
    lp: &mut LpBuilder<'_>,
    count: usize,
) -> Result<usize, ProgrammeFull>
    requires { TablesHold tables.now × (node.0 < tables.now.counts.nodes) × (column.0 < column_ceiling)
        × WorkRoom lp.old.words.now lp.old.numbers.now × NodeRowsHolding lp.old.sentinel lp.old.words.now lp.old.numbers.now (node_rows lp.old count) × (count < node_row_ceiling) }
    ensures rows { (asks : List RowRequest) → NodeRowsHeld lp.old.sentinel asks lp.old.words.now lp.old.numbers.now (node_rows lp.old count)
        → AfterRequests lp.old.sentinel
        (asks ++ (record { node = node.0; row_type = row_type_of row_type; set = set; row = add_element column.0 coefficient (add_node (column_map (network_of tables.now.file.now tables.now.counts)) node.0 factor []) } ∷ []))
        (node_rows_then result lp.new) lp.new.words.now lp.new.numbers.now }
    ensures same { SameRuns lp.old lp.new }
{
    let at = ELEMENTS_MADE_AT + lp.filled.elements;
    let n = build_node_row::bounded_row(
        tables,
        node,
        factor,
        column,
        coefficient,
        &mut lp.columns,
        &mut lp.numbers[at..],
    );
    build_node_table::add_node_row(lp, n, node, row_type, set, count)
}
