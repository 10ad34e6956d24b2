// The rows of the varying nodes (SolverBuilder::create_node_constraints of builder.rs).
#![tactic(auto)]

ghost use Rattle.std.specs.Prelude.{◌≡◌, [], ◌+◌, ◌<◌, ◌≤◌, length};
ghost use Rattle.layout.specs.Layout.{words_length, numbers_length};
ghost use Rattle.pywr.specs.Rows.{column_map};
ghost use Rattle.pywr.specs.VaryingRows.{requests_from};
ghost use Rattle.build_append.specs.LpBuilder.{RowsHeld, SameRuns};
ghost use Rattle.build_node_row.specs.Tables.{network_of, TablesHold, MembershipTables};
ghost use Rattle.build_node_row.specs.EdgeColumns.{edge_columns_of};
ghost use Rattle.build_node_table.specs.NodeTable.{node_rows, node_rows_then, NodeRowsHeld, AfterRequests, requests_before};
ghost use Rattle.layout.specs.WorkRoom.{WorkRoom};

use build_append::LpBuilder;
use build_exclusive_sets::{Memberships, ProgrammeFull};
use build_node_row::EdgeTables;
use pywr::NodeIndex;

// A varying node asks for its rows, a constant one for none. Answers how many node rows there are then.
fn request_rows(
    tables: &EdgeTables<'_>,
    memberships: &Memberships,
    node: NodeIndex,
    lp: &mut LpBuilder<'_>,
    count: usize,
) -> Result<usize, ProgrammeFull>
    requires { TablesHold tables.now × (node.0 < tables.now.counts.nodes)
        × (tables.now.edge_columns ≡ edge_columns_of tables.now.file.now tables.now.counts) × MembershipTables tables.now.file.now tables.now.counts memberships.now
        × WorkRoom lp.old.words.now lp.old.numbers.now
        × NodeRowsHeld lp.old.sentinel (requests_before (column_map (network_of tables.now.file.now tables.now.counts)) node.0) lp.old.words.now lp.old.numbers.now (node_rows lp.old count) }
    ensures rows { AfterRequests lp.old.sentinel (requests_before (column_map (network_of tables.now.file.now tables.now.counts)) (node.0 + 1)) (node_rows_then result lp.new) lp.new.words.now lp.new.numbers.now }
    ensures same { SameRuns lp.old lp.new }
{
    if network_node::is_constant(tables.file, node) {
        return Ok(count);
    }
    if memberships.first[usize::from(node.0)] == 0 {
        return build_node_request::request_node_row(tables, node, lp, count);
    }
    build_exclusive_request::request_exclusive_rows(tables, memberships, node, lp, count)
}

// The rows of all varying nodes, in node order; each node row is written to the node-row table. Answers how many node rows there are.
pub fn create_node_constraints(
    tables: &EdgeTables<'_>,
    memberships: &Memberships,
    lp: &mut LpBuilder<'_>,
) -> Result<usize, ProgrammeFull>
    requires { TablesHold tables.now
        × (tables.now.edge_columns ≡ edge_columns_of tables.now.file.now tables.now.counts) × MembershipTables tables.now.file.now tables.now.counts memberships.now
        × WorkRoom lp.old.words.now lp.old.numbers.now × RowsHeld [] lp.old.words.now lp.old.numbers.now lp.old.filled }
    ensures rows { AfterRequests lp.old.sentinel (requests_from (column_map (network_of tables.now.file.now tables.now.counts)) 0 (network_of tables.now.file.now tables.now.counts).nodes) (node_rows_then result lp.new) lp.new.words.now lp.new.numbers.now }
    ensures same { SameRuns lp.old lp.new }
{
    let mut count = 0;
    for i in 0..tables.counts.nodes {
        count = request_rows(tables, memberships, NodeIndex(i as u16), lp, count)?;
    }
    Ok(count)
}
