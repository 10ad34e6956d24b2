// The varying rows of a programme: those of nodes, of aggregates and of virtual storages.
#![tactic(auto)]

ghost use Rattle.std.specs.Prelude.{◌≡◌, ◌≤◌, [], length};
ghost use Rattle.layout.specs.Layout.{words_length, numbers_length};
ghost use Rattle.build_node_row.specs.EdgeColumns.{edge_columns_of};
ghost use Rattle.build_node_row.specs.Tables.{network_of, TablesHold, MembershipTables};
ghost use Rattle.build_append.specs.LpBuilder.{RowsHeld, SameRuns};
ghost use Rattle.build_node_table.specs.NodeTable.{node_rows_then};
ghost use Rattle.build_varying.specs.VaryingLaid.{AfterVarying};
ghost use Rattle.layout.specs.WorkRoom.{WorkRoom};

use build_append::LpBuilder;
use build_exclusive_sets::{Memberships, ProgrammeFull};
use build_node_row::EdgeTables;

// The varying rows: of nodes, of aggregates, of virtual storages. Answers how many node rows there are.
pub fn add_varying_rows(
    tables: &EdgeTables<'_>,
    memberships: &Memberships,
    lp: &mut LpBuilder<'_>,
) -> Result<usize, ProgrammeFull>
    requires { TablesHold tables.now
        × MembershipTables tables.now.file.now tables.now.counts memberships.now × (tables.now.edge_columns ≡ edge_columns_of tables.now.file.now tables.now.counts)
        × WorkRoom lp.old.words.now lp.old.numbers.now × RowsHeld [] lp.old.words.now lp.old.numbers.now lp.old.filled }
    ensures rows { AfterVarying lp.old.sentinel (network_of tables.now.file.now tables.now.counts) (node_rows_then result lp.new) lp.new.words.now lp.new.numbers.now }
    ensures same { SameRuns lp.old lp.new }
{
    let node_rows = build_nodes::create_node_constraints(tables, memberships, lp)?;
    build_aggregates::create_aggregated_node_constraints(tables, lp)?;
    build_virtual_storages::create_virtual_storage_constraints(tables, lp)?;
    Ok(node_rows)
}
