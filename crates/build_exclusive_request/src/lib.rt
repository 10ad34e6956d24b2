// The rows that a node asks for where exclusive sets list it: an upper and a lower one for each membership.
#![tactic(auto)]

ghost use Rattle.std.specs.Prelude.{◌≡◌, List, [], ◌∷◌, ◌++◌, ◌+◌, ◌<◌, ◌≤◌, length};
ghost use Rattle.layout.specs.Layout.{set_ceiling, node_row_ceiling, words_length, numbers_length};
ghost use Rattle.pywr.specs.Rows.{column_map};
ghost use Rattle.pywr.specs.VaryingRows.{RowRequest, exclusive_requests};
ghost use Rattle.build_node_row.specs.Tables.{network_of, TablesHold, MembershipTables};
ghost use Rattle.build_node_row.specs.EdgeColumns.{edge_columns_of};
ghost use Rattle.build_node_table.specs.NodeTable.{node_rows, node_rows_then, NodeRowsHeld, NodeRowsHolding, AfterRequests, requests_before, listed_requests};
ghost use Rattle.build_append.specs.LpBuilder.{SameRuns};
ghost use Rattle.layout.specs.WorkRoom.{WorkRoom};

use build_append::LpBuilder;
use build_exclusive_sets::{Memberships, ProgrammeFull};
use build_node_row::EdgeTables;
use build_node_table::NodeRowType;
use layout::SET_SIZE_CEILING;
use pywr::{ColumnIndex, NodeIndex};

// The memberships of a set, in the width of the table.
const SET_SIZE: u16 = SET_SIZE_CEILING as u16;

// A node that a set lists asks for its upper row, then for its lower row.
fn request_bounded_rows(
    tables: &EdgeTables<'_>,
    node: NodeIndex,
    set: u16,
    lp: &mut LpBuilder<'_>,
    count: usize,
) -> Result<usize, ProgrammeFull>
    requires { TablesHold tables.now × (node.0 < tables.now.counts.nodes)
        × (tables.now.edge_columns ≡ edge_columns_of tables.now.file.now tables.now.counts) × (set < set_ceiling)
        × WorkRoom lp.old.words.now lp.old.numbers.now × NodeRowsHolding lp.old.sentinel lp.old.words.now lp.old.numbers.now (node_rows lp.old count) × (count + 2 ≤ node_row_ceiling) }
    ensures rows { (asks : List RowRequest) → NodeRowsHeld lp.old.sentinel asks lp.old.words.now lp.old.numbers.now (node_rows lp.old count)
        → AfterRequests lp.old.sentinel (asks ++ exclusive_requests (column_map (network_of tables.now.file.now tables.now.counts)) node.0 (set ∷ [])) (node_rows_then result lp.new) lp.new.words.now lp.new.numbers.now }
    ensures same { SameRuns lp.old lp.new }
{
    let column = ColumnIndex((tables.edge_columns + usize::from(set)) as u16);
    let upper = build_node_request::request_bounded_row(
        tables,
        node,
        -1.0,
        column,
        1.0,
        NodeRowType::BinaryUpper,
        set,
        lp,
        count,
    )?;
    build_node_request::request_bounded_row(
        tables,
        node,
        1.0,
        column,
        -1.0,
        NodeRowType::BinaryLower,
        set,
        lp,
        upper,
    )
}

// A node asks for two rows for each of its memberships: membership j is of the set numbered j / SET_SIZE_CEILING.
pub fn request_exclusive_rows(
    tables: &EdgeTables<'_>,
    memberships: &Memberships,
    node: NodeIndex,
    lp: &mut LpBuilder<'_>,
    count: usize,
) -> Result<usize, ProgrammeFull>
    requires { TablesHold tables.now × (node.0 < tables.now.counts.nodes)
        × (tables.now.edge_columns ≡ edge_columns_of tables.now.file.now tables.now.counts) × MembershipTables tables.now.file.now tables.now.counts memberships.now
        × WorkRoom lp.old.words.now lp.old.numbers.now
        × NodeRowsHeld lp.old.sentinel (requests_before (column_map (network_of tables.now.file.now tables.now.counts)) node.0) lp.old.words.now lp.old.numbers.now (node_rows lp.old count)
        × (length (requests_before (column_map (network_of tables.now.file.now tables.now.counts)) node.0 ++ listed_requests (column_map (network_of tables.now.file.now tables.now.counts)) node.0) ≤ node_row_ceiling) }
    ensures rows { AfterRequests lp.old.sentinel (requests_before (column_map (network_of tables.now.file.now tables.now.counts)) node.0 ++ listed_requests (column_map (network_of tables.now.file.now tables.now.counts)) node.0)
        (node_rows_then result lp.new) lp.new.words.now lp.new.numbers.now }
    ensures same { SameRuns lp.old lp.new }
{
    let mut held = count;
    let mut link = memberships.first[usize::from(node.0)];
    while link != 0 {
        let membership = link - 1;
        held = request_bounded_rows(tables, node, membership / SET_SIZE, lp, held)?;
        link = memberships.next[usize::from(membership)];
    }
    Ok(held)
}
