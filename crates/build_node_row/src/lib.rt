// A node added to a row (SolverBuilder::add_node of builder.rs), and the row of a node with a coefficient on a set's column.
// In specs/ the tables that rows are made from.
#![tactic(auto)]

ghost use Rattle.std.specs.Prelude.{◌≡◌, ℕ, ◌<◌, ◌≤◌, length, get_or, []};
ghost use Rattle.layout.specs.Layout.{node_ceiling, column_ceiling};
ghost use Rattle.build_row.specs.RowBuilder.{Rising};
ghost use Rattle.build_node_row.specs.Tables.{TablesHold, network_of};
ghost use Rattle.build_node_row.specs.NodeAdded.{NodeAdded};
ghost use Rattle.pywr.specs.Rows.{column_map, add_element, add_node};
ghost use Rattle.build_row.specs.EdgeList.{ListedEdges, ColumnsAdded};
ghost use Rattle.build_row.specs.Gathered.{Gathered};

use build_incident_edges::EdgeLists;
use layout::{COLUMN_CEILING, EDGE_CEILING};
use network_node::NodeKind;
use network_record::Counts;
use pywr::{ColumnIndex, ColumnNumber, NodeIndex};

// What rows are made from: a network file with its counts, how many columns its edges have, the edges of each node, and each edge's column plus 1.
#[derive(Drop)]
pub struct EdgeTables<'a> {
    pub file: &'a [u8],
    pub counts: Counts,
    pub edge_columns: usize,
    pub incoming: EdgeLists,
    pub outgoing: EdgeLists,
    pub edge_to_col: [u16; EDGE_CEILING],
}

// Adds the factor on the columns of the node's edges in these lists.
fn add_edges(
    lists: &EdgeLists,
    edge_to_col: &[u16; EDGE_CEILING],
    node: NodeIndex,
    factor: f64,
    columns: &mut [ColumnNumber; COLUMN_CEILING],
    elements: &mut [f64],
    n: usize,
) -> usize
    requires { (node.0 < node_ceiling) × (n ≤ column_ceiling) × (column_ceiling ≤ length elements.old) × Rising columns.old n
        × ListedEdges lists.now.next edge_to_col.now (get_or lists.now.first node.0 0) }
    ensures { ColumnsAdded lists.now.next edge_to_col.now (get_or lists.now.first node.0 0) factor columns.old elements.old n columns.new elements.new result }
{
    let first = lists.first[usize::from(node.0)];
    build_row::add_columns(
        &lists.next,
        edge_to_col,
        first,
        factor,
        columns,
        elements,
        n,
    )
}

// Adds a node to the row: an input or a link by its outgoing edges, an output by its incoming ones, a storage by both, the outgoing ones with the factor negated.
pub fn add_node(
    tables: &EdgeTables<'_>,
    node: NodeIndex,
    factor: f64,
    columns: &mut [ColumnNumber; COLUMN_CEILING],
    elements: &mut [f64],
    n: usize,
) -> usize
    requires { TablesHold tables.now × (node.0 < tables.now.counts.nodes)
        × (n ≤ column_ceiling) × (column_ceiling ≤ length elements.old) × Rising columns.old n }
    ensures { NodeAdded tables.now.file.now tables.now.counts node.0 factor columns.old elements.old n columns.new elements.new result }
{
    let into = &tables.incoming;
    let out = &tables.outgoing;
    let cols = &tables.edge_to_col;
    match network_node::kind(tables.file, node) {
        NodeKind::Output => add_edges(into, cols, node, factor, columns, elements, n),
        NodeKind::Storage => {
            let m = add_edges(into, cols, node, factor, columns, elements, n);
            add_edges(out, cols, node, -factor, columns, elements, m)
        }
        _ => add_edges(out, cols, node, factor, columns, elements, n),
    }
}

// The row of a node with a coefficient on a set's column.
pub fn bounded_row(
    tables: &EdgeTables<'_>,
    node: NodeIndex,
    factor: f64,
    column: ColumnIndex,
    coefficient: f64,
    columns: &mut [ColumnNumber; COLUMN_CEILING],
    elements: &mut [f64],
) -> usize
    requires { TablesHold tables.now × (node.0 < tables.now.counts.nodes)
        × (column.0 < column_ceiling) × (column_ceiling ≤ length elements.old) }
    ensures { Gathered (add_element column.0 coefficient (add_node (column_map (network_of tables.now.file.now tables.now.counts)) node.0 factor [])) columns.new elements.new result }
{
    let n = add_node(tables, node, factor, columns, elements, 0);
    build_row::add_element(columns, elements, n, column, coefficient)
}
