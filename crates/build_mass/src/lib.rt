// The mass rows of the links (SolverBuilder::create_mass_balance_constraints of builder.rs).
#![tactic(auto)]

ghost use Rattle.std.specs.Prelude.{ℕ, ◌<◌, ◌≤◌, List, [], ◌∷◌, ◌++◌, length, get_or};
ghost use Rattle.std.specs.Float.Ieee.{neg};
ghost use Rattle.layout.specs.Layout.{node_ceiling, edge_ceiling, column_ceiling};
ghost use Rattle.laws.specs.Linked.{Linked};
ghost use Rattle.pywr.specs.Numbers.{one64};
ghost use Rattle.pywr.specs.Rows.{add_on, column_map};
ghost use Rattle.pywr.specs.FixedRows.{mass_rows_from};
ghost use Rattle.pywr.specs.Programme.{Row, Maker};
ghost use Rattle.pywr.specs.Makers.{mass_makers};
ghost use Rattle.network_node.specs.Node.{node_at, node_place};
ghost use Rattle.build_row.specs.EdgeList.{columns_of, ListedEdges};
ghost use Rattle.build_append.specs.LpBuilder.{RowsHeld, Holding, AfterRows, filled_then, SameRuns};
ghost use Rattle.build_makers.specs.MadeRows.{MadeHeld, MadeHolding, AfterMade};
ghost use Rattle.build_row.specs.Gathered.{Gathered};
ghost use Rattle.build_node_row.specs.Tables.{network_of, TablesHold};
ghost use Rattle.layout.specs.WorkRoom.{WorkRoom};

use build_append::LpBuilder;
use build_exclusive_sets::ProgrammeFull;
use build_makers::MakerKind;
use build_node_row::EdgeTables;
use layout::{COLUMN_CEILING, ELEMENTS_MADE_AT, SHAPE_MADE_AT};
use network_node::NodeKind;
use pywr::{ColumnNumber, Interval, NodeIndex};

// A link's mass row gathered: 1 on the columns of its incoming edges, −1 on those of its outgoing ones.
fn mass_row(
    tables: &EdgeTables<'_>,
    node: NodeIndex,
    columns: &mut [ColumnNumber; COLUMN_CEILING],
    elements: &mut [f64],
) -> usize
    requires { (column_ceiling ≤ length elements.old) × (node.0 < node_ceiling)
        × ListedEdges tables.now.incoming.next tables.now.edge_to_col (get_or tables.now.incoming.first node.0 0)
        × ListedEdges tables.now.outgoing.next tables.now.edge_to_col (get_or tables.now.outgoing.first node.0 0) }
    ensures row { (into out : List ℕ) → Linked edge_ceiling tables.now.incoming.next (get_or tables.now.incoming.first node.0 0) into
        → Linked edge_ceiling tables.now.outgoing.next (get_or tables.now.outgoing.first node.0 0) out
        → Gathered (add_on (columns_of tables.now.edge_to_col out) (neg one64) (add_on (columns_of tables.now.edge_to_col into) one64 []))
        columns.new elements.new result }
    ensures long { column_ceiling ≤ length columns.new }
{
    let k = usize::from(node.0);
    let edge_to_col = &tables.edge_to_col;
    let into = &tables.incoming;
    let out_of = &tables.outgoing;
    let n = build_row::add_columns(
        &into.next,
        edge_to_col,
        into.first[k],
        1.0,
        columns,
        elements,
        0,
    );
    build_row::add_columns(
        &out_of.next,
        edge_to_col,
        out_of.first[k],
        -1.0,
        columns,
        elements,
        n,
    )
}

// A link's mass row becomes the last row unless it has one distinct column. No other node has one.
fn add_mass_row(
    tables: &EdgeTables<'_>,
    node: NodeIndex,
    lp: &mut LpBuilder<'_>,
) -> Result<(), ProgrammeFull>
    requires { TablesHold tables.now × (node.0 < tables.now.counts.nodes)
        × WorkRoom lp.old.words.now lp.old.numbers.now × Holding lp.old.words.now lp.old.numbers.now lp.old.filled }
    ensures rows { (rows : List Row) → RowsHeld rows lp.old.words.now lp.old.numbers.now lp.old.filled
        → AfterRows (rows ++ mass_rows_from (column_map (network_of tables.now.file.now tables.now.counts)) node.0 (node_at tables.now.file.now (node_place node.0) ∷ []))
        lp.old.words.now (filled_then result lp.new.filled) lp.new.words.now lp.new.numbers.now }
    ensures same { SameRuns lp.old lp.new }
{
    if network_node::kind(tables.file, node) != NodeKind::Link {
        return Ok(());
    }
    let at = ELEMENTS_MADE_AT + lp.filled.elements;
    let n = mass_row(tables, node, &mut lp.columns, &mut lp.numbers[at..]);
    // the row's distinct columns
    if n == 1 {
        return Ok(());
    }
    let bounds = Interval {
        lower: 0.0,
        upper: 0.0,
    };
    lp.add_fixed_row(n, bounds)
}

// The mass rows of all links, in node order.
pub fn create_mass_balance_constraints(
    tables: &EdgeTables<'_>,
    lp: &mut LpBuilder<'_>,
) -> Result<(), ProgrammeFull>
    requires { TablesHold tables.now
        × WorkRoom lp.old.words.now lp.old.numbers.now × MadeHolding lp.old.words.now lp.old.numbers.now lp.old.filled }
    ensures rows { (rows : List Row) (makers : List Maker) → MadeHeld rows makers lp.old.words.now lp.old.numbers.now lp.old.filled
        → AfterMade (rows ++ mass_rows_from (column_map (network_of tables.now.file.now tables.now.counts)) 0 (network_of tables.now.file.now tables.now.counts).nodes)
        (makers ++ mass_makers (column_map (network_of tables.now.file.now tables.now.counts)) 0 (network_of tables.now.file.now tables.now.counts).nodes)
        lp.old.words.now (filled_then result lp.new.filled) lp.new.words.now lp.new.numbers.now }
    ensures same { SameRuns lp.old lp.new }
{
    for i in 0..tables.counts.nodes {
        let index = i as u16;
        let before = lp.filled.rows;
        add_mass_row(tables, NodeIndex(index), lp)?;
        let shape = &mut lp.words[SHAPE_MADE_AT..];
        build_makers::put_makers(shape, before, lp.filled.rows, MakerKind::Mass, index, 1);
    }
    Ok(())
}
