// The rows of the constant nodes (SolverBuilder::create_node_constraints of builder.rs).
#![tactic(auto)]

ghost use Rattle.std.specs.Prelude.{◌≡◌, ◌<◌, List, [], ◌∷◌, ◌++◌};
ghost use Rattle.pywr.specs.ExclusiveSets.{sets_with_node};
ghost use Rattle.pywr.specs.Rows.{column_map, node_row};
ghost use Rattle.pywr.specs.FixedRows.{exclusive_rows, constant_rows_from};
ghost use Rattle.pywr.specs.Programme.{Row, Maker};
ghost use Rattle.pywr.specs.Makers.{constant_makers};
ghost use Rattle.network_node.specs.Node.{node_at, node_place};
ghost use Rattle.build_append.specs.LpBuilder.{RowsHeld, Holding, AfterRows, filled_then, SameRuns};
ghost use Rattle.build_makers.specs.MadeRows.{MadeHeld, MadeHolding, AfterMade};
ghost use Rattle.build_node_row.specs.Tables.{network_of, TablesHold, MembershipTables};
ghost use Rattle.build_node_row.specs.EdgeColumns.{edge_columns_of};
ghost use Rattle.layout.specs.WorkRoom.{WorkRoom};

use build_append::LpBuilder;
use build_exclusive_sets::{Memberships, ProgrammeFull};
use build_makers::MakerKind;
use build_node_row::EdgeTables;
use layout::{ELEMENTS_MADE_AT, SET_SIZE_CEILING, SHAPE_MADE_AT};
use pywr::{Interval, NodeIndex};

// A constant node's row, with its min and max as bounds, becomes the last row.
fn add_node_row(
    tables: &EdgeTables<'_>,
    node: NodeIndex,
    lp: &mut LpBuilder<'_>,
) -> Result<(), ProgrammeFull>
    requires { TablesHold tables.now × (node.0 < tables.now.counts.nodes)
        × WorkRoom lp.old.words.now lp.old.numbers.now × Holding lp.old.words.now lp.old.numbers.now lp.old.filled }
    ensures rows { (rows : List Row) → RowsHeld rows lp.old.words.now lp.old.numbers.now lp.old.filled
        → AfterRows (rows ++ (record {
          lower = (node_at tables.now.file.now (node_place node.0)).min;
          upper = (node_at tables.now.file.now (node_place node.0)).max;
          elements = node_row (column_map (network_of tables.now.file.now tables.now.counts)) node.0;
        } ∷ []))
        lp.old.words.now (filled_then result lp.new.filled) lp.new.words.now lp.new.numbers.now }
    ensures same { SameRuns lp.old lp.new }
{
    let at = ELEMENTS_MADE_AT + lp.filled.elements;
    let n = build_node_row::add_node(tables, node, 1.0, &mut lp.columns, &mut lp.numbers[at..], 0);
    let bounds = Interval {
        lower: network_node::min(tables.file, node),
        upper: network_node::max(tables.file, node),
    };
    lp.add_fixed_row(n, bounds)
}

// The rows of a constant node in the exclusive sets that list it, once for each membership: membership j is of the set numbered j / SET_SIZE_CEILING.
fn add_exclusive_rows(
    tables: &EdgeTables<'_>,
    memberships: &Memberships,
    node: NodeIndex,
    lp: &mut LpBuilder<'_>,
) -> Result<(), ProgrammeFull>
    requires { TablesHold tables.now × (node.0 < tables.now.counts.nodes)
        × (tables.now.edge_columns ≡ edge_columns_of tables.now.file.now tables.now.counts) × MembershipTables tables.now.file.now tables.now.counts memberships.now
        × WorkRoom lp.old.words.now lp.old.numbers.now × Holding lp.old.words.now lp.old.numbers.now lp.old.filled }
    ensures rows { (rows : List Row) → RowsHeld rows lp.old.words.now lp.old.numbers.now lp.old.filled
        → AfterRows (rows ++ exclusive_rows lp.old.sentinel (column_map (network_of tables.now.file.now tables.now.counts)) node.0 (node_at tables.now.file.now (node_place node.0))
        (sets_with_node node.0 0 (column_map (network_of tables.now.file.now tables.now.counts)).sets))
        lp.old.words.now (filled_then result lp.new.filled) lp.new.words.now lp.new.numbers.now }
    ensures same { SameRuns lp.old lp.new }
{
    let mut link = usize::from(memberships.first[usize::from(node.0)]);
    while link != 0 {
        let membership = link - 1;
        let set = membership / SET_SIZE_CEILING;
        build_set_rows::add_bounded_rows(tables, node, set, lp)?;
        link = usize::from(memberships.next[membership]);
    }
    Ok(())
}

// The rows of a constant node; a varying one has none here.
fn add_constant_rows(
    tables: &EdgeTables<'_>,
    memberships: &Memberships,
    node: NodeIndex,
    lp: &mut LpBuilder<'_>,
) -> Result<(), ProgrammeFull>
    requires { TablesHold tables.now × (node.0 < tables.now.counts.nodes)
        × (tables.now.edge_columns ≡ edge_columns_of tables.now.file.now tables.now.counts) × MembershipTables tables.now.file.now tables.now.counts memberships.now
        × WorkRoom lp.old.words.now lp.old.numbers.now × Holding lp.old.words.now lp.old.numbers.now lp.old.filled }
    ensures rows { (rows : List Row) → RowsHeld rows lp.old.words.now lp.old.numbers.now lp.old.filled
        → AfterRows (rows ++ constant_rows_from lp.old.sentinel (column_map (network_of tables.now.file.now tables.now.counts)) node.0 (node_at tables.now.file.now (node_place node.0) ∷ []))
        lp.old.words.now (filled_then result lp.new.filled) lp.new.words.now lp.new.numbers.now }
    ensures same { SameRuns lp.old lp.new }
{
    if !network_node::is_constant(tables.file, node) {
        return Ok(());
    }
    if memberships.first[usize::from(node.0)] == 0 {
        return add_node_row(tables, node, lp);
    }
    add_exclusive_rows(tables, memberships, node, lp)
}

// The rows of all constant nodes, in node order.
pub fn create_constant_constraints(
    tables: &EdgeTables<'_>,
    memberships: &Memberships,
    lp: &mut LpBuilder<'_>,
) -> Result<(), ProgrammeFull>
    requires { TablesHold tables.now
        × (tables.now.edge_columns ≡ edge_columns_of tables.now.file.now tables.now.counts) × MembershipTables tables.now.file.now tables.now.counts memberships.now
        × WorkRoom lp.old.words.now lp.old.numbers.now × MadeHolding lp.old.words.now lp.old.numbers.now lp.old.filled }
    ensures rows { (rows : List Row) (makers : List Maker) → MadeHeld rows makers lp.old.words.now lp.old.numbers.now lp.old.filled
        → AfterMade (rows ++ constant_rows_from lp.old.sentinel (column_map (network_of tables.now.file.now tables.now.counts)) 0 (network_of tables.now.file.now tables.now.counts).nodes)
        (makers ++ constant_makers lp.old.sentinel (column_map (network_of tables.now.file.now tables.now.counts)) 0 (network_of tables.now.file.now tables.now.counts).nodes)
        lp.old.words.now (filled_then result lp.new.filled) lp.new.words.now lp.new.numbers.now }
    ensures same { SameRuns lp.old lp.new }
{
    for i in 0..tables.counts.nodes {
        let index = i as u16;
        let before = lp.filled.rows;
        add_constant_rows(tables, memberships, NodeIndex(index), lp)?;
        let shape = &mut lp.words[SHAPE_MADE_AT..];
        build_makers::put_makers(shape, before, lp.filled.rows, MakerKind::Node, index, 1);
    }
    Ok(())
}
