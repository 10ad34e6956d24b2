// A programme in the work runs of a build: all rows with their makers, the tables of nodes and edges, the counts, the flow order.
#![tactic(auto)]

ghost use Rattle.std.specs.Prelude.{◌≡◌, ℕ, [], ◌<◌, ◌≤◌, length, get_or};
ghost use Rattle.layout.specs.Layout.{words_length};
ghost use Rattle.network_edge.specs.Edge.{edge_place};
ghost use Rattle.build_node_row.specs.EdgeColumns.{edge_columns_of};
ghost use Rattle.build_node_row.specs.Tables.{network_of, TablesHold, SetTables};
ghost use Rattle.build_append.specs.LpBuilder.{RowsHeld, SameRuns};
ghost use Rattle.build_write.specs.Lp.{Few};
ghost use Rattle.pywr.specs.FlowOrder.{flow_order};
ghost use Rattle.build_rows.specs.Assembled.{AfterAssemble, tables_written, shape_finished};
ghost use Rattle.layout.specs.WorkRoom.{WorkRoom};

use build_append::{Filled, LpBuilder};
use build_exclusive_sets::{ExclusiveSets, Memberships};
use build_node_row::EdgeTables;
use build_write::Sizes;
use layout::{COLUMN_CEILING, EDGE_CEILING, SHAPE_MADE_AT};
use pywr::{Refusal, Sentinel};

// The tables of nodes and edges, and the counts.
fn write_tables(
    s: &[u8],
    sentinel: Sentinel,
    edge_to_col: &[u16; EDGE_CEILING],
    z: Sizes,
    varying: usize,
    words: &mut [u16],
)
    requires { Few z × (edge_place z.nodes z.edges ≤ length s.now) × (words_length ≤ length words.old) × (varying ≤ z.rows)
        × ((e : ℕ) → e < z.edges → 1 ≤ get_or edge_to_col.now e 0) }
    ensures { words.new ≡ tables_written sentinel s.now edge_to_col.now z varying words.old }
{
    let nodes = z.nodes;
    let edges = z.edges;
    build_shape::write_nodes(s, nodes, &mut words[SHAPE_MADE_AT..]);
    build_shape::write_edges(s, nodes, edges, edge_to_col, &mut words[SHAPE_MADE_AT..]);
    build_shape::write_counts(&mut words[SHAPE_MADE_AT..], sentinel, z, varying);
}

// These, and the edges' numbers in flow order.
fn finish_shape(
    tables: &EdgeTables<'_>,
    sentinel: Sentinel,
    z: Sizes,
    varying: usize,
    words: &mut [u16],
)
    requires { TablesHold tables.now
        × Few z × (z.nodes ≡ tables.now.counts.nodes) × (z.edges ≡ tables.now.counts.edges) × (varying ≤ z.rows) × (words_length ≤ length words.old) }
    ensures { words.new ≡ shape_finished sentinel tables.now.file.now tables.now.edge_to_col z varying (flow_order (network_of tables.now.file.now tables.now.counts)) words.old }
{
    write_tables(
        tables.file,
        sentinel,
        &tables.edge_to_col,
        z,
        varying,
        words,
    );
    build_flow_order::write_flow_order(
        tables.file,
        tables.counts.nodes,
        tables.counts.edges,
        &tables.incoming,
        &tables.outgoing,
        &mut words[SHAPE_MADE_AT..],
    );
}

// All rows with their makers, added to a builder that has none, then the tables of nodes and edges, the counts and the flow order.
fn add_all_rows(
    tables: &EdgeTables<'_>,
    sets: &ExclusiveSets,
    memberships: &Memberships,
    lp: &mut LpBuilder<'_>,
) -> Result<Sizes, Refusal>
    requires { TablesHold tables.now
        × SetTables tables.now.file.now tables.now.counts sets.now.at sets.now.count memberships.now × (tables.now.edge_columns ≡ edge_columns_of tables.now.file.now tables.now.counts)
        × WorkRoom lp.old.words.now lp.old.numbers.now × RowsHeld [] lp.old.words.now lp.old.numbers.now lp.old.filled }
    ensures assembled { AfterAssemble lp.old.sentinel tables.now.file.now result lp.new.words.now lp.new.numbers.now }
    ensures same { SameRuns lp.old lp.new }
{
    let node_rows = build_varying::add_varying_rows(tables, memberships, lp)?;
    let varying = lp.filled.rows;
    build_sharers::put_varying_makers(
        &mut lp.words[SHAPE_MADE_AT..],
        varying,
        node_rows,
        tables.counts.aggregates,
        tables.counts.virtual_storages,
    );
    build_fixed::add_fixed_rows(tables, sets, memberships, lp)?;
    let z = Sizes {
        nodes: tables.counts.nodes,
        edges: tables.counts.edges,
        edge_columns: tables.edge_columns,
        sets: sets.count,
        rows: lp.filled.rows,
        elements: lp.filled.elements,
        node_rows,
        aggregates: tables.counts.aggregates,
        virtual_storages: tables.counts.virtual_storages,
    };
    finish_shape(tables, lp.sentinel, z, varying, lp.words);
    Ok(z)
}

// The same in lent work runs.
pub fn add_rows(
    tables: &EdgeTables<'_>,
    sets: &ExclusiveSets,
    memberships: &Memberships,
    sentinel: Sentinel,
    words: &mut [u16],
    numbers: &mut [f64],
) -> Result<Sizes, Refusal>
    requires { TablesHold tables.now
        × SetTables tables.now.file.now tables.now.counts sets.now.at sets.now.count memberships.now × (tables.now.edge_columns ≡ edge_columns_of tables.now.file.now tables.now.counts)
        × WorkRoom words.old numbers.old }
    ensures { AfterAssemble sentinel tables.now.file.now result words.new numbers.new }
{
    build_append::start_rows(words);
    let mut lp = LpBuilder {
        words,
        numbers,
        columns: [0; COLUMN_CEILING],
        filled: Filled {
            rows: 0,
            elements: 0,
        },
        sentinel,
    };
    add_all_rows(tables, sets, memberships, &mut lp)
}
