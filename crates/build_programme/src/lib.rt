// A network file's programme assembled in the work runs of a build (SolverBuilder::create of builder.rs).
#![tactic(auto)]

ghost use Rattle.std.specs.Prelude.{◌≡◌, ◌≤◌, length};
ghost use Rattle.layout.specs.Layout.{words_length, numbers_length};
ghost use Rattle.pywr.specs.Result.{value};
ghost use Rattle.pywr.specs.NetworkFile.{parse_network};
ghost use Rattle.network_record.specs.Counts.{SectionsOf};
ghost use Rattle.build_node_row.specs.EdgeColumns.{edge_columns_of};
ghost use Rattle.build_node_row.specs.Tables.{network_of, TablesHold};
ghost use Rattle.build_rows.specs.Assembled.{AfterAssemble};
ghost use Rattle.layout.specs.WorkRoom.{WorkRoom};

use build_exclusive_sets::Memberships;
use build_incident_edges::EdgeLists;
use build_node_row::EdgeTables;
use build_write::Sizes;
use layout::{EDGE_CEILING, MEMBERSHIP_CEILING, NODE_CEILING};
use network_edge::End;
use network_record::Counts;
use pywr::{Refusal, Sentinel};

// The distinct exclusive sets and each node's places in them, then the rows.
fn assemble_rows(
    tables: &EdgeTables<'_>,
    sentinel: Sentinel,
    words: &mut [u16],
    numbers: &mut [f64],
) -> Result<Sizes, Refusal>
    requires { TablesHold tables.now
        × (tables.now.edge_columns ≡ edge_columns_of tables.now.file.now tables.now.counts) × WorkRoom words.old numbers.old }
    ensures { AfterAssemble sentinel tables.now.file.now result words.new numbers.new }
{
    let sets = build_exclusive_sets::collect_sets(tables.file, tables.counts)?;
    let mut memberships = Memberships {
        first: [0; NODE_CEILING],
        next: [0; MEMBERSHIP_CEILING],
    };
    sets.list_members(tables.file, &mut memberships);
    build_rows::add_rows(tables, &sets, &memberships, sentinel, words, numbers)
}

// The edges of each node and the columns of the edges, then the rest.
fn assemble_columns(
    s: &[u8],
    c: Counts,
    sentinel: Sentinel,
    words: &mut [u16],
    numbers: &mut [f64],
) -> Result<Sizes, Refusal>
    requires { (parse_network s.now ≡ value (network_of s.now c)) × SectionsOf s.now c × WorkRoom words.old numbers.old }
    ensures { AfterAssemble sentinel s.now result words.new numbers.new }
{
    let mut tables = EdgeTables {
        file: s,
        counts: c,
        edge_columns: 0,
        incoming: EdgeLists {
            first: [0; NODE_CEILING],
            next: [0; EDGE_CEILING],
        },
        outgoing: EdgeLists {
            first: [0; NODE_CEILING],
            next: [0; EDGE_CEILING],
        },
        edge_to_col: [0; EDGE_CEILING],
    };
    build_incident_edges::list_edges(s, c.nodes, c.edges, End::To, &mut tables.incoming);
    build_incident_edges::list_edges(s, c.nodes, c.edges, End::From, &mut tables.outgoing);
    let map = build_col_edge_map::map_edges(
        s,
        c.nodes,
        c.edges,
        &tables.incoming,
        &tables.outgoing,
    );
    let edge_to_col = map.edge_to_col;
    tables.edge_columns = map.count;
    tables.edge_to_col = edge_to_col;
    assemble_rows(&tables, sentinel, words, numbers)
}

// The programme of a network file in the work runs, or the file's refusal, or 11.
pub fn assemble(
    s: &[u8],
    sentinel: Sentinel,
    words: &mut [u16],
    numbers: &mut [f64],
) -> Result<Sizes, Refusal>
    requires { WorkRoom words.old numbers.old }
    ensures { AfterAssemble sentinel s.now result words.new numbers.new }
{
    let c = network::load(s)?;
    assemble_columns(s, c, sentinel, words, numbers)
}
