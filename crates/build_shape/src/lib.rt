// The tables of the shape run that follow from the network file and its columns. `shape` is the part of a build's work run where the shape run is made.
#![tactic(auto)]

ghost use Rattle.std.specs.Prelude.{◌≡◌, ℕ, suc, ◌<◌, ◌≤◌, length, get_or};
ghost use mathlib.Core.List.{List, [], ◌∷◌, map, flat_map};
ghost use Rattle.std.proofs.lemmas.List.Edits.{sets};
ghost use Rattle.layout.specs.Layout.{node_ceiling, edge_ceiling, shape_length, sentinel_at, nodes_at, edges_at};
ghost use Rattle.pywr.specs.Build.{node_shape};
ghost use Rattle.pywr.specs.Written.{sentinel_word, node_words, edge_words};
ghost use Rattle.network_node.specs.Node.{node_place};
ghost use Rattle.network_edge.specs.Edge.{edge_place};
ghost use Rattle.build_write.specs.Lp.{Few};
ghost use Rattle.network_laws.specs.NetworkAt.{node_records};
ghost use Rattle.build_shape.specs.ShapeTables.{edge_entries, counts};

use build_write::Sizes;
use layout::{
    AGGREGATE_COUNT_AT, EDGE_CEILING, EDGE_COLUMN_COUNT_AT, EDGE_COUNT_AT, EDGE_TO, EDGE_WIDTH,
    EDGES_AT, ELEMENT_COUNT_AT, FIXED_COUNT_AT, MAPPED_COLUMN, NODE_COUNT_AT, NODE_FLAG,
    NODE_ROW_COUNT_AT, NODE_WIDTH, NODES_AT, SENTINEL_AT, SET_COUNT_AT, VARYING_COUNT_AT,
    VIRTUAL_STORAGE_COUNT_AT,
};
use pywr::{EdgeIndex, NodeIndex, Sentinel};

// Of each node its kind, and whether it is constant.
pub fn write_nodes(s: &[u8], nodes: usize, shape: &mut [u16])
    requires { (nodes ≤ node_ceiling) × (node_place nodes ≤ length s.now) × (shape_length ≤ length shape.old) }
    ensures { shape.new ≡ sets shape.old nodes_at (flat_map node_words (map node_shape (node_records s.now nodes))) }
{
    for i in 0..nodes {
        let n = NodeIndex(i as u16);
        let at = NODES_AT + NODE_WIDTH * i;
        shape[at] = u16::from(network_node::kind_byte(s, n));
        shape[at + NODE_FLAG] = u16::from(network_node::is_constant(s, n));
    }
}

// Of each edge the two nodes, and its column; `edge_to_col` has each edge's column plus 1.
pub fn write_edges(
    s: &[u8],
    nodes: usize,
    edges: usize,
    edge_to_col: &[u16; EDGE_CEILING],
    shape: &mut [u16],
)
    requires { (nodes ≤ node_ceiling) × (edges ≤ edge_ceiling) × (edge_place nodes edges ≤ length s.now) × (shape_length ≤ length shape.old)
        × ((e : ℕ) → e < edges → 1 ≤ get_or edge_to_col.now e 0) }
    ensures { shape.new ≡ sets shape.old edges_at (flat_map edge_words (edge_entries s.now edge_to_col.now nodes edges)) }
{
    for i in 0..edges {
        let e = EdgeIndex(i as u16);
        let at = EDGES_AT + EDGE_WIDTH * i;
        shape[at] = network_edge::from_node_index(s, nodes, e).0;
        shape[at + EDGE_TO] = network_edge::to_node_index(s, nodes, e).0;
        shape[at + MAPPED_COLUMN] = edge_to_col[i] - 1;
    }
}

fn sentinel_word(sentinel: Sentinel) -> u16
    ensures { result ≡ sentinel_word sentinel }
{
    match sentinel {
        Sentinel::Infinity => 0,
        Sentinel::Largest => 1,
    }
}

// The sentinel and the counts; `varying` of the rows vary.
pub fn write_counts(shape: &mut [u16], sentinel: Sentinel, z: Sizes, varying: usize)
    requires { (shape_length ≤ length shape.old) × Few z × (varying ≤ z.rows) }
    ensures { shape.new ≡ sets shape.old sentinel_at (counts sentinel z varying) }
{
    shape[SENTINEL_AT] = sentinel_word(sentinel);
    shape[NODE_COUNT_AT] = z.nodes as u16;
    shape[EDGE_COUNT_AT] = z.edges as u16;
    shape[EDGE_COLUMN_COUNT_AT] = z.edge_columns as u16;
    shape[SET_COUNT_AT] = z.sets as u16;
    shape[VARYING_COUNT_AT] = varying as u16;
    shape[FIXED_COUNT_AT] = (z.rows - varying) as u16;
    shape[ELEMENT_COUNT_AT] = z.elements as u16;
    shape[NODE_ROW_COUNT_AT] = z.node_rows as u16;
    shape[AGGREGATE_COUNT_AT] = z.aggregates as u16;
    shape[VIRTUAL_STORAGE_COUNT_AT] = z.virtual_storages as u16;
}
