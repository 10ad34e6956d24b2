// The incoming or outgoing edges of every node, as lists in two tables.
#![tactic(auto)]

ghost use Rattle.std.specs.Prelude.{ℕ, ◌<◌, ◌≤◌, length};
ghost use Rattle.layout.specs.Layout.{node_ceiling, edge_ceiling};
ghost use Rattle.network_edge.specs.Edge.{edge_at, edge_place, end_of};
ghost use Rattle.build_incident_edges.specs.IncidentEdges.{EdgesListed};

use layout::{EDGE_CEILING, NODE_CEILING};
use network_edge::End;
use pywr::EdgeIndex;

// The edges of each node, in linked lists: a node's first edge and an edge's next one, each plus 1, or 0 at the end of a list.
#[derive(Drop)]
pub struct EdgeLists {
    pub first: [u16; NODE_CEILING],
    pub next: [u16; EDGE_CEILING],
}

// Edge 0 up to edge `edges - 1` stand behind `nodes` nodes; the edges are listed by their `end`. The lists are lent, so that they stand on the stack once.
pub fn list_edges(s: &[u8], nodes: usize, edges: usize, end: End, lists: &mut EdgeLists)
    requires { (nodes ≤ node_ceiling) × (edges ≤ edge_ceiling) × (edge_place nodes edges ≤ length s.now)
        × ((e : ℕ) → e < edges → end_of end (edge_at s.now (edge_place nodes e)) < nodes) }
    ensures { EdgesListed (end_of end) s.now nodes edges lists.new }
{
    *lists = EdgeLists {
        first: [0; NODE_CEILING],
        next: [0; EDGE_CEILING],
    };
    for e in (0..edges).rev() {
        let node = network_edge::end_node(s, nodes, EdgeIndex(e as u16), end);
        let n = usize::from(node.0);
        lists.next[e] = lists.first[n];
        lists.first[n] = e as u16 + 1;
    }
}
