// The columns of the edges: edges that a link with one edge in and one out joins share a column.
#![tactic(auto)]

ghost use Rattle.std.specs.Prelude.{◌≡◌, ℕ, suc, ◌+◌, ◌<◌, ◌≤◌, List, length, get_or};
ghost use Rattle.layout.specs.Layout.{node_ceiling, edge_ceiling};
ghost use Rattle.pywr.specs.Bytes.{byte, le16};
ghost use Rattle.pywr.specs.Network.{source, target};
ghost use Rattle.pywr.specs.ColEdgeMap.{Columns, columns, column_at, add_simple_edge, united, unite_under, unite, add_equal_edges};
ghost use Rattle.network_laws.specs.NetworkAt.{network_at};
ghost use Rattle.laws.specs.Linked.{Linked};
ghost use Rattle.network_node.specs.Node.{node_length, kind_offset, node_place};
ghost use Rattle.network_edge.specs.Edge.{from_offset, edge_place};
ghost use Rattle.build_incident_edges.specs.IncidentEdges.{EdgesListed};
ghost use Rattle.build_col_edge_map.specs.Mapped.{code, number_of, Mapped, only, shares_across};

use build_incident_edges::EdgeLists;
use layout::EDGE_CEILING;
use network_node::NodeKind;
use pywr::{EdgeIndex, NodeIndex};

// What a number of the table becomes when the columns numbered `low` and `high` there unite; 0, no column, stays.
#[tactic(auto, unfolding(pywr::specs::ColEdgeMap::united))]
fn united(low: u16, high: u16, column: u16) -> u16
    ensures { result ≡ united low high column }
{
    if column == high {
        return low;
    }
    if high < column {
        return column - 1;
    }
    column
}

// Each edge's column plus 1, or 0 if it has none yet, and how many columns there are (ColEdgeMap of col_edge_map.rs).
#[derive(Drop)]
pub struct ColEdgeMap {
    pub edge_to_col: [u16; EDGE_CEILING],
    pub count: usize,
}

impl ColEdgeMap {
    // The edge takes a new column unless it has one.
    pub fn add_simple_edge(&mut self, edge: EdgeIndex)
        requires { (edge.0 < edge_ceiling) × (self.old.count < edge_ceiling) }
        ensures { (self.new.count ≤ self.old.count + 1) × ((c : Columns) → Mapped c self.old.edge_to_col self.old.count → edge.0 < length c.of
            → Mapped (add_simple_edge (column_at c edge.0) edge.0 c) self.new.edge_to_col self.new.count) }
    {
        let e = usize::from(edge.0);
        if self.edge_to_col[e] == 0 {
            self.count += 1;
            self.edge_to_col[e] = self.count as u16;
        }
    }

    // The columns numbered `low` and `high` in the table unite under `low`, and later numbers close up.
    fn unite_under(&mut self, edges: usize, low: u16, high: u16)
        requires { (edges ≤ edge_ceiling) × (1 ≤ self.old.count) }
        ensures { (self.new.count ≤ self.old.count) × ((c : Columns) (a b : ℕ) → Mapped c self.old.edge_to_col self.old.count → length c.of ≡ edges → low ≡ suc a → high ≡ suc b
            → Mapped (unite_under a b c) self.new.edge_to_col self.new.count) }
    {
        for e in 0..edges {
            self.edge_to_col[e] = united(low, high, self.edge_to_col[e]);
        }
        self.count -= 1;
    }

    // Two columns unite, unless they are one already.
    fn unite(&mut self, edges: usize, column: u16, other: u16)
        requires { (edges ≤ edge_ceiling) × (1 ≤ self.old.count) }
        ensures { (self.new.count ≤ self.old.count) × ((c : Columns) (a b : ℕ) → Mapped c self.old.edge_to_col self.old.count → length c.of ≡ edges → column ≡ suc a → other ≡ suc b
            → Mapped (unite a b c) self.new.edge_to_col self.new.count) }
    {
        if column < other {
            self.unite_under(edges, column, other);
        } else if other < column {
            self.unite_under(edges, other, column);
        }
    }

    // The edge and the edge before it share a column; where both have one, the two unite.
    pub fn add_equal_edges(&mut self, edges: usize, edge: EdgeIndex, before: EdgeIndex)
        requires { (edge.0 < edges) × (before.0 < edges) × (edges ≤ edge_ceiling) × (self.old.count < edge_ceiling)
            × (get_or self.old.edge_to_col edge.0 0 ≤ self.old.count) }
        ensures { (self.new.count ≤ self.old.count + 1) × ((c : Columns) → Mapped c self.old.edge_to_col self.old.count → length c.of ≡ edges
            → Mapped (add_equal_edges (column_at c edge.0) (column_at c before.0) edge.0 before.0 c) self.new.edge_to_col self.new.count) }
    {
        let e = usize::from(edge.0);
        let b = usize::from(before.0);
        let column = self.edge_to_col[e];
        let other = self.edge_to_col[b];
        if column == 0 {
            if other == 0 {
                self.count += 1;
                self.edge_to_col[e] = self.count as u16;
                self.edge_to_col[b] = self.count as u16;
            } else {
                self.edge_to_col[e] = other;
            }
        } else if other == 0 {
            self.edge_to_col[b] = column;
        } else {
            self.unite(edges, column, other);
        }
    }
}

// The one edge of a node's list, if it has no other.
fn only_edge(lists: &EdgeLists, node: NodeIndex) -> Option<EdgeIndex>
    requires { (node.0 < node_ceiling) × (get_or lists.now.first node.0 0 ≤ edge_ceiling) }
    ensures { (size : ℕ) (js : List ℕ) → Linked size lists.now.next (get_or lists.now.first node.0 0) js → number_of result ≡ code (only js) }
{
    let entry = lists.first[usize::from(node.0)];
    if entry == 0 {
        return None;
    }
    let edge = EdgeIndex(entry - 1);
    if lists.next[usize::from(edge.0)] != 0 {
        return None;
    }
    Some(edge)
}

// The incoming edge whose column an edge leaving `from` shares: that of a link with one edge in and one out.
pub fn shares_with(
    s: &[u8],
    incoming: &EdgeLists,
    outgoing: &EdgeLists,
    from: NodeIndex,
) -> Option<EdgeIndex>
    requires { (from.0 < node_ceiling) × (node_place from.0 + node_length ≤ length s.now) × (get_or incoming.now.first from.0 0 ≤ edge_ceiling)
        × (get_or outgoing.now.first from.0 0 ≤ edge_ceiling) }
    ensures { (size : ℕ) (into out : List ℕ) → Linked size incoming.now.next (get_or incoming.now.first from.0 0) into
        → Linked size outgoing.now.next (get_or outgoing.now.first from.0 0) out
        → number_of result ≡ code (shares_across (byte s.now (node_place from.0 + kind_offset)) into out) }
{
    match network_node::kind(s, from) {
        NodeKind::Link => {
            only_edge(outgoing, from)?;
            only_edge(incoming, from)
        }
        _ => None,
    }
}

// The columns of the edges, in index order.
pub fn map_edges(
    s: &[u8],
    nodes: usize,
    edges: usize,
    incoming: &EdgeLists,
    outgoing: &EdgeLists,
) -> ColEdgeMap
    requires { (nodes ≤ node_ceiling) × (edges ≤ edge_ceiling) × (edge_place nodes edges ≤ length s.now)
        × ((e : ℕ) → e < edges → le16 s.now (edge_place nodes e + from_offset) < nodes)
        × EdgesListed target s.now nodes edges incoming.now × EdgesListed source s.now nodes edges outgoing.now }
    ensures { (a v : ℕ) → Mapped (columns (network_at s.now nodes edges a v)) result.edge_to_col result.count }
{
    let mut map = ColEdgeMap {
        edge_to_col: [0; EDGE_CEILING],
        count: 0,
    };
    for e in 0..edges {
        let edge = EdgeIndex(e as u16);
        let from = network_edge::from_node_index(s, nodes, edge);
        match shares_with(s, incoming, outgoing, from) {
            None => map.add_simple_edge(edge),
            Some(before) => map.add_equal_edges(edges, edge, before),
        }
    }
    map
}
