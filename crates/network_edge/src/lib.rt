// An edge of the network file: the check of its `ED` record, and its ends by index.
#![tactic(auto)]

ghost use Rattle.std.specs.Prelude.{◌≡◌, ◌+◌, ◌*◌, ◌<◌, ◌≤◌, ◌^◌, length};
ghost use Rattle.fields.specs.Field.{NextWithin};
ghost use Rattle.network_node.specs.Node.{node_length, node_place};
ghost use Rattle.network_edge.specs.Edge.{pair_among, wrong_way_at, check_ends, check_edge, edge_at, edge_length, edge_place, end_of};

use network_node::NodeKind;
use pywr::{EdgeIndex, NodeIndex, Reason, Refusal};

// An `ED` record: its length, and where its ends stand in it.
const EDGE_LENGTH: usize = 6;

const FROM_OFFSET: usize = 2;

const TO_OFFSET: usize = 4;

// The end that an edge comes from, or the one that it goes to.
#[derive(Clone, Copy)]
pub enum End {
    From,
    To,
}

// Where the records of `nodes` nodes and of the first `edges` edges end.
pub fn edges_end(nodes: usize, edges: usize) -> usize
    requires { edge_place nodes edges < 2 ^ 64 }
    ensures { result ≡ edge_place nodes edges }
{
    network_node::nodes_end(nodes) + EDGE_LENGTH * edges
}

// Whether one of the `count` edges from `start` has these ends. An edge's two ends are compared as one number.
fn pair_among(s: &[u8], count: usize, start: usize, from: NodeIndex, to: NodeIndex) -> bool
    requires { start + edge_length * count ≤ length s.now }
    ensures { result ≡ pair_among s.now count start from.0 to.0 }
{
    let pair = u32::from(from.0) + 65536 * u32::from(to.0);
    for i in 0..count {
        if fields::u32_at(s, start + EDGE_LENGTH * i + FROM_OFFSET) == pair {
            return true;
        }
    }
    false
}

// 5 of an edge whose ends are nodes: into an input, or out of an output.
#[tactic(auto, unfolding(crate::specs::Edge::wrong_way_at, network_node::specs::Node::node_kind))]
fn wrong_way(s: &[u8], from: NodeIndex, to: NodeIndex) -> bool
    requires { (node_place from.0 + node_length ≤ length s.now) × (node_place to.0 + node_length ≤ length s.now) }
    ensures { result ≡ wrong_way_at s.now from.0 to.0 }
{
    network_node::kind(s, to) == NodeKind::Input || network_node::kind(s, from) == NodeKind::Output
}

// 5, 19 and 20 of an edge whose ends are nodes, behind `nodes` nodes and `edges` edges. Their place is the `from` field of its record at `at`.
#[tactic(auto, unfolding(crate::specs::Edge::check_ends))]
fn check_ends(
    s: &[u8],
    nodes: usize,
    edges: usize,
    at: usize,
    from: NodeIndex,
    to: NodeIndex,
) -> Result<usize, Refusal>
    requires { (at + edge_length ≤ length s.now) × (edge_place nodes edges ≤ length s.now) × (from.0 < nodes) × (to.0 < nodes) × (nodes ≤ 65536) }
    ensures { (result ≡ check_ends s.now nodes edges at from.0 to.0) × NextWithin result (length s.now) }
{
    let place = at + FROM_OFFSET;
    if wrong_way(s, from, to) {
        return Err(Reason::WrongEnd.at(place));
    }
    if from.0 == to.0 {
        return Err(Reason::EdgeToItself.at(place));
    }
    if pair_among(s, edges, network_node::nodes_end(nodes), from, to) {
        return Err(Reason::RepeatedEdge.at(place));
    }
    Ok(at + EDGE_LENGTH)
}

// The edge whose record stands at `at`, behind `nodes` nodes and `edges` edges: where the next record starts.
#[tactic(auto, using(fields::proofs::RecordLaws::checked_in_turn), unfolding(crate::specs::Edge::check_edge))]
pub fn check_edge(s: &[u8], nodes: usize, edges: usize, at: usize) -> Result<usize, Refusal>
    requires { (at + 2 ≤ length s.now) × (edge_place nodes edges ≤ length s.now) × (nodes ≤ 65536) }
    ensures { (result ≡ check_edge s.now nodes edges at) × NextWithin result (length s.now) }
{
    let from = fields::node_field(s, at, at + FROM_OFFSET, nodes)?;
    let to = fields::node_field(s, at, at + TO_OFFSET, nodes)?;
    check_ends(
        s,
        nodes,
        edges,
        at,
        NodeIndex(from as u16),
        NodeIndex(to as u16),
    )
}

// The node that edge j comes from, of a network with `nodes` nodes.
pub fn from_node_index(s: &[u8], nodes: usize, j: EdgeIndex) -> NodeIndex
    requires { edge_place nodes j.0 + edge_length ≤ length s.now }
    ensures { result.0 ≡ (edge_at s.now (edge_place nodes j.0)).from }
{
    NodeIndex(fields::u16_at(s, edges_end(nodes, usize::from(j.0)) + FROM_OFFSET))
}

// The node that it goes to.
pub fn to_node_index(s: &[u8], nodes: usize, j: EdgeIndex) -> NodeIndex
    requires { edge_place nodes j.0 + edge_length ≤ length s.now }
    ensures { result.0 ≡ (edge_at s.now (edge_place nodes j.0)).to }
{
    NodeIndex(fields::u16_at(s, edges_end(nodes, usize::from(j.0)) + TO_OFFSET))
}

// The node at an end of it.
pub fn end_node(s: &[u8], nodes: usize, j: EdgeIndex, end: End) -> NodeIndex
    requires { edge_place nodes j.0 + edge_length ≤ length s.now }
    ensures { result.0 ≡ end_of end (edge_at s.now (edge_place nodes j.0)) }
{
    match end {
        End::From => from_node_index(s, nodes, j),
        End::To => to_node_index(s, nodes, j),
    }
}
