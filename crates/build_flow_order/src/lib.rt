// The edges in flow order: "Sum each column in flow order; a closed ring starts at its lowest edge." (document 02, L10)
#![tactic(auto)]

ghost use Rattle.std.specs.Prelude.{◌≡◌, ℕ, ◌+◌, ◌<◌, ◌≤◌, List, [], length};
ghost use Rattle.std.proofs.Math.Option.{some};
ghost use Rattle.std.proofs.lemmas.List.Edits.{sets};
ghost use Rattle.layout.specs.Layout.{node_ceiling, edge_ceiling, shape_length, flow_order_at};
ghost use Rattle.pywr.specs.Bytes.{le16};
ghost use Rattle.pywr.specs.Network.{source, target};
ghost use Rattle.pywr.specs.FlowOrder.{follow, paths, flow_order};
ghost use Rattle.network_laws.specs.NetworkAt.{network_at};
ghost use Rattle.network_edge.specs.Edge.{from_offset, to_offset, edge_place};
ghost use Rattle.build_incident_edges.specs.IncidentEdges.{EdgesListed};
ghost use Rattle.build_flow_order.specs.Ordered.{EdgesHeld, Ordered, Marked};

use build_incident_edges::EdgeLists;
use layout::{EDGE_CEILING, FLOW_ORDER_AT};
use pywr::EdgeIndex;

// A network file with `nodes` nodes and `edges` edges, and the edges of each node.
#[derive(Clone, Copy)]
struct Edges<'a> {
    file: &'a [u8],
    nodes: usize,
    edges: usize,
    incoming: &'a EdgeLists,
    outgoing: &'a EdgeLists,
}

// The order so far, whose edges stand in the shape run: `seen` marks them, and there are `count`.
#[derive(Drop)]
struct FlowOrder {
    seen: [bool; EDGE_CEILING],
    count: usize,
}

impl FlowOrder {
    // Edge `start` and those after it in its column go behind the order's edges, up to one that is in the order already.
    fn follow(&mut self, net: &Edges, shape: &mut [u16], start: EdgeIndex)
        requires { EdgesHeld net.now.file.now net.now.nodes net.now.edges net.now.incoming.now net.now.outgoing.now
            × (shape_length ≤ length shape.old) × Marked net.now.edges self.old.seen self.old.count × (start.0 < net.now.edges) }
        ensures { Marked net.now.edges self.new.seen self.new.count
            × ((a v : ℕ) (shape₀ order : List ℕ) → Ordered net.now.edges shape₀ order shape.old self.old.seen self.old.count
            → Ordered net.now.edges shape₀ (follow (network_at net.now.file.now net.now.nodes net.now.edges a v) net.now.edges (some start.0) order)
            shape.new self.new.seen self.new.count) }
    {
        let mut next = Some(start);
        while let Some(edge) = next {
            let e = usize::from(edge.0);
            if self.seen[e] {
                return;
            }
            shape[FLOW_ORDER_AT + self.count] = edge.0;
            self.seen[e] = true;
            self.count += 1;
            let to = network_edge::to_node_index(net.file, net.nodes, edge);
            // the edges in and out are exchanged: of a link with one edge in and one out this is the edge out
            next = build_col_edge_map::shares_with(net.file, net.outgoing, net.incoming, to);
        }
    }

    // The paths, each from its first edge: one that no edge is before in its column.
    fn follow_paths(&mut self, net: &Edges, shape: &mut [u16])
        requires { EdgesHeld net.now.file.now net.now.nodes net.now.edges net.now.incoming.now net.now.outgoing.now
            × (shape_length ≤ length shape.old) × Marked net.now.edges self.old.seen self.old.count }
        ensures { Marked net.now.edges self.new.seen self.new.count
            × ((a v : ℕ) (shape₀ : List ℕ) → Ordered net.now.edges shape₀ [] shape.old self.old.seen self.old.count
            → Ordered net.now.edges shape₀ (paths (network_at net.now.file.now net.now.nodes net.now.edges a v)) shape.new self.new.seen self.new.count) }
    {
        for e in 0..net.edges {
            let edge = EdgeIndex(e as u16);
            let from = network_edge::from_node_index(net.file, net.nodes, edge);
            let before = build_col_edge_map::shares_with(
                net.file,
                net.incoming,
                net.outgoing,
                from,
            );
            if before.is_none() {
                self.follow(net, shape, edge);
            }
        }
    }

    // Behind the paths, the edges that are left: those of the closed rings, each ring from its lowest edge.
    fn follow_rings(&mut self, net: &Edges, shape: &mut [u16])
        requires { EdgesHeld net.now.file.now net.now.nodes net.now.edges net.now.incoming.now net.now.outgoing.now
            × (shape_length ≤ length shape.old) × Marked net.now.edges self.old.seen self.old.count }
        ensures { (a v : ℕ) (shape₀ : List ℕ)
            → Ordered net.now.edges shape₀ (paths (network_at net.now.file.now net.now.nodes net.now.edges a v)) shape.old self.old.seen self.old.count
            → shape.new ≡ sets shape₀ flow_order_at (flow_order (network_at net.now.file.now net.now.nodes net.now.edges a v)) }
    {
        for start in 0..net.edges {
            let edge = EdgeIndex(start as u16);
            self.follow(net, shape, edge);
        }
    }
}

// The edges' numbers in flow order. `shape` is the part of a build's work run where the shape run is made.
pub fn write_flow_order(
    s: &[u8],
    nodes: usize,
    edges: usize,
    incoming: &EdgeLists,
    outgoing: &EdgeLists,
    shape: &mut [u16],
)
    requires { (nodes ≤ node_ceiling) × (edges ≤ edge_ceiling) × (edge_place nodes edges ≤ length s.now)
        × ((e : ℕ) → e < edges → le16 s.now (edge_place nodes e + from_offset) < nodes)
        × ((e : ℕ) → e < edges → le16 s.now (edge_place nodes e + to_offset) < nodes)
        × EdgesListed target s.now nodes edges incoming.now
        × EdgesListed source s.now nodes edges outgoing.now × (shape_length ≤ length shape.old) }
    ensures { (a v : ℕ)
        → shape.new ≡ sets shape.old flow_order_at (flow_order (network_at s.now nodes edges a v)) }
{
    let net = Edges {
        file: s,
        nodes,
        edges,
        incoming,
        outgoing,
    };
    let mut order = FlowOrder {
        seen: [false; EDGE_CEILING],
        count: 0,
    };
    order.follow_paths(&net, shape);
    order.follow_rings(&net, shape);
}
