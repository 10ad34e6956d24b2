// The costs of a step: each edge's cost added into its column, in flow order (update_edge_objectives of builder.rs, cost of edge.rs and node.rs).
#![tactic(auto)]

ghost use Rattle.std.specs.Prelude.{◌≡◌, true, ℕ, ◌≤◌, ◌<◌, length};
ghost use Rattle.std.proofs.lemmas.List.Edits.{sets};
ghost use Rattle.layout.specs.Layout.{node_ceiling, edge_ceiling, set_ceiling, column_ceiling, shape_length, edges_at, edge_width, nodes_in, edges_in, edge_columns_in, sets_in};
ghost use Rattle.layout.specs.Layout.{flow_order_at, flow_order_width};
ghost use Rattle.pywr.specs.Store.{Store, edge_count, column_count, shape_of};
ghost use Rattle.pywr.specs.Misshapen.{edge_fits, flow_order_fits, all_entries};
ghost use Rattle.pywr.specs.Costs.{outgoing_cost, incoming_cost, edge_cost, step_costs};
ghost use Rattle.step_file.specs.Decoded.{decoded, aggregate_steps_at};
ghost use Rattle.step_costs.specs.NodeCosts.{kind_in, cost_in};

use layout::{
    EDGE_COLUMN_COUNT_AT, EDGE_COUNT_AT, EDGE_TO, EDGE_WIDTH, EDGES_AT, FLOW_ORDER_AT,
    MAPPED_COLUMN, NODE_WIDTH, NODES_AT, SET_COUNT_AT,
};
use pywr::NodeIndex;
use step_fields::node_cost;

// The kinds of nodes, as the shape run has them, that give other costs than their own.
const LINK: u16 = 2;

const STORAGE: u16 = 3;

// The cost that a node gives to its edges out.
#[tactic(auto, unfolding(pywr::specs::Costs::outgoing_cost), using(crate::proofs::CostLaws::two_literal))]
fn outgoing_cost(kind: u16, cost: f64) -> f64
    ensures { result ≡ outgoing_cost kind cost }
{
    match kind {
        LINK => cost / 2.0,
        STORAGE => -cost,
        _ => cost,
    }
}

// The cost that it gives to its edges in.
#[tactic(auto, unfolding(pywr::specs::Costs::incoming_cost), using(crate::proofs::CostLaws::two_literal))]
fn incoming_cost(kind: u16, cost: f64) -> f64
    ensures { result ≡ incoming_cost kind cost }
{
    match kind {
        LINK => cost / 2.0,
        _ => cost,
    }
}

// The cost of an edge: from's outgoing plus to's incoming.
#[tactic(auto, unfolding(pywr::specs::Costs::edge_cost))]
fn edge_cost(file: &[u8], shape: &[u16], from: NodeIndex, to: NodeIndex) -> f64
    requires { (shape_length ≤ length shape.now) × (nodes_in shape.now ≤ node_ceiling) × (from.0 < nodes_in shape.now) × (to.0 < nodes_in shape.now)
        × (aggregate_steps_at (nodes_in shape.now) ≤ length file.now) }
    ensures { result ≡ edge_cost (kind_in shape.now from.0) (cost_in file.now from.0)
        (kind_in shape.now to.0) (cost_in file.now to.0) }
{
    let f = usize::from(from.0);
    let t = usize::from(to.0);
    let out = outgoing_cost(shape[NODES_AT + NODE_WIDTH * f], node_cost(file, from));
    let into = incoming_cost(shape[NODES_AT + NODE_WIDTH * t], node_cost(file, to));
    out + into
}

// The costs of every column, from the costs of a step file that was read.
pub fn update_edge_objectives(file: &[u8], shape: &[u16], col_obj_coef: &mut [f64])
    requires { (shape_length ≤ length shape.now) × (column_ceiling ≤ length col_obj_coef.old) × (nodes_in shape.now ≤ node_ceiling) × (edges_in shape.now ≤ edge_ceiling)
        × (edge_columns_in shape.now ≤ edge_ceiling) × (sets_in shape.now ≤ set_ceiling)
        × ((s : Store) → s.shape ≡ shape.now → all_entries (edge_fits s) edge_width edges_at (edge_count s) ≡ true)
        × ((s : Store) → s.shape ≡ shape.now → all_entries (flow_order_fits s) flow_order_width flow_order_at (edge_count s) ≡ true)
        × (aggregate_steps_at (nodes_in shape.now) ≤ length file.now) }
    ensures { (s : Store) (a v : ℕ) → s.shape ≡ shape.now
        → col_obj_coef.new
        ≡ sets col_obj_coef.old 0
        (step_costs (shape_of s) (column_count s) (decoded (shape_of s).nodes a v file.now).nodes) }
{
    let edges = usize::from(shape[EDGE_COUNT_AT]);
    let columns = usize::from(shape[EDGE_COLUMN_COUNT_AT]) + usize::from(shape[SET_COUNT_AT]);
    runs::fill(col_obj_coef, 0, columns, 0.0);
    for i in 0..edges {
        let e = usize::from(shape[FLOW_ORDER_AT + i]);
        let at = EDGES_AT + EDGE_WIDTH * e;
        let c = usize::from(shape[at + MAPPED_COLUMN]);
        let from = NodeIndex(shape[at]);
        let to = NodeIndex(shape[at + EDGE_TO]);
        col_obj_coef[c] += edge_cost(file, shape, from, to);
    }
}
