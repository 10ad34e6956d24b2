// Refusals 7 to 10: what is asked of a network once its records are all accepted.
#![tactic(auto)]

ghost use Rattle.std.specs.Prelude.{◌≡◌, true, false, not, ◌&&◌, ◌||◌, map, ℕ, ◌+◌, ◌<◌, ◌≤◌, length, get_or, eqb, replicate};
ghost use Rattle.std.specs.Float.{inf};
ghost use Rattle.std.specs.Float.Ieee.{lt, eq};
ghost use Rattle.layout.specs.Layout.{node_ceiling, edge_ceiling};
ghost use Rattle.pywr.specs.Network.{link, source, target, incoming, outgoing, is_exclusive};
ghost use Rattle.pywr.specs.Result.{first_refused};
ghost use Rattle.pywr.specs.NetworkFile.{is_empty, unconnected_link, bad_constant, check_network};
ghost use Rattle.fields.specs.Records.{records_at, records_end};
ghost use Rattle.network_node.specs.Node.{node_at, node_length, node_place};
ghost use Rattle.network_edge.specs.Edge.{edge_place};
ghost use Rattle.network_aggregate.specs.AggregatedNode.{aggregate_set_at, aggregate_at, aggregate_end};
ghost use Rattle.network_laws.specs.NetworkAt.{node_records, edge_records};
ghost use Rattle.network_laws.specs.Passed.{NodePassed, EdgePassed, SetPassed, AggregatePassed};
ghost use Rattle.network_record.specs.Counts.{network_of, SectionsOf};
ghost use Rattle.network_checks.specs.Marks.{mark_all, mark_sets, mark_exclusive, MarkedBy};
ghost use Rattle.network_checks.specs.Refusal.{found_by, result_with};

use layout::NODE_CEILING;
use network_node::NodeKind;
use network_record::Counts;
use pywr::{Answer, EdgeIndex, NodeIndex, Reason};

// Of each node, whether an edge goes to it, and whether one comes from it.
#[derive(Drop)]
struct Linked {
    into: [bool; NODE_CEILING],
    out: [bool; NODE_CEILING],
}

// Marks the nodes that the e edges go to, and those that they come from.
#[tactic(auto, using(crate::proofs::MarkLoops::marking), unfolding(crate::specs::Marks::mark_all))]
fn mark_ends(s: &[u8], n: usize, e: usize) -> Linked
    requires { (n ≤ node_ceiling) × (e ≤ edge_ceiling) × ((j : ℕ) → j < e → EdgePassed s.now n (edge_place n j)) }
    ensures { (result.into ≡ mark_all (map target (edge_records s.now n e)) (replicate node_ceiling false))
        × (result.out ≡ mark_all (map source (edge_records s.now n e)) (replicate node_ceiling false)) }
{
    let mut into = [false; NODE_CEILING];
    let mut out = [false; NODE_CEILING];
    for j in 0..e {
        let edge = EdgeIndex(j as u16);
        into[usize::from(network_edge::to_node_index(s, n, edge).0)] = true;
        out[usize::from(network_edge::from_node_index(s, n, edge).0)] = true;
    }
    Linked { into, out }
}

// 8 of node i: a link that no edge goes to, or that none comes from.
#[tactic(auto, unfolding(network_node::specs::Node::node_kind))]
fn is_unconnected(s: &[u8], i: NodeIndex, linked: &Linked) -> bool
    requires { (i.0 < node_ceiling) × (node_place i.0 + node_length ≤ length s.now) }
    ensures { result ≡ (eqb (node_at s.now (node_place i.0)).kind link && (not (get_or linked.now.into i.0 false) || not (get_or linked.now.out i.0 false))) }
{
    let k = usize::from(i.0);
    network_node::kind(s, i) == NodeKind::Link && (!linked.into[k] || !linked.out[k])
}

// The first node that 8 refuses.
#[tactic(auto, using(crate::proofs::Links::link_turns))]
fn first_unconnected(s: &[u8], c: Counts, linked: &Linked) -> Answer
    requires { (c.nodes ≤ node_ceiling) × (node_place c.nodes ≤ length s.now)
        × MarkedBy (λ i. not (is_empty (incoming (network_of s.now c) i))) c.nodes linked.now.into
        × MarkedBy (λ i. not (is_empty (outgoing (network_of s.now c) i))) c.nodes linked.now.out }
    ensures { found_by result ≡ first_refused (unconnected_link (network_of s.now c)) 0 (node_records s.now c.nodes) }
{
    for i in 0..c.nodes {
        if is_unconnected(s, NodeIndex(i as u16), linked) {
            return Err(Reason::UnconnectedLink.at(i));
        }
    }
    Ok(())
}

// 8 by node.
fn check_links(s: &[u8], c: Counts) -> Answer
    requires { SectionsOf s.now c }
    ensures { found_by result ≡ first_refused (unconnected_link (network_of s.now c)) 0 (node_records s.now c.nodes) }
{
    first_unconnected(s, c, &mark_ends(s, c.nodes, c.edges))
}

// Marks the nodes of the set at `at`.
#[tactic(auto, using(crate::proofs::MarkLoops::marking), unfolding(crate::specs::Marks::mark_all))]
fn mark_set(s: &[u8], at: usize, marks: &mut [bool; NODE_CEILING])
    requires { SetPassed s.now node_ceiling at }
    ensures { marks.new ≡ mark_all (aggregate_set_at s.now at) marks.old }
{
    let size = network_aggregate::set_size(s, at);
    for k in 0..size {
        marks[usize::from(network_aggregate::member(s, at, k).0)] = true;
    }
}

// Marks the nodes of every set of the aggregate at `at`, and answers where the aggregate ends.
#[tactic(auto, using(crate::proofs::MarkLoops::marking), unfolding(crate::specs::Marks::mark_sets))]
fn mark_sets(s: &[u8], at: usize, marks: &mut [bool; NODE_CEILING]) -> usize
    requires { AggregatePassed s.now node_ceiling at }
    ensures { (result ≡ aggregate_end s.now at) × (marks.new ≡ mark_sets (aggregate_at s.now at).sets marks.old) }
{
    let count = network_aggregate::set_count(s, at);
    let mut here = network_aggregate::sets_at(at);
    for _ in 0..count {
        mark_set(s, here, marks);
        here = network_aggregate::set_end(s, here);
    }
    here
}

// Marks the nodes that an exclusive aggregate lists; the a aggregates start at `start`.
#[tactic(auto, using(crate::proofs::MarkLoops::marking), unfolding(crate::specs::Marks::mark_exclusive))]
fn mark_exclusive(s: &[u8], start: usize, a: usize, marks: &mut [bool; NODE_CEILING])
    requires { (start ≤ length s.now) × ((k : ℕ) → k < a → AggregatePassed s.now node_ceiling (records_end (aggregate_end s.now) k start)) }
    ensures { marks.new ≡ mark_exclusive (records_at (aggregate_at s.now) (aggregate_end s.now) a start) marks.old }
{
    let mut at = start;
    for _ in 0..a {
        if network_aggregate::is_exclusive(s, at) {
            at = mark_sets(s, at, marks);
        } else {
            at = network_aggregate::aggregate_end(s, at);
        }
    }
}

// 9 of node i: a constant's min over its max.
fn is_crossed(s: &[u8], i: NodeIndex) -> bool
    requires { NodePassed s.now (node_place i.0) }
    ensures { result ≡ ((node_at s.now (node_place i.0)).constant && lt (node_at s.now (node_place i.0)).max (node_at s.now (node_place i.0)).min) }
{
    network_node::is_constant(s, i) && network_node::max(s, i) < network_node::min(s, i)
}

// 10 of node i: an exclusive constant's max −infinity or min +infinity.
fn is_unbounded(s: &[u8], i: NodeIndex, exclusive: &[bool; NODE_CEILING]) -> bool
    requires { (i.0 < node_ceiling) × NodePassed s.now (node_place i.0) }
    ensures { result ≡ ((node_at s.now (node_place i.0)).constant && get_or exclusive.now i.0 false
        && (eq (node_at s.now (node_place i.0)).max (inf true) || eq (node_at s.now (node_place i.0)).min (inf false))) }
{
    network_node::is_constant(s, i)
        && exclusive[usize::from(i.0)]
        && (network_node::max(s, i) == f64::NEG_INFINITY
            || network_node::min(s, i) == f64::INFINITY)
}

// The first node that 9 or 10 refuses.
#[tactic(auto, using(crate::proofs::Constants::constant_turns))]
fn first_bad_constant(s: &[u8], c: Counts, exclusive: &[bool; NODE_CEILING]) -> Answer
    requires { (c.nodes ≤ node_ceiling) × ((i : ℕ) → i < c.nodes → NodePassed s.now (node_place i))
        × MarkedBy (is_exclusive (network_of s.now c).aggregates) c.nodes exclusive.now }
    ensures { found_by result ≡ first_refused (bad_constant (network_of s.now c)) 0 (node_records s.now c.nodes) }
{
    for i in 0..c.nodes {
        let node = NodeIndex(i as u16);
        if is_crossed(s, node) {
            return Err(Reason::CrossedConstant.at(i));
        }
        if is_unbounded(s, node, exclusive) {
            return Err(Reason::UnboundedConstant.at(i));
        }
    }
    Ok(())
}

// By node 9, then 10.
fn check_constants(s: &[u8], c: Counts) -> Answer
    requires { SectionsOf s.now c }
    ensures { found_by result ≡ first_refused (bad_constant (network_of s.now c)) 0 (node_records s.now c.nodes) }
{
    let mut exclusive = [false; NODE_CEILING];
    mark_exclusive(
        s,
        network_edge::edges_end(c.nodes, c.edges),
        c.aggregates,
        &mut exclusive,
    );
    first_bad_constant(s, c, &exclusive)
}

// 7, 8, then by node 9 and 10, of a file whose records were all accepted.
#[tactic(auto, using(crate::proofs::Checks::checked), unfolding(network_laws::specs::NetworkAt::network_at))]
pub fn check_network(s: &[u8], c: Counts) -> Answer
    requires { SectionsOf s.now c }
    ensures { check_network (network_of s.now c) ≡ result_with (network_of s.now c) result }
{
    if c.edges == 0 {
        return Err(Reason::NoEdges.at(0));
    }
    check_links(s, c)?;
    check_constants(s, c)
}
