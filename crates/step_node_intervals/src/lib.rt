// The nodes' intervals of a step, written into the lent work run, and refusals 14 and 21.
#![tactic(auto)]

ghost use Rattle.std.specs.Prelude.{◌≡◌, ◌+◌, ◌*◌, ◌≤◌, length};
ghost use Rattle.layout.specs.Layout.{node_ceiling, node_row_ceiling, shape_length, nodes_at, node_width, node_row_width, nodes_in, node_rows_in, step_work_length};
ghost use Rattle.pywr.specs.StepIntervals.{has_binary_row, bad_interval};
ghost use Rattle.step_record.specs.Check.{node_step_length};
ghost use Rattle.step_file.specs.Decoded.{node_step_place, aggregate_steps_at};
ghost use Rattle.step_work.specs.Written.{WrittenTo, Looked};
ghost use Rattle.step_node_intervals.specs.NodeIntervals.{node_numbered};
ghost use Rattle.step_node_intervals.specs.BinaryRows.{node_row_at, node_rows_of, binary_beyond, lesser_beyond, LeastOf};

use layout::{
    NODE_COUNT_AT, NODE_FLAG, NODE_ROW_COUNT_AT, NODE_ROW_TYPE, NODE_ROW_WIDTH, NODE_ROWS_AT,
    NODE_WIDTH, NODES_AT, UPPERS_AT,
};
use pywr::{Answer, Interval, NodeBounds, NodeIndex, Reason, Sentinel};
use step_bounds::is_beyond;
use step_record::STORAGE;

// A node's interval; a constant node's is both sentinels, its min and max not read.
#[tactic(auto, using(std::proofs::lemmas::Bool::Decides::nat_tests), unfolding(crate::specs::NodeIntervals::node_numbered, step_file::specs::Decoded::node_step_at, pywr::specs::StepFile::bounds_read, pywr::specs::StepIntervals::node_interval))]
fn node_interval(
    file: &[u8],
    shape: &[u16],
    node: NodeIndex,
    days: f64,
    sentinel: Sentinel,
) -> Interval
    requires { (node_step_place node.0 + node_step_length ≤ length file.now) × (nodes_at + node_width * node.0 + node_width ≤ length shape.now) }
    ensures { result ≡ node_numbered sentinel days shape.now file.now node.0 }
{
    let k = usize::from(node.0);
    if shape[NODES_AT + NODE_WIDTH * k + NODE_FLAG] == 1 {
        return step_bounds::sentinels(sentinel);
    }
    let min = step_fields::node_min(file, node);
    let max = step_fields::node_max(file, node);
    let bounds = if shape[NODES_AT + NODE_WIDTH * k] == STORAGE {
        step_bounds::storage_bounds(min, max, step_fields::node_volume(file, node))
    } else {
        NodeBounds::Flow(min, max)
    };
    step_bounds::interval_of(days, bounds)
}

// Writes the nodes' intervals up to the first whose lower bound is over its upper, and answers how many it wrote.
fn write_node_intervals(
    file: &[u8],
    shape: &[u16],
    days: f64,
    sentinel: Sentinel,
    work: &mut [f64],
) -> usize
    requires { (shape_length ≤ length shape.now) × (step_work_length ≤ length work.old) × (nodes_in shape.now ≤ node_ceiling) × (aggregate_steps_at (nodes_in shape.now) ≤ length file.now) }
    ensures { WrittenTo (node_numbered sentinel days shape.now file.now) 0 (nodes_in shape.now) work.old result work.new }
{
    let nodes = usize::from(shape[NODE_COUNT_AT]);
    for i in 0..nodes {
        let x = node_interval(file, shape, NodeIndex(i as u16), days, sentinel);
        if step_bounds::is_crossed(x) {
            return i;
        }
        work[i] = x.lower;
        work[UPPERS_AT + i] = x.upper;
    }
    nodes
}

// The node of the node row at `at`, if it is under `first`, the row is binary and the node's interval has a bound at or beyond a
// sentinel; else `first`.
fn lesser_beyond(shape: &[u16], work: &[f64], sentinel: Sentinel, at: usize, first: usize) -> usize
    requires { (at + node_row_width ≤ length shape.now) × (step_work_length ≤ length work.now) × (first ≤ node_ceiling) }
    ensures { result ≡ lesser_beyond sentinel work.now (node_row_at shape.now at) first }
{
    let node = usize::from(shape[at]);
    if first <= node {
        return first;
    }
    if shape[at + NODE_ROW_TYPE] == 0 {
        return first;
    }
    let lower = work[node];
    let upper = work[UPPERS_AT + node];
    if is_beyond(lower, sentinel) | is_beyond(upper, sentinel) {
        return node;
    }
    first
}

// The least node under `written` that a binary node row names and whose interval has a bound at or beyond a sentinel, or `written`.
fn first_beyond(shape: &[u16], work: &[f64], sentinel: Sentinel, written: usize) -> usize
    requires { (shape_length ≤ length shape.now) × (step_work_length ≤ length work.now) × (node_rows_in shape.now ≤ node_row_ceiling) × (written ≤ node_ceiling) }
    ensures { LeastOf (binary_beyond sentinel (node_rows_of shape.now (node_rows_in shape.now)) work.now) written result }
{
    let node_rows = usize::from(shape[NODE_ROW_COUNT_AT]);
    let mut first = written;
    for i in 0..node_rows {
        let at = NODE_ROWS_AT + NODE_ROW_WIDTH * i;
        first = lesser_beyond(shape, work, sentinel, at, first);
    }
    first
}

// The nodes' intervals, and by node 14, a lower bound over its upper, then 21, a varying exclusive node's bound at or beyond a sentinel.
// 21 is looked for under the first node with 14 alone, so what is found comes before it.
pub fn find_node_intervals(
    file: &[u8],
    shape: &[u16],
    days: f64,
    sentinel: Sentinel,
    work: &mut [f64],
) -> Answer
    requires { (shape_length ≤ length shape.now) × (step_work_length ≤ length work.old) × (nodes_in shape.now ≤ node_ceiling)
        × (node_rows_in shape.now ≤ node_row_ceiling) × (aggregate_steps_at (nodes_in shape.now) ≤ length file.now) }
    ensures { Looked (bad_interval sentinel (has_binary_row (node_rows_of shape.now (node_rows_in shape.now))))
        (node_numbered sentinel days shape.now file.now) 0 (nodes_in shape.now) work.old result work.new }
{
    let nodes = usize::from(shape[NODE_COUNT_AT]);
    let written = write_node_intervals(file, shape, days, sentinel, work);
    let first = first_beyond(shape, work, sentinel, written);
    if first < written {
        return Err(Reason::BoundAtSentinel.at(first));
    }
    if written < nodes {
        return Err(Reason::CrossedBounds.at(written));
    }
    Ok(())
}
