// A node of the network file: the check of its `ND` record, and its fields by index.
#![tactic(auto)]

ghost use Rattle.std.specs.Prelude.{◌≡◌, true, ◌+◌, ◌<◌, ◌≤◌, ◌^◌, length};
ghost use Rattle.pywr.specs.Bytes.{le64};
ghost use Rattle.pywr.specs.Numbers.{is_flow};
ghost use Rattle.pywr.specs.NetworkFile.{most_constant, constant_fits};
ghost use Rattle.fields.specs.Field.{flag, NextWithin};
ghost use Rattle.network_node.specs.Node.{check_bound, check_node, node_at, node_length, min_offset, max_offset, node_place, node_kind};

use pywr::{NodeIndex, Reason, Refusal};

// An `ND` record: its length, and where its fields stand in it.
const NODE_LENGTH: usize = 20;

const KIND_OFFSET: usize = 2;

const CONSTANT_OFFSET: usize = 3;

const MIN_OFFSET: usize = 4;

const MAX_OFFSET: usize = 12;

// A node's kind, in the order of its byte.
#[derive(Clone, Copy, PartialEq, Eq)]
pub enum NodeKind {
    Input,
    Output,
    Link,
    Storage,
}

#[tactic(auto, unfolding(pywr::specs::NetworkFile::most_constant))]
fn most_constant(kind: usize) -> usize
    ensures { result ≡ most_constant kind }
{
    if kind == NodeKind::Storage as usize {
        0
    } else {
        1
    }
}

#[tactic(auto, unfolding(pywr::specs::NetworkFile::constant_fits))]
fn constant_fits(constant: bool, bits: u64) -> bool
    ensures { result ≡ constant_fits (flag constant) bits }
{
    if constant {
        fields::is_flow(bits)
    } else {
        bits == 0
    }
}

// A node's min or max, and where the bytes after it start.
#[tactic(auto, unfolding(crate::specs::Node::check_bound))]
fn check_bound(s: &[u8], place: usize, at: usize, constant: bool) -> Result<usize, Refusal>
    ensures { result ≡ check_bound s.now place at (flag constant) }
{
    if !fields::is_within(s, at, 8) {
        return Err(Reason::FileEnds.at(place));
    }
    if !constant_fits(constant, fields::u64_at(s, at)) {
        return Err(Reason::OutOfRange.at(place));
    }
    Ok(at + 8)
}

// The node whose record stands at `at`: where the next record starts.
#[tactic(auto, using(crate::proofs::BoundWithin::bounds), unfolding(crate::specs::Node::check_node))]
pub fn check_node(s: &[u8], at: usize) -> Result<usize, Refusal>
    requires { at + 2 ≤ length s.now }
    ensures { (result ≡ check_node s.now at) × NextWithin result (length s.now) }
{
    let kind = fields::byte_field(s, at, at + KIND_OFFSET, 0, 3)?;
    let constant = fields::byte_field(s, at, at + CONSTANT_OFFSET, 0, most_constant(kind))? == 1;
    check_bound(s, at, at + MIN_OFFSET, constant)?;
    check_bound(s, at, at + MAX_OFFSET, constant)?;
    Ok(at + NODE_LENGTH)
}

// Where the records of the first `nodes` nodes end.
pub fn nodes_end(nodes: usize) -> usize
    requires { node_place nodes < 2 ^ 64 }
    ensures { result ≡ node_place nodes }
{
    NODE_LENGTH * nodes
}

// The byte of node i's kind: 0 input, 1 output, 2 link, 3 storage.
pub fn kind_byte(s: &[u8], i: NodeIndex) -> u8
    requires { node_place i.0 + node_length ≤ length s.now }
    ensures { result ≡ (node_at s.now (node_place i.0)).kind }
{
    s[nodes_end(usize::from(i.0)) + KIND_OFFSET]
}

// The kind of node i.
#[tactic(auto, unfolding(crate::specs::Node::node_kind))]
pub fn kind(s: &[u8], i: NodeIndex) -> NodeKind
    requires { node_place i.0 + node_length ≤ length s.now }
    ensures { result ≡ node_kind (node_at s.now (node_place i.0)).kind }
{
    match kind_byte(s, i) {
        0 => NodeKind::Input,
        1 => NodeKind::Output,
        2 => NodeKind::Link,
        _ => NodeKind::Storage,
    }
}

pub fn is_constant(s: &[u8], i: NodeIndex) -> bool
    requires { node_place i.0 + node_length ≤ length s.now }
    ensures { result ≡ (node_at s.now (node_place i.0)).constant }
{
    s[nodes_end(usize::from(i.0)) + CONSTANT_OFFSET] == 1
}

// The min and the max of node i, whose record passed: a pattern that is no NaN's.
#[tactic(auto, unfolding(pywr::specs::Numbers::is_flow, pywr::specs::Numbers::of_pattern))]
pub fn min(s: &[u8], i: NodeIndex) -> f64
    requires { (node_place i.0 + node_length ≤ length s.now) × (is_flow (le64 s.now (node_place i.0 + min_offset)) ≡ true) }
    ensures { result ≡ (node_at s.now (node_place i.0)).min }
{
    f64::from_bits(fields::u64_at(s, nodes_end(usize::from(i.0)) + MIN_OFFSET))
}

#[tactic(auto, unfolding(pywr::specs::Numbers::is_flow, pywr::specs::Numbers::of_pattern))]
pub fn max(s: &[u8], i: NodeIndex) -> f64
    requires { (node_place i.0 + node_length ≤ length s.now) × (is_flow (le64 s.now (node_place i.0 + max_offset)) ≡ true) }
    ensures { result ≡ (node_at s.now (node_place i.0)).max }
{
    f64::from_bits(fields::u64_at(s, nodes_end(usize::from(i.0)) + MAX_OFFSET))
}
