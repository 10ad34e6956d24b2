// The fields of a step file, each read at its place; the offsets are those of step_record.
#![tactic(auto)]

ghost use Rattle.std.specs.Prelude.{◌≡◌, ◌+◌, ◌≤◌, length};
ghost use Rattle.layout.specs.Layout.{node_ceiling, aggregate_ceiling, virtual_storage_ceiling};
ghost use Rattle.pywr.specs.Bytes.{byte};
ghost use Rattle.step_record.specs.Check.{date_length, month_offset, day_offset, days_offset, node_step_length, node_cost_offset, node_min_offset, node_max_offset, node_volume_offset};
ghost use Rattle.step_record.specs.Check.{aggregate_step_length, aggregate_lower_offset, aggregate_upper_offset, virtual_storage_step_length, virtual_min_offset, virtual_max_offset, virtual_volume_offset};
ghost use Rattle.step_file.specs.Decoded.{f64_at, node_step_place, aggregate_step_place, virtual_storage_step_place};

use fields::f64_at;
use pywr::NodeIndex;
use step_record::{
    AGGREGATE_LOWER_OFFSET, AGGREGATE_STEP_LENGTH, AGGREGATE_UPPER_OFFSET, DATE_LENGTH, DAY_OFFSET,
    DAYS_OFFSET, MONTH_OFFSET, NODE_COST_OFFSET, NODE_MAX_OFFSET, NODE_MIN_OFFSET,
    NODE_STEP_LENGTH, NODE_VOLUME_OFFSET, VIRTUAL_MAX_OFFSET, VIRTUAL_MIN_OFFSET,
    VIRTUAL_STORAGE_STEP_LENGTH, VIRTUAL_VOLUME_OFFSET,
};

// The date.
pub fn month(file: &[u8]) -> u16
    requires { days_offset ≤ length file.now }
    ensures { result ≡ byte file.now month_offset }
{
    u16::from(file[MONTH_OFFSET])
}

pub fn day(file: &[u8]) -> u16
    requires { days_offset ≤ length file.now }
    ensures { result ≡ byte file.now day_offset }
{
    u16::from(file[DAY_OFFSET])
}

pub fn days(file: &[u8]) -> f64
    requires { date_length ≤ length file.now }
    ensures { result ≡ f64_at file.now days_offset }
{
    f64_at(file, DAYS_OFFSET)
}

// A double of a node's record.
fn node_field(file: &[u8], node: NodeIndex, offset: usize) -> f64
    requires { (node_step_place node.0 + node_step_length ≤ length file.now) × (offset + 8 ≤ node_step_length) }
    ensures { result ≡ f64_at file.now (node_step_place node.0 + offset) }
{
    f64_at(
        file,
        DATE_LENGTH + NODE_STEP_LENGTH * usize::from(node.0) + offset,
    )
}

pub fn node_cost(file: &[u8], node: NodeIndex) -> f64
    requires { node_step_place node.0 + node_step_length ≤ length file.now }
    ensures { result ≡ f64_at file.now (node_step_place node.0 + node_cost_offset) }
{
    node_field(file, node, NODE_COST_OFFSET)
}

pub fn node_min(file: &[u8], node: NodeIndex) -> f64
    requires { node_step_place node.0 + node_step_length ≤ length file.now }
    ensures { result ≡ f64_at file.now (node_step_place node.0 + node_min_offset) }
{
    node_field(file, node, NODE_MIN_OFFSET)
}

pub fn node_max(file: &[u8], node: NodeIndex) -> f64
    requires { node_step_place node.0 + node_step_length ≤ length file.now }
    ensures { result ≡ f64_at file.now (node_step_place node.0 + node_max_offset) }
{
    node_field(file, node, NODE_MAX_OFFSET)
}

pub fn node_volume(file: &[u8], node: NodeIndex) -> f64
    requires { node_step_place node.0 + node_step_length ≤ length file.now }
    ensures { result ≡ f64_at file.now (node_step_place node.0 + node_volume_offset) }
{
    node_field(file, node, NODE_VOLUME_OFFSET)
}

// A double of the record of aggregate k, behind those of all nodes.
fn aggregate_field(file: &[u8], nodes: usize, k: usize, offset: usize) -> f64
    requires { (aggregate_step_place nodes k + aggregate_step_length ≤ length file.now) × (offset + 8 ≤ aggregate_step_length) }
    ensures { result ≡ f64_at file.now (aggregate_step_place nodes k + offset) }
{
    f64_at(
        file,
        DATE_LENGTH + NODE_STEP_LENGTH * nodes + AGGREGATE_STEP_LENGTH * k + offset,
    )
}

pub fn aggregate_lower(file: &[u8], nodes: usize, k: usize) -> f64
    requires { aggregate_step_place nodes k + aggregate_step_length ≤ length file.now }
    ensures { result ≡ f64_at file.now (aggregate_step_place nodes k + aggregate_lower_offset) }
{
    aggregate_field(file, nodes, k, AGGREGATE_LOWER_OFFSET)
}

pub fn aggregate_upper(file: &[u8], nodes: usize, k: usize) -> f64
    requires { aggregate_step_place nodes k + aggregate_step_length ≤ length file.now }
    ensures { result ≡ f64_at file.now (aggregate_step_place nodes k + aggregate_upper_offset) }
{
    aggregate_field(file, nodes, k, AGGREGATE_UPPER_OFFSET)
}

// Where the record of virtual storage k stands, behind those of all nodes and aggregates.
pub fn virtual_storage_at(nodes: usize, aggregates: usize, k: usize) -> usize
    requires { (nodes ≤ node_ceiling) × (aggregates ≤ aggregate_ceiling) × (k ≤ virtual_storage_ceiling) }
    ensures { result ≡ virtual_storage_step_place nodes aggregates k }
{
    DATE_LENGTH
        + NODE_STEP_LENGTH * nodes
        + AGGREGATE_STEP_LENGTH * aggregates
        + VIRTUAL_STORAGE_STEP_LENGTH * k
}

// The record of the virtual storage that stands at `at`.
pub fn virtual_min(file: &[u8], at: usize) -> f64
    requires { at + virtual_storage_step_length ≤ length file.now }
    ensures { result ≡ f64_at file.now (at + virtual_min_offset) }
{
    f64_at(file, at + VIRTUAL_MIN_OFFSET)
}

pub fn virtual_max(file: &[u8], at: usize) -> f64
    requires { at + virtual_storage_step_length ≤ length file.now }
    ensures { result ≡ f64_at file.now (at + virtual_max_offset) }
{
    f64_at(file, at + VIRTUAL_MAX_OFFSET)
}

pub fn virtual_volume(file: &[u8], at: usize) -> f64
    requires { at + virtual_storage_step_length ≤ length file.now }
    ensures { result ≡ f64_at file.now (at + virtual_volume_offset) }
{
    f64_at(file, at + VIRTUAL_VOLUME_OFFSET)
}
