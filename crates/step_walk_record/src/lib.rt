// One record of a step file checked and turned into its interval in one look, in a file of the right length.
#![tactic(auto)]

ghost use Rattle.std.specs.Prelude.{◌≡◌, ◌+◌, ◌/◌, ◌%◌, ◌≤◌, eqb, length};
ghost use Rattle.layout.specs.Layout.{virtual_storage_width};
ghost use Rattle.pywr.specs.Bytes.{mark_is};
ghost use Rattle.step_record.specs.Check.{node_step_length, aggregate_step_length, virtual_storage_step_length};
ghost use Rattle.step_walk_record.specs.Fields.{are_flows, are_volumes, uncrossed, constant_walked, storage_walked, flow_walked};
ghost use Rattle.step_walk_record.specs.WalkedRecord.{NodeWalked, AggregateWalked, VirtualStorageWalked};

use fields::{is_flow, is_small, u16_at, u64_at};
use pywr::{Interval, Sentinel};
use step_period::MonthDay;
use step_record::{
    AGGREGATE_LOWER_OFFSET, AGGREGATE_UPPER_OFFSET, NODE_COST_OFFSET, NODE_MAX_OFFSET,
    NODE_MIN_OFFSET, NODE_VOLUME_OFFSET, STORAGE, VIRTUAL_MAX_OFFSET, VIRTUAL_MIN_OFFSET,
    VIRTUAL_VOLUME_OFFSET,
};

// The marks `NB`, `GB` and `VB`, each as one number.
const NODE_MARK: u16 = 78 + 256 * 66;

const AGGREGATE_MARK: u16 = 71 + 256 * 66;

const VIRTUAL_STORAGE_MARK: u16 = 86 + 256 * 66;

fn is_marked(file: &[u8], at: usize, mark: u16) -> bool
    requires { at + 2 ≤ length file.now }
    ensures { result ≡ mark_is file.now at (mark % 256) (mark / 256) }
{
    u16_at(file, at) == mark
}

#[tactic(auto, unfolding(crate::specs::Fields::are_flows))]
fn are_flows(lower: u64, upper: u64) -> bool
    ensures { result ≡ are_flows lower upper }
{
    is_flow(lower) && is_flow(upper)
}

#[tactic(auto, unfolding(crate::specs::Fields::are_volumes))]
fn are_volumes(min: u64, max: u64, volume: u64) -> bool
    ensures { result ≡ are_volumes min max volume }
{
    is_small(min) && is_small(max) && is_small(volume)
}

// None where the lower bound is over the upper.
#[tactic(auto, unfolding(crate::specs::Fields::uncrossed))]
fn uncrossed(x: Interval) -> Option<Interval>
    ensures { result ≡ uncrossed x }
{
    if step_bounds::is_crossed(x) {
        None
    } else {
        Some(x)
    }
}

// The bounds of a constant node aren't read, but a storage's volume is tested.
#[tactic(auto, using(std::proofs::lemmas::Bool::Decides::nat_tests), unfolding(crate::specs::Fields::constant_walked, step_record::specs::Check::in_range, step_record::specs::Check::volume_range))]
fn constant_interval(file: &[u8], at: usize, kind: u16, sentinel: Sentinel) -> Option<Interval>
    requires { at + node_step_length ≤ length file.now }
    ensures { result ≡ constant_walked file.now at (eqb kind 3) sentinel }
{
    if kind == STORAGE && !is_small(u64_at(file, at + NODE_VOLUME_OFFSET)) {
        return None;
    }
    Some(step_bounds::sentinels(sentinel))
}

#[tactic(auto, unfolding(crate::specs::Fields::storage_walked, pywr::specs::Numbers::of_pattern))]
fn storage_interval(file: &[u8], at: usize, days: f64) -> Option<Interval>
    requires { at + node_step_length ≤ length file.now }
    ensures { result ≡ storage_walked file.now at days }
{
    let min = u64_at(file, at + NODE_MIN_OFFSET);
    let max = u64_at(file, at + NODE_MAX_OFFSET);
    let volume = u64_at(file, at + NODE_VOLUME_OFFSET);
    if !are_volumes(min, max, volume) {
        return None;
    }
    let bounds = step_bounds::storage_bounds(
        f64::from_bits(min),
        f64::from_bits(max),
        f64::from_bits(volume),
    );
    uncrossed(step_bounds::interval_of(days, bounds))
}

#[tactic(auto, unfolding(crate::specs::Fields::flow_walked, pywr::specs::Numbers::of_pattern))]
fn flow_interval(file: &[u8], at: usize) -> Option<Interval>
    requires { at + node_step_length ≤ length file.now }
    ensures { result ≡ flow_walked file.now at }
{
    let min = u64_at(file, at + NODE_MIN_OFFSET);
    let max = u64_at(file, at + NODE_MAX_OFFSET);
    if !are_flows(min, max) {
        return None;
    }
    uncrossed(Interval {
        lower: f64::from_bits(min),
        upper: f64::from_bits(max),
    })
}

// `NB`, of a node with this kind and flag: its interval, unless a mark or a field is bad or the bounds are crossed.
pub fn walk_node(
    file: &[u8],
    at: usize,
    kind: u16,
    constant: u16,
    days: f64,
    sentinel: Sentinel,
) -> Option<Interval>
    requires { at + node_step_length ≤ length file.now }
    ensures { NodeWalked file.now at kind constant days sentinel result }
{
    if !is_marked(file, at, NODE_MARK) {
        return None;
    }
    if !is_small(u64_at(file, at + NODE_COST_OFFSET)) {
        return None;
    }
    if constant == 1 {
        constant_interval(file, at, kind, sentinel)
    } else if kind == STORAGE {
        storage_interval(file, at, days)
    } else {
        flow_interval(file, at)
    }
}

// `GB`: its interval, unless its mark or a field is bad.
pub fn walk_aggregate(file: &[u8], at: usize) -> Option<Interval>
    requires { at + aggregate_step_length ≤ length file.now }
    ensures { AggregateWalked file.now at result }
{
    if !is_marked(file, at, AGGREGATE_MARK) {
        return None;
    }
    let lower = u64_at(file, at + AGGREGATE_LOWER_OFFSET);
    let upper = u64_at(file, at + AGGREGATE_UPPER_OFFSET);
    if !are_flows(lower, upper) {
        return None;
    }
    Some(Interval {
        lower: f64::from_bits(lower),
        upper: f64::from_bits(upper),
    })
}

// `VB`, of the virtual storage whose words stand at `place` of the shape run, on a date: its interval, both sentinels outside its period,
// unless its mark or a field is bad.
pub fn walk_virtual_storage(
    file: &[u8],
    shape: &[u16],
    place: usize,
    at: usize,
    date: MonthDay,
    days: f64,
    sentinel: Sentinel,
) -> Option<Interval>
    requires { (at + virtual_storage_step_length ≤ length file.now) × (place + virtual_storage_width ≤ length shape.now) }
    ensures { VirtualStorageWalked shape.now file.now place at date.month date.day days sentinel result }
{
    if !is_marked(file, at, VIRTUAL_STORAGE_MARK) {
        return None;
    }
    let min = u64_at(file, at + VIRTUAL_MIN_OFFSET);
    let max = u64_at(file, at + VIRTUAL_MAX_OFFSET);
    let volume = u64_at(file, at + VIRTUAL_VOLUME_OFFSET);
    if !are_volumes(min, max, volume) {
        return None;
    }
    if step_period::is_active_at(shape, place, date) {
        let bounds = step_bounds::virtual_bounds(
            f64::from_bits(min),
            f64::from_bits(max),
            f64::from_bits(volume),
        );
        Some(step_bounds::interval_of(days, bounds))
    } else {
        Some(step_bounds::sentinels(sentinel))
    }
}
