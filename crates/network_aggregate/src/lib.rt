// An aggregated node of the network file: the check of its `AG` record, and its fields.
#![tactic(auto)]

ghost use Rattle.std.specs.Prelude.{◌≡◌, ◌+◌, ◌<◌, ◌≤◌, ◌^◌, length};
ghost use Rattle.pywr.specs.Bytes.{byte, le16};
ghost use Rattle.fields.specs.Field.{NextWithin};
ghost use Rattle.fields.specs.Records.{check_each};
ghost use Rattle.network_aggregate.specs.AggregatedNode.{set_end, aggregate_at, aggregate_end, check_member, check_set, check_aggregate, set_count_offset, sets_offset, member_place};

use layout::{AGGREGATE_SET_CEILING, SET_SIZE_CEILING};
use pywr::{NodeIndex, Refusal};

// An `AG` record: where its fields and its sets stand in it.
const EXCLUSIVE_OFFSET: usize = 2;

const SET_COUNT_OFFSET: usize = 3;

const MIN_ACTIVE_OFFSET: usize = 4;

const MAX_ACTIVE_OFFSET: usize = 8;

const SETS_OFFSET: usize = 12;

// A set: its size, then its nodes.
const MEMBERS_OFFSET: usize = 1;

const MEMBER_LENGTH: usize = 2;

// `count` nodes of a set, from `at`.
#[tactic(auto, using(fields::proofs::RecordLaws::checked_in_turn), unfolding(crate::specs::AggregatedNode::check_member))]
fn check_members(
    s: &[u8],
    place: usize,
    nodes: usize,
    count: usize,
    at: usize,
) -> Result<usize, Refusal>
    requires { at ≤ length s.now }
    ensures { (result ≡ check_each (check_member s.now place nodes) count at) × NextWithin result (length s.now) }
{
    let mut here = at;
    for _ in 0..count {
        fields::node_field(s, place, here, nodes)?;
        here += MEMBER_LENGTH;
    }
    Ok(here)
}

// `count` sets, from `at`.
#[tactic(auto, using(fields::proofs::RecordLaws::checked_in_turn), unfolding(crate::specs::AggregatedNode::check_set))]
fn check_sets(
    s: &[u8],
    place: usize,
    nodes: usize,
    count: usize,
    at: usize,
) -> Result<usize, Refusal>
    requires { at ≤ length s.now }
    ensures { (result ≡ check_each (check_set s.now place nodes) count at) × NextWithin result (length s.now) }
{
    let mut here = at;
    for _ in 0..count {
        let size = fields::byte_field(s, place, here, 1, SET_SIZE_CEILING)?;
        here = check_members(s, place, nodes, size, here + MEMBERS_OFFSET)?;
    }
    Ok(here)
}

// The aggregate whose record stands at `at`, of a network with `nodes` nodes: where the next record starts.
#[tactic(auto, using(fields::proofs::RecordLaws::checked_in_turn), unfolding(crate::specs::AggregatedNode::check_aggregate))]
pub fn check_aggregate(s: &[u8], nodes: usize, at: usize) -> Result<usize, Refusal>
    requires { at + 2 ≤ length s.now }
    ensures { (result ≡ check_aggregate s.now nodes at) × NextWithin result (length s.now) }
{
    let exclusive = fields::byte_field(s, at, at + EXCLUSIVE_OFFSET, 0, 1)? == 1;
    let sets = fields::byte_field(s, at, at + SET_COUNT_OFFSET, 1, AGGREGATE_SET_CEILING)?;
    let least = fields::active_field(s, at, at + MIN_ACTIVE_OFFSET, exclusive, 0)?;
    fields::active_field(s, at, at + MAX_ACTIVE_OFFSET, exclusive, least)?;
    check_sets(s, at, nodes, sets, at + SETS_OFFSET)
}

// The fields of the record at `at`.
pub fn is_exclusive(s: &[u8], at: usize) -> bool
    requires { at + sets_offset ≤ length s.now }
    ensures { result ≡ (aggregate_at s.now at).exclusive }
{
    s[at + EXCLUSIVE_OFFSET] == 1
}

pub fn set_count(s: &[u8], at: usize) -> usize
    requires { at + sets_offset ≤ length s.now }
    ensures { (result ≡ byte s.now (at + set_count_offset)) × (result < 256) }
{
    usize::from(s[at + SET_COUNT_OFFSET])
}

pub fn min_active(s: &[u8], at: usize) -> u32
    requires { at + sets_offset ≤ length s.now }
    ensures { result ≡ (aggregate_at s.now at).min_active }
{
    fields::u32_at(s, at + MIN_ACTIVE_OFFSET)
}

pub fn max_active(s: &[u8], at: usize) -> u32
    requires { at + sets_offset ≤ length s.now }
    ensures { result ≡ (aggregate_at s.now at).max_active }
{
    fields::u32_at(s, at + MAX_ACTIVE_OFFSET)
}

// Where its sets start.
pub fn sets_at(at: usize) -> usize
    requires { at + sets_offset < 2 ^ 64 }
    ensures { result ≡ at + sets_offset }
{
    at + SETS_OFFSET
}

// The set at `at`: its size, its node k, and where it ends.
pub fn set_size(s: &[u8], at: usize) -> usize
    requires { at < length s.now }
    ensures { (result ≡ byte s.now at) × (result < 256) }
{
    usize::from(s[at])
}

pub fn member(s: &[u8], at: usize, k: usize) -> NodeIndex
    requires { (set_end s.now at ≤ length s.now) × (k < byte s.now at) }
    ensures { result.0 ≡ le16 s.now (member_place at k) }
{
    NodeIndex(fields::u16_at(s, at + MEMBERS_OFFSET + MEMBER_LENGTH * k))
}

pub fn set_end(s: &[u8], at: usize) -> usize
    requires { at < length s.now }
    ensures { result ≡ set_end s.now at }
{
    at + MEMBERS_OFFSET + MEMBER_LENGTH * set_size(s, at)
}

// Where the record at `at` ends.
pub fn aggregate_end(s: &[u8], at: usize) -> usize
    requires { aggregate_end s.now at ≤ length s.now }
    ensures { result ≡ aggregate_end s.now at }
{
    let count = set_count(s, at);
    let mut here = at + SETS_OFFSET;
    for _ in 0..count {
        here = set_end(s, here);
    }
    here
}
