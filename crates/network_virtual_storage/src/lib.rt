// A virtual storage of the network file: the check of its `VS` record, and its fields.
#![tactic(auto)]

ghost use Rattle.std.specs.Prelude.{◌≡◌, true, ◌+◌, ◌<◌, ◌≤◌, length};
ghost use Rattle.pywr.specs.Bytes.{byte, le64};
ghost use Rattle.pywr.specs.Numbers.{is_small};
ghost use Rattle.pywr.specs.NetworkFile.{least_date, most_date};
ghost use Rattle.fields.specs.Field.{flag, NextWithin};
ghost use Rattle.fields.specs.Records.{check_each};
ghost use Rattle.network_virtual_storage.specs.VirtualStorage.{part_at, period_at, virtual_storage_end, check_part, check_dates, check_virtual_storage, part_count_offset, parts_offset, factor_offset, part_place};
ghost use Rattle.network_virtual_storage.specs.PeriodOf.{period_of};

use layout::PART_CEILING;
use pywr::{NodeIndex, Refusal};

// A `VS` record: where its fields and its parts stand in it.
const PERIOD_OFFSET: usize = 2;

const START_MONTH_OFFSET: usize = 3;

const START_DAY_OFFSET: usize = 4;

const END_MONTH_OFFSET: usize = 5;

const END_DAY_OFFSET: usize = 6;

const PART_COUNT_OFFSET: usize = 7;

const PARTS_OFFSET: usize = 8;

// A part: a node, then its factor.
const STORAGE_PART_LENGTH: usize = 10;

const FACTOR_OFFSET: usize = 2;

// When a virtual storage is active: always, or from the start to the end, both included.
#[derive(Clone, Copy)]
pub struct Period {
    pub always: bool,
    pub start_month: u8,
    pub start_day: u8,
    pub end_month: u8,
    pub end_day: u8,
}

#[tactic(auto, unfolding(pywr::specs::NetworkFile::least_date))]
fn least_date(dated: bool) -> usize
    ensures { result ≡ least_date (flag dated) }
{
    if dated { 1 } else { 0 }
}

#[tactic(auto, unfolding(pywr::specs::NetworkFile::most_date))]
fn most_date(dated: bool, most: usize) -> usize
    ensures { result ≡ most_date (flag dated) most }
{
    if dated { most } else { 0 }
}

// `count` parts, from `at`.
#[tactic(auto, using(fields::proofs::RecordLaws::checked_in_turn), unfolding(crate::specs::VirtualStorage::check_part))]
fn check_parts(
    s: &[u8],
    place: usize,
    nodes: usize,
    count: usize,
    at: usize,
) -> Result<usize, Refusal>
    requires { at ≤ length s.now }
    ensures { (result ≡ check_each (check_part s.now place nodes) count at) × NextWithin result (length s.now) }
{
    let mut here = at;
    for _ in 0..count {
        fields::node_field(s, place, here, nodes)?;
        fields::check_factor(s, place, here + FACTOR_OFFSET)?;
        here += STORAGE_PART_LENGTH;
    }
    Ok(here)
}

// The four date bytes of the record at `at`, which are 0 where it is not dated, and where the bytes after them start.
#[tactic(auto, unfolding(crate::specs::VirtualStorage::check_dates))]
fn check_dates(s: &[u8], at: usize, dated: bool) -> Result<usize, Refusal>
    requires { at + 2 ≤ length s.now }
    ensures { result ≡ check_dates s.now at (flag dated) }
{
    let least = least_date(dated);
    let month = most_date(dated, 12);
    let day = most_date(dated, 31);
    fields::byte_field(s, at, at + START_MONTH_OFFSET, least, month)?;
    fields::byte_field(s, at, at + START_DAY_OFFSET, least, day)?;
    fields::byte_field(s, at, at + END_MONTH_OFFSET, least, month)?;
    fields::byte_field(s, at, at + END_DAY_OFFSET, least, day)?;
    Ok(at + PART_COUNT_OFFSET)
}

// The virtual storage whose record stands at `at`, of a network with `nodes` nodes: where the next record starts.
#[tactic(auto, using(fields::proofs::RecordLaws::checked_in_turn), unfolding(crate::specs::VirtualStorage::check_virtual_storage))]
pub fn check_virtual_storage(s: &[u8], nodes: usize, at: usize) -> Result<usize, Refusal>
    requires { at + 2 ≤ length s.now }
    ensures { (result ≡ check_virtual_storage s.now nodes at) × NextWithin result (length s.now) }
{
    let dated = fields::byte_field(s, at, at + PERIOD_OFFSET, 0, 1)? == 1;
    check_dates(s, at, dated)?;
    let count = fields::byte_field(s, at, at + PART_COUNT_OFFSET, 1, PART_CEILING)?;
    check_parts(s, at, nodes, count, at + PARTS_OFFSET)
}

// The fields of the record at `at`, and where it ends.
pub fn active_period(s: &[u8], at: usize) -> Period
    requires { at + parts_offset ≤ length s.now }
    ensures { period_of result ≡ period_at s.now at }
{
    Period {
        always: s[at + PERIOD_OFFSET] == 0,
        start_month: s[at + START_MONTH_OFFSET],
        start_day: s[at + START_DAY_OFFSET],
        end_month: s[at + END_MONTH_OFFSET],
        end_day: s[at + END_DAY_OFFSET],
    }
}

pub fn part_count(s: &[u8], at: usize) -> usize
    requires { at + parts_offset ≤ length s.now }
    ensures { (result ≡ byte s.now (at + part_count_offset)) × (result < 256) }
{
    usize::from(s[at + PART_COUNT_OFFSET])
}

pub fn virtual_storage_end(s: &[u8], at: usize) -> usize
    requires { at + parts_offset ≤ length s.now }
    ensures { result ≡ virtual_storage_end s.now at }
{
    at + PARTS_OFFSET + STORAGE_PART_LENGTH * part_count(s, at)
}

// Part k of the record at `at`: its node, and its factor, whose pattern passed.
pub fn part_node(s: &[u8], at: usize, k: usize) -> NodeIndex
    requires { (virtual_storage_end s.now at ≤ length s.now) × (k < byte s.now (at + part_count_offset)) }
    ensures { result.0 ≡ (part_at s.now (part_place at k)).node }
{
    NodeIndex(fields::u16_at(s, at + PARTS_OFFSET + STORAGE_PART_LENGTH * k))
}

#[tactic(auto, using(fields::proofs::Nan::small_flow), unfolding(pywr::specs::Numbers::is_flow, pywr::specs::Numbers::of_pattern))]
pub fn part_factor(s: &[u8], at: usize, k: usize) -> f64
    requires { (virtual_storage_end s.now at ≤ length s.now) × (k < byte s.now (at + part_count_offset)) × (is_small (le64 s.now (part_place at k + factor_offset)) ≡ true) }
    ensures { result ≡ (part_at s.now (part_place at k)).factor }
{
    f64::from_bits(fields::u64_at(
        s,
        at + PARTS_OFFSET + STORAGE_PART_LENGTH * k + FACTOR_OFFSET,
    ))
}
