// A good step file walked once: each record is checked and its interval written into the lent work run in one look. At the first record that is not good the
// walk stops; which refusal that is, the reading of the file (step_file) and of its intervals (step_intervals) says.
#![tactic(auto)]

ghost use Rattle.std.specs.Prelude.{◌≡◌, ◌≤◌, true, length};
ghost use Rattle.layout.specs.Layout.{node_ceiling, aggregate_ceiling, virtual_storage_ceiling, node_row_ceiling, shape_length, nodes_in, node_rows_in, aggregates_in, virtual_storages_in};
ghost use Rattle.layout.specs.Layout.{aggregates_held_at, virtual_storages_held_at, step_work_length};
ghost use Rattle.pywr.specs.Store.{Store};
ghost use Rattle.step_record.specs.Check.{check_aggregate, check_virtual_storage_step, aggregate_step_length, virtual_storage_step_length};
ghost use Rattle.step_file.specs.Decoded.{aggregate_steps_at, virtual_storage_steps_at, file_length};
ghost use Rattle.step_aggregate_intervals.specs.AggregateIntervals.{aggregate_numbered};
ghost use Rattle.step_virtual_storage_intervals.specs.VirtualStorageIntervals.{virtual_storage_numbered};
ghost use Rattle.step_walk.specs.WalkedFile.{NodesNamed, NodesWalked, NoneBeyond, RecordsWalked, FileWalked};

use layout::{
    AGGREGATE_COUNT_AT, AGGREGATES_HELD_AT, NODE_COUNT_AT, NODE_FLAG, NODE_ROW_COUNT_AT,
    NODE_ROW_TYPE, NODE_ROW_WIDTH, NODE_ROWS_AT, NODE_WIDTH, NODES_AT, UPPERS_AT,
    VIRTUAL_STORAGE_COUNT_AT, VIRTUAL_STORAGE_WIDTH, VIRTUAL_STORAGES_AT, VIRTUAL_STORAGES_HELD_AT,
};
use pywr::Sentinel;
use step_bounds::is_beyond;
use step_period::MonthDay;
use step_record::{
    AGGREGATE_STEP_LENGTH, DATE_LENGTH, NODE_STEP_LENGTH, VIRTUAL_STORAGE_STEP_LENGTH,
};

// The nodes' records, and their intervals.
fn walk_nodes(file: &[u8], shape: &[u16], days: f64, sentinel: Sentinel, work: &mut [f64]) -> bool
    requires { (shape_length ≤ length shape.now) × (step_work_length ≤ length work.old) × (nodes_in shape.now ≤ node_ceiling) × (aggregate_steps_at (nodes_in shape.now) ≤ length file.now) }
    ensures { result ≡ true → NodesWalked sentinel days shape.now file.now work.old work.new }
{
    let nodes = usize::from(shape[NODE_COUNT_AT]);
    for i in 0..nodes {
        let kind = shape[NODES_AT + NODE_WIDTH * i];
        let constant = shape[NODES_AT + NODE_WIDTH * i + NODE_FLAG];
        let at = DATE_LENGTH + NODE_STEP_LENGTH * i;
        let Some(x) = step_walk_record::walk_node(file, at, kind, constant, days, sentinel) else {
            return false;
        };
        work[i] = x.lower;
        work[UPPERS_AT + i] = x.upper;
    }
    true
}

// Whether no binary node row names a node whose written interval has a bound at or beyond a sentinel.
fn none_beyond(shape: &[u16], work: &[f64], sentinel: Sentinel) -> bool
    requires { (shape_length ≤ length shape.now) × (step_work_length ≤ length work.now) × (nodes_in shape.now ≤ node_ceiling) × (node_rows_in shape.now ≤ node_row_ceiling) × NodesNamed shape.now }
    ensures { result ≡ true → NoneBeyond sentinel shape.now work.now }
{
    let node_rows = usize::from(shape[NODE_ROW_COUNT_AT]);
    for i in 0..node_rows {
        let at = NODE_ROWS_AT + NODE_ROW_WIDTH * i;
        if shape[at + NODE_ROW_TYPE] != 0 {
            let node = usize::from(shape[at]);
            if is_beyond(work[node], sentinel) | is_beyond(work[UPPERS_AT + node], sentinel) {
                return false;
            }
        }
    }
    true
}

// The aggregates' records, and their intervals.
fn walk_aggregates(file: &[u8], shape: &[u16], work: &mut [f64]) -> bool
    requires { (shape_length ≤ length shape.now) × (step_work_length ≤ length work.old) × (nodes_in shape.now ≤ node_ceiling)
        × (aggregates_in shape.now ≤ aggregate_ceiling) × (virtual_storage_steps_at (nodes_in shape.now) (aggregates_in shape.now) ≤ length file.now) }
    ensures { result ≡ true → RecordsWalked (check_aggregate file.now) aggregate_step_length (aggregate_steps_at (nodes_in shape.now))
        (aggregate_numbered shape.now file.now) aggregates_held_at (aggregates_in shape.now) work.old work.new }
{
    let nodes = usize::from(shape[NODE_COUNT_AT]);
    let aggregates = usize::from(shape[AGGREGATE_COUNT_AT]);
    let first = DATE_LENGTH + NODE_STEP_LENGTH * nodes;
    for i in 0..aggregates {
        let at = first + AGGREGATE_STEP_LENGTH * i;
        let Some(x) = step_walk_record::walk_aggregate(file, at) else {
            return false;
        };
        let k = AGGREGATES_HELD_AT + i;
        work[k] = x.lower;
        work[UPPERS_AT + k] = x.upper;
    }
    true
}

// The virtual storages' records, and their intervals on the step's date.
fn walk_virtual_storages(
    file: &[u8],
    shape: &[u16],
    days: f64,
    sentinel: Sentinel,
    work: &mut [f64],
) -> bool
    requires { (shape_length ≤ length shape.now) × (step_work_length ≤ length work.old) × (nodes_in shape.now ≤ node_ceiling)
        × (aggregates_in shape.now ≤ aggregate_ceiling) × (virtual_storages_in shape.now ≤ virtual_storage_ceiling)
        × (file_length (nodes_in shape.now) (aggregates_in shape.now) (virtual_storages_in shape.now) ≤ length file.now) }
    ensures { result ≡ true → RecordsWalked (check_virtual_storage_step file.now) virtual_storage_step_length
        (virtual_storage_steps_at (nodes_in shape.now) (aggregates_in shape.now))
        (virtual_storage_numbered sentinel days shape.now file.now) virtual_storages_held_at (virtual_storages_in shape.now)
        work.old work.new }
{
    let nodes = usize::from(shape[NODE_COUNT_AT]);
    let aggregates = usize::from(shape[AGGREGATE_COUNT_AT]);
    let virtual_storages = usize::from(shape[VIRTUAL_STORAGE_COUNT_AT]);
    let month = step_fields::month(file);
    let day = step_fields::day(file);
    let date = MonthDay { month, day };
    let first = DATE_LENGTH + NODE_STEP_LENGTH * nodes + AGGREGATE_STEP_LENGTH * aggregates;
    for i in 0..virtual_storages {
        let place = VIRTUAL_STORAGES_AT + VIRTUAL_STORAGE_WIDTH * i;
        let at = first + VIRTUAL_STORAGE_STEP_LENGTH * i;
        let Some(x) = step_walk_record::walk_virtual_storage(
            file, shape, place, at, date, days, sentinel,
        ) else {
            return false;
        };
        let k = VIRTUAL_STORAGES_HELD_AT + i;
        work[k] = x.lower;
        work[UPPERS_AT + k] = x.upper;
    }
    true
}

// Whether the file is good, for the counts, kinds and node rows of the shape run; then the work run holds its intervals.
pub fn walk_file(file: &[u8], shape: &[u16], work: &mut [f64]) -> bool
    requires { (shape_length ≤ length shape.now) × (step_work_length ≤ length work.old) × (nodes_in shape.now ≤ node_ceiling) × (node_rows_in shape.now ≤ node_row_ceiling)
        × (aggregates_in shape.now ≤ aggregate_ceiling) × (virtual_storages_in shape.now ≤ virtual_storage_ceiling) × NodesNamed shape.now }
    ensures { result ≡ true → ((s : Store) → s.shape ≡ shape.now → FileWalked s file.now work.new) }
{
    let nodes = usize::from(shape[NODE_COUNT_AT]);
    let aggregates = usize::from(shape[AGGREGATE_COUNT_AT]);
    let virtual_storages = usize::from(shape[VIRTUAL_STORAGE_COUNT_AT]);
    let length = DATE_LENGTH
        + NODE_STEP_LENGTH * nodes
        + AGGREGATE_STEP_LENGTH * aggregates
        + VIRTUAL_STORAGE_STEP_LENGTH * virtual_storages;
    if file.len() != length {
        return false;
    }
    if step_record::check_date(file).is_err() {
        return false;
    }
    let days = step_fields::days(file);
    let sentinel = store_shape::kept_sentinel(shape);
    if !walk_nodes(file, shape, days, sentinel, work) {
        return false;
    }
    if !none_beyond(shape, work, sentinel) {
        return false;
    }
    if !walk_aggregates(file, shape, work) {
        return false;
    }
    walk_virtual_storages(file, shape, days, sentinel, work)
}
