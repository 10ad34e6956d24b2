// The virtual storages' intervals of a step, written into the lent work run. They are not compared: none is crossed (pywr's UncrossedLaws).
#![tactic(auto)]

ghost use Rattle.std.specs.Prelude.{◌≤◌, length};
ghost use Rattle.layout.specs.Layout.{node_ceiling, aggregate_ceiling, virtual_storage_ceiling, shape_length, nodes_in, aggregates_in, virtual_storages_in, virtual_storages_held_at, step_work_length};
ghost use Rattle.step_file.specs.Decoded.{file_length};
ghost use Rattle.step_work.specs.Written.{Written};
ghost use Rattle.step_virtual_storage_intervals.specs.VirtualStorageIntervals.{virtual_storage_numbered};

use layout::{
    AGGREGATE_COUNT_AT, NODE_COUNT_AT, UPPERS_AT, VIRTUAL_STORAGE_COUNT_AT, VIRTUAL_STORAGE_WIDTH,
    VIRTUAL_STORAGES_AT, VIRTUAL_STORAGES_HELD_AT,
};
use pywr::Sentinel;

pub fn find_virtual_storage_intervals(
    file: &[u8],
    shape: &[u16],
    days: f64,
    sentinel: Sentinel,
    work: &mut [f64],
)
    requires { (shape_length ≤ length shape.now) × (step_work_length ≤ length work.old) × (nodes_in shape.now ≤ node_ceiling)
        × (aggregates_in shape.now ≤ aggregate_ceiling) × (virtual_storages_in shape.now ≤ virtual_storage_ceiling)
        × (file_length (nodes_in shape.now) (aggregates_in shape.now) (virtual_storages_in shape.now) ≤ length file.now) }
    ensures { Written (virtual_storage_numbered sentinel days shape.now file.now) virtual_storages_held_at
        (virtual_storages_in shape.now) work.old work.new }
{
    let nodes = usize::from(shape[NODE_COUNT_AT]);
    let aggregates = usize::from(shape[AGGREGATE_COUNT_AT]);
    let virtual_storages = usize::from(shape[VIRTUAL_STORAGE_COUNT_AT]);
    for i in 0..virtual_storages {
        let x = step_virtual_interval::virtual_storage_interval(
            file,
            shape,
            VIRTUAL_STORAGES_AT + VIRTUAL_STORAGE_WIDTH * i,
            step_fields::virtual_storage_at(nodes, aggregates, i),
            days,
            sentinel,
        );
        let k = VIRTUAL_STORAGES_HELD_AT + i;
        work[k] = x.lower;
        work[UPPERS_AT + k] = x.upper;
    }
}
