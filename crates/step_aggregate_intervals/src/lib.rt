// The aggregates' intervals of a step, written into the lent work run. They are not compared.
#![tactic(auto)]

ghost use Rattle.std.specs.Prelude.{◌≤◌, length};
ghost use Rattle.layout.specs.Layout.{node_ceiling, aggregate_ceiling, shape_length, nodes_in, aggregates_in, aggregates_held_at, step_work_length};
ghost use Rattle.step_file.specs.Decoded.{virtual_storage_steps_at};
ghost use Rattle.step_work.specs.Written.{Written};
ghost use Rattle.step_aggregate_intervals.specs.AggregateIntervals.{aggregate_numbered};

use layout::{AGGREGATE_COUNT_AT, AGGREGATES_HELD_AT, NODE_COUNT_AT, UPPERS_AT};

pub fn find_aggregate_intervals(file: &[u8], shape: &[u16], work: &mut [f64])
    requires { (shape_length ≤ length shape.now) × (step_work_length ≤ length work.old) × (nodes_in shape.now ≤ node_ceiling)
        × (aggregates_in shape.now ≤ aggregate_ceiling) × (virtual_storage_steps_at (nodes_in shape.now) (aggregates_in shape.now) ≤ length file.now) }
    ensures { Written (aggregate_numbered shape.now file.now) aggregates_held_at (aggregates_in shape.now) work.old work.new }
{
    let nodes = usize::from(shape[NODE_COUNT_AT]);
    let aggregates = usize::from(shape[AGGREGATE_COUNT_AT]);
    for i in 0..aggregates {
        let lower = step_fields::aggregate_lower(file, nodes, i);
        let upper = step_fields::aggregate_upper(file, nodes, i);
        let k = AGGREGATES_HELD_AT + i;
        work[k] = lower;
        work[UPPERS_AT + k] = upper;
    }
}
