// The intervals of a step, written into the lent work run, and refusals 14 and 21.
#![tactic(auto)]

ghost use Rattle.std.specs.Prelude.{◌≡◌, ◌≤◌, length};
ghost use Rattle.layout.specs.Layout.{node_ceiling, aggregate_ceiling, virtual_storage_ceiling, node_row_ceiling, shape_length, nodes_in, node_rows_in, aggregates_in, virtual_storages_in, step_work_length};
ghost use Rattle.pywr.specs.Store.{Store};
ghost use Rattle.step_file.specs.Decoded.{file_length};
ghost use Rattle.step_intervals.specs.Found.{Found};

use pywr::Answer;

// Every interval of a step, for the counts and kinds of the shape run and a file of their length.
pub fn find_intervals(file: &[u8], shape: &[u16], work: &mut [f64]) -> Answer
    requires { (shape_length ≤ length shape.now) × (step_work_length ≤ length work.old) × (nodes_in shape.now ≤ node_ceiling) × (node_rows_in shape.now ≤ node_row_ceiling)
        × (aggregates_in shape.now ≤ aggregate_ceiling) × (virtual_storages_in shape.now ≤ virtual_storage_ceiling)
        × (file_length (nodes_in shape.now) (aggregates_in shape.now) (virtual_storages_in shape.now) ≤ length file.now) }
    ensures { (s : Store) → s.shape ≡ shape.now → Found s file.now result work.new }
{
    let days = step_fields::days(file);
    let sentinel = store_shape::kept_sentinel(shape);
    step_node_intervals::find_node_intervals(file, shape, days, sentinel, work)?;
    step_aggregate_intervals::find_aggregate_intervals(file, shape, work);
    step_virtual_storage_intervals::find_virtual_storage_intervals(
        file, shape, days, sentinel, work,
    );
    Ok(())
}
