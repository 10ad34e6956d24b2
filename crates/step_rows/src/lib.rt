// The varying rows of a step: reset to the sentinels, then tightened by the intervals of the nodes, the aggregates and the virtual
// storages; last the binary rows, whose bounds no interval moves (BuiltSolver::update and apply_updated_coefficients of builder.rs).
#![tactic(auto)]

ghost use Rattle.std.specs.Prelude.{ℕ, ◌+◌, ◌*◌, ◌<◌, ◌≤◌, List, length};
ghost use Rattle.layout.specs.Layout.{node_row_ceiling, row_ceiling, element_ceiling, node_rows_at, node_row_width, node_rows_in, step_work_length};
ghost use Rattle.pywr.specs.Programme.{Row};
ghost use Rattle.pywr.specs.StepIntervals.{Intervals};
ghost use Rattle.pywr.specs.Store.{Store};
ghost use Rattle.step_row_bounds.specs.SameRuns.{SameRuns};
ghost use Rattle.step_node_rows.specs.NodeConstraintBounds.{over, VaryingWritten, NodeRowFits, VaryingFit};
ghost use Rattle.step_rows.specs.ConstraintBounds.{store_of, StepRuns, StepWritten, HasRuns, HeldIn, binary_rows_updated};

use layout::{
    AGGREGATE_COUNT_AT, AGGREGATE_WIDTH, AGGREGATES_AT, AGGREGATES_HELD_AT,
    VIRTUAL_STORAGE_COUNT_AT, VIRTUAL_STORAGE_WIDTH, VIRTUAL_STORAGES_AT, VIRTUAL_STORAGES_HELD_AT,
};
use step_node_rows::{reset_binary_rows, update_coefficients, update_node_constraint_bounds};
use step_row_bounds::{StoreRows, apply_intervals, reset_row_bounds};

// The binary rows: reset, then with the step's coefficients.
fn update_binary_rows(store: &mut StoreRows<'_>, work: &[f64])
    requires { (row_ceiling ≤ length store.old.row_lower.now) × (row_ceiling ≤ length store.old.row_upper.now) × (element_ceiling ≤ length store.old.elements.now)
        × (step_work_length ≤ length work.now) × VaryingFit store.old.columns.now store.old.row_starts.now store.old.shape.now × (node_rows_in store.old.shape.now ≤ node_row_ceiling)
        × ((k : ℕ) → k < node_rows_in store.old.shape.now → NodeRowFits store.old.columns.now store.old.row_starts.now store.old.shape.now (node_rows_at + node_row_width * k)) }
    ensures rows { (s : Store) (rows : List Row)
        → VaryingWritten (over s store.old.columns.now store.old.row_starts.now store.old.shape.now) rows
        store.old.row_lower.now store.old.row_upper.now store.old.elements.now
        → VaryingWritten (over s store.old.columns.now store.old.row_starts.now store.old.shape.now)
        (binary_rows_updated (over s store.old.columns.now store.old.row_starts.now store.old.shape.now) work.now rows)
        store.new.row_lower.now store.new.row_upper.now store.new.elements.now }
    ensures same { SameRuns store.old store.new }
{
    reset_binary_rows(store);
    update_coefficients(store, work);
}

pub fn update_constraint_bounds(store: &mut StoreRows<'_>, work: &[f64])
    requires { StepRuns (store_of store.old.row_lower.now store.old.row_upper.now store.old.elements.now store.old.columns.now store.old.row_starts.now store.old.shape.now) work.now }
    ensures rows { (s : Store) (i : Intervals)
        → HasRuns s store.old.row_lower.now store.old.row_upper.now store.old.elements.now store.old.columns.now store.old.row_starts.now store.old.shape.now
        → HeldIn s work.now i
        → StepWritten s i store.new.row_lower.now store.new.row_upper.now store.new.elements.now }
    ensures same { SameRuns store.old store.new }
{
    reset_row_bounds(store);
    update_node_constraint_bounds(store, work);
    let aggregates = usize::from(store.shape[AGGREGATE_COUNT_AT]);
    apply_intervals(
        store,
        AGGREGATES_AT,
        AGGREGATE_WIDTH,
        aggregates,
        work,
        AGGREGATES_HELD_AT,
    );
    let virtual_storages = usize::from(store.shape[VIRTUAL_STORAGE_COUNT_AT]);
    apply_intervals(
        store,
        VIRTUAL_STORAGES_AT,
        VIRTUAL_STORAGE_WIDTH,
        virtual_storages,
        work,
        VIRTUAL_STORAGES_HELD_AT,
    );
    update_binary_rows(store, work);
}
