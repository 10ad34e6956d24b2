// The node rows of a step, in three passes: bounds of continuous rows, then the binary rows reset, then their coefficients
// (update_node_constraint_bounds and apply_updated_coefficients of builder.rs).
#![tactic(auto)]

ghost use Rattle.std.specs.Prelude.{◌≡◌, List, ℕ, ◌+◌, ◌*◌, ◌<◌, ◌≤◌, length, Float};
ghost use Rattle.layout.specs.Layout.{column_ceiling, node_row_ceiling, row_ceiling, element_ceiling, shape_length, node_rows_at, node_row_width, node_rows_in, edge_columns_in, node_row_type, node_row_set, step_work_length};
ghost use Rattle.pywr.specs.Store.{Store};
ghost use Rattle.step_row_bounds.specs.SameRuns.{SameRuns, BoundsAlone, ElementsAlone};
ghost use Rattle.step_node_rows.specs.NodeConstraintBounds.{over, with_shape, ShapeFits, NodeRowWithin, NodeRowFits, VaryingFit};
ghost use Rattle.step_node_rows.specs.NodeConstraintBounds.{bounds_change, reset_change, coefficient_change, IsRowType, CoefficientGiven, NodeRowDone, NodeRowsDone};

use layout::{
    EDGE_COLUMN_COUNT_AT, NODE_ROW_COUNT_AT, NODE_ROW_ROW, NODE_ROW_SET, NODE_ROW_TYPE,
    NODE_ROW_WIDTH, NODE_ROWS_AT,
};
use pywr::{ColumnIndex, Interval};
use step_coefficients::{lower_coefficient, set_coefficient};
use step_row_bounds::{StoreRows, apply_row_bounds, held_interval, set_row_bounds};
use store_shape::kept_sentinel;

// What a step does to the row of a node row.
#[derive(Clone, Copy)]
enum NodeRowType {
    Continuous,
    BinaryUpper,
    BinaryLower,
}

fn row_type(shape: &[u16], at: usize) -> NodeRowType
    requires { (shape_length ≤ length shape.now) × (at + node_row_width ≤ shape_length) }
    ensures { IsRowType (node_row_type shape.now at) result }
{
    match shape[at + NODE_ROW_TYPE] {
        0 => NodeRowType::Continuous,
        1 => NodeRowType::BinaryUpper,
        _ => NodeRowType::BinaryLower,
    }
}

// A node row whose row is continuous: the node's interval tightens it.
fn update_node_row(store: &mut StoreRows<'_>, work: &[f64], at: usize)
    requires { (row_ceiling ≤ length store.old.row_lower.now) × (row_ceiling ≤ length store.old.row_upper.now) × (step_work_length ≤ length work.now)
        × ShapeFits store.old.shape.now × NodeRowWithin store.old.shape.now at × (at + node_row_width ≤ shape_length) }
    ensures row { (s : Store) (elements : List Float)
        → NodeRowDone (with_shape s store.old.shape.now) (bounds_change work.now) at
        store.old.row_lower.now store.old.row_upper.now elements store.new.row_lower.now store.new.row_upper.now elements }
    ensures alone { BoundsAlone store.old store.new }
{
    let NodeRowType::Continuous = row_type(store.shape, at) else {
        return;
    };
    let by = held_interval(work, usize::from(store.shape[at]));
    let row = usize::from(store.shape[at + NODE_ROW_ROW]);
    apply_row_bounds(store, row, by);
}

// Every node row: the continuous ones tightened.
pub fn update_node_constraint_bounds(store: &mut StoreRows<'_>, work: &[f64])
    requires { (row_ceiling ≤ length store.old.row_lower.now) × (row_ceiling ≤ length store.old.row_upper.now) × (step_work_length ≤ length work.now)
        × ShapeFits store.old.shape.now × (node_rows_in store.old.shape.now ≤ node_row_ceiling)
        × ((k : ℕ) → k < node_rows_in store.old.shape.now → NodeRowWithin store.old.shape.now (node_rows_at + node_row_width * k)) }
    ensures rows { (s : Store) (elements : List Float)
        → NodeRowsDone (with_shape s store.old.shape.now) (bounds_change work.now) (node_rows_in store.old.shape.now)
        store.old.row_lower.now store.old.row_upper.now elements store.new.row_lower.now store.new.row_upper.now elements }
    ensures alone { BoundsAlone store.old store.new }
{
    let node_rows = usize::from(store.shape[NODE_ROW_COUNT_AT]);
    for i in 0..node_rows {
        update_node_row(store, work, NODE_ROWS_AT + NODE_ROW_WIDTH * i);
    }
}

// The integer column of a node row's exclusive set.
fn set_column(shape: &[u16], at: usize) -> ColumnIndex
    requires { (shape_length ≤ length shape.now) × (at + node_row_width ≤ shape_length) × (edge_columns_in shape.now + node_row_set shape.now at < column_ceiling) }
    ensures { result.0 ≡ edge_columns_in shape.now + node_row_set shape.now at }
{
    ColumnIndex(shape[EDGE_COLUMN_COUNT_AT] + shape[at + NODE_ROW_SET])
}

// A node row whose row is binary: its bounds become 0 and the high sentinel, the coefficient on the set's integer column the high sentinel,
// which every coefficient that 21 lets through is under: nothing of the step before is kept.
fn reset_binary_row(store: &mut StoreRows<'_>, at: usize)
    requires { (row_ceiling ≤ length store.old.row_lower.now) × (row_ceiling ≤ length store.old.row_upper.now) × (element_ceiling ≤ length store.old.elements.now)
        × VaryingFit store.old.columns.now store.old.row_starts.now store.old.shape.now × NodeRowFits store.old.columns.now store.old.row_starts.now store.old.shape.now at
        × (at + node_row_width ≤ shape_length) }
    ensures row { (s : Store)
        → NodeRowDone (over s store.old.columns.now store.old.row_starts.now store.old.shape.now) reset_change at
        store.old.row_lower.now store.old.row_upper.now store.old.elements.now store.new.row_lower.now store.new.row_upper.now store.new.elements.now }
    ensures same { SameRuns store.old store.new }
{
    if let NodeRowType::Continuous = row_type(store.shape, at) {
        return;
    }
    let row = usize::from(store.shape[at + NODE_ROW_ROW]);
    let column = set_column(store.shape, at);
    let high = kept_sentinel(store.shape).high();
    let bounds = Interval {
        lower: 0.0,
        upper: high,
    };
    set_row_bounds(store, row, bounds);
    set_coefficient(store, row, column, high);
}

// Every node row: the binary ones reset.
pub fn reset_binary_rows(store: &mut StoreRows<'_>)
    requires { (row_ceiling ≤ length store.old.row_lower.now) × (row_ceiling ≤ length store.old.row_upper.now) × (element_ceiling ≤ length store.old.elements.now)
        × VaryingFit store.old.columns.now store.old.row_starts.now store.old.shape.now × (node_rows_in store.old.shape.now ≤ node_row_ceiling)
        × ((k : ℕ) → k < node_rows_in store.old.shape.now → NodeRowFits store.old.columns.now store.old.row_starts.now store.old.shape.now (node_rows_at + node_row_width * k)) }
    ensures rows { (s : Store)
        → NodeRowsDone (over s store.old.columns.now store.old.row_starts.now store.old.shape.now) reset_change (node_rows_in store.old.shape.now)
        store.old.row_lower.now store.old.row_upper.now store.old.elements.now store.new.row_lower.now store.new.row_upper.now store.new.elements.now }
    ensures same { SameRuns store.old store.new }
{
    let node_rows = usize::from(store.shape[NODE_ROW_COUNT_AT]);
    for i in 0..node_rows {
        reset_binary_row(store, NODE_ROWS_AT + NODE_ROW_WIDTH * i);
    }
}

// The coefficient that an interval gives to a binary row: its upper bound, or minus its lower.
fn coefficient(row_type: NodeRowType, by: Interval) -> Option<f64>
    ensures { (word : ℕ) → IsRowType word row_type → CoefficientGiven word by result }
{
    match row_type {
        NodeRowType::Continuous => None,
        NodeRowType::BinaryUpper => Some(by.upper),
        NodeRowType::BinaryLower => Some(-by.lower),
    }
}

// A node row whose row is binary: the coefficient on the set's integer column becomes the one that the node's interval gives, if that is smaller.
fn update_coefficient(store: &mut StoreRows<'_>, work: &[f64], at: usize)
    requires { (element_ceiling ≤ length store.old.elements.now) × (step_work_length ≤ length work.now)
        × VaryingFit store.old.columns.now store.old.row_starts.now store.old.shape.now × NodeRowFits store.old.columns.now store.old.row_starts.now store.old.shape.now at
        × (at + node_row_width ≤ shape_length) }
    ensures row { (s : Store) (lower upper : List Float)
        → NodeRowDone (over s store.old.columns.now store.old.row_starts.now store.old.shape.now) (coefficient_change work.now) at
        lower upper store.old.elements.now lower upper store.new.elements.now }
    ensures alone { ElementsAlone store.old store.new }
{
    let by = held_interval(work, usize::from(store.shape[at]));
    let Some(value) = coefficient(row_type(store.shape, at), by) else {
        return;
    };
    let row = usize::from(store.shape[at + NODE_ROW_ROW]);
    let column = set_column(store.shape, at);
    lower_coefficient(store, row, column, value);
}

// Every node row: the binary ones given the smallest of the step's coefficients.
pub fn update_coefficients(store: &mut StoreRows<'_>, work: &[f64])
    requires { (element_ceiling ≤ length store.old.elements.now) × (step_work_length ≤ length work.now)
        × VaryingFit store.old.columns.now store.old.row_starts.now store.old.shape.now × (node_rows_in store.old.shape.now ≤ node_row_ceiling)
        × ((k : ℕ) → k < node_rows_in store.old.shape.now → NodeRowFits store.old.columns.now store.old.row_starts.now store.old.shape.now (node_rows_at + node_row_width * k)) }
    ensures rows { (s : Store) (lower upper : List Float)
        → NodeRowsDone (over s store.old.columns.now store.old.row_starts.now store.old.shape.now) (coefficient_change work.now) (node_rows_in store.old.shape.now)
        lower upper store.old.elements.now lower upper store.new.elements.now }
    ensures alone { ElementsAlone store.old store.new }
{
    let node_rows = usize::from(store.shape[NODE_ROW_COUNT_AT]);
    for i in 0..node_rows {
        update_coefficient(store, work, NODE_ROWS_AT + NODE_ROW_WIDTH * i);
    }
}
