// The checks of a step: the room of the runs lent (16), then the store's shape and the file (17, 12 and 13, 14 and 21).
#![tactic(auto)]

ghost use Rattle.std.specs.Prelude.{◌≡◌, ◌≤◌, List, length, Float};
ghost use Rattle.layout.specs.Layout.{element_ceiling, row_starts_length, shape_length, step_work_length};
ghost use Rattle.pywr.specs.Store.{Store};
ghost use Rattle.pywr.specs.Calls.{step_room};
ghost use Rattle.store.specs.Reading.{Lengths};
ghost use Rattle.step_checks.specs.Judged.{Judged};

use layout::STEP_WORK_LENGTH;
use pywr::{Answer, Reason};

// Whether runs of these lengths have the room that the ceilings need.
#[tactic(auto, unfolding(pywr::specs::Calls::step_room))]
pub fn has_room(
    col_lower: usize,
    col_upper: usize,
    col_obj_coef: usize,
    row_lower: usize,
    row_upper: usize,
    elements: usize,
    columns: usize,
    row_starts: usize,
    shape: usize,
    work: usize,
) -> bool
    ensures { (s : Store) (x : List Float) → Lengths s col_lower col_upper col_obj_coef row_lower row_upper elements columns row_starts shape
        → length x ≡ work → result ≡ step_room s x }
{
    store::has_room(
        col_lower,
        col_upper,
        col_obj_coef,
        row_lower,
        row_upper,
        elements,
        columns,
        row_starts,
        shape,
    ) & (STEP_WORK_LENGTH <= work)
}

// Judges a step file on a store with room: 17, 12 and 13, then 14 and 21. The intervals of an accepted file stand in the work run.
// A good file is walked once; where the walk stops, the file is read anew for its refusal.
pub fn judge(
    file: &[u8],
    columns: &[u16],
    row_starts: &[u32],
    shape: &[u16],
    work: &mut [f64],
) -> Answer
    requires { (element_ceiling ≤ length columns.now) × (row_starts_length ≤ length row_starts.now) × (shape_length ≤ length shape.now) × (step_work_length ≤ length work.old) }
    ensures { (s : Store) → s.columns ≡ columns.now → s.row_starts ≡ row_starts.now → s.shape ≡ shape.now
        → Judged s file.now result work.new }
{
    if !store::well_shaped(columns, row_starts, shape) {
        return Err(Reason::MisshapenStore.at(0));
    }
    if step_walk::walk_file(file, shape, work) {
        return Ok(());
    }
    step_file::read_step(file, shape)?;
    step_intervals::find_intervals(file, shape, work)
}
