// The step: a step file's costs, bounds and coefficients written into a lent store (BuiltSolver::update and apply_updated_coefficients of builder.rs).
#![tactic(auto)]

ghost use Rattle.pywr.specs.Calls.{AfterStep};

use pywr::{Answer, Reason};
use step_row_bounds::StoreRows;

// Writes a step file's costs, bounds and coefficients into the store, or refuses with 12 to 14, 16, 17 or 21.
pub fn step(
    file: &[u8],
    col_lower: &[f64],
    col_upper: &[f64],
    col_obj_coef: &mut [f64],
    row_lower: &mut [f64],
    row_upper: &mut [f64],
    elements: &mut [f64],
    columns: &[u16],
    row_starts: &[u32],
    shape: &[u16],
    work: &mut [f64],
) -> Answer
    ensures { AfterStep file.now (record {
      col_lower = col_lower.now;
      col_upper = col_upper.now;
      col_obj_coef = col_obj_coef.old;
      row_lower = row_lower.old;
      row_upper = row_upper.old;
      elements = elements.old;
      columns = columns.now;
      row_starts = row_starts.now;
      shape = shape.now;
    }) work.old result (record {
      col_lower = col_lower.now;
      col_upper = col_upper.now;
      col_obj_coef = col_obj_coef.new;
      row_lower = row_lower.new;
      row_upper = row_upper.new;
      elements = elements.new;
      columns = columns.now;
      row_starts = row_starts.now;
      shape = shape.now;
    }) work.new }
{
    if !step_checks::has_room(
        col_lower.len(),
        col_upper.len(),
        col_obj_coef.len(),
        row_lower.len(),
        row_upper.len(),
        elements.len(),
        columns.len(),
        row_starts.len(),
        shape.len(),
        work.len(),
    ) {
        return Err(Reason::ShortBuffer.at(0));
    }
    let judged = step_checks::judge(file, columns, row_starts, shape, work);
    if judged.is_ok() {
        let mut rows = StoreRows {
            row_lower,
            row_upper,
            elements,
            columns,
            row_starts,
            shape,
        };
        step_update::update(file, col_obj_coef, &mut rows, work);
    }
    runs::fill_whole(work, 0.0);
    judged
}
