// What C and Rust programs call. A slice crosses as a pointer and a length, an answer as its numbers.
#![tactic(auto)]

ghost use Rattle.pywr_c_answers.specs.Crossing.{picked, BuildCrossed, StepCrossed, RowCrossed};

use pywr_c_answers::{Refusal, RowPart, part_of, sentinel};

// The build: the high sentinel is infinity, or the largest finite double.
#[unsafe(no_mangle)]
pub extern "C" fn pywr_build(
    file: &[u8],
    infinite: bool,
    col_lower: &mut [f64],
    col_upper: &mut [f64],
    col_obj_coef: &mut [f64],
    row_lower: &mut [f64],
    row_upper: &mut [f64],
    elements: &mut [f64],
    columns: &mut [u16],
    row_starts: &mut [u32],
    shape: &mut [u16],
    words: &mut [u16],
    numbers: &mut [f64],
) -> Refusal
    ensures { BuildCrossed (picked infinite) file.now (record {
      col_lower = col_lower.old;
      col_upper = col_upper.old;
      col_obj_coef = col_obj_coef.old;
      row_lower = row_lower.old;
      row_upper = row_upper.old;
      elements = elements.old;
      columns = columns.old;
      row_starts = row_starts.old;
      shape = shape.old;
    }) words.old numbers.old result.number result.place (record {
      col_lower = col_lower.new;
      col_upper = col_upper.new;
      col_obj_coef = col_obj_coef.new;
      row_lower = row_lower.new;
      row_upper = row_upper.new;
      elements = elements.new;
      columns = columns.new;
      row_starts = row_starts.new;
      shape = shape.new;
    }) words.new numbers.new }
{
    let answer = builder::build(
        file,
        sentinel(infinite),
        col_lower,
        col_upper,
        col_obj_coef,
        row_lower,
        row_upper,
        elements,
        columns,
        row_starts,
        shape,
        words,
        numbers,
    );
    Refusal::from(answer)
}

// The step.
#[unsafe(no_mangle)]
pub extern "C" fn pywr_step(
    file: &[u8],
    col_lower: &[f64],
    col_upper: &[f64],
    col_obj_coef: &mut [f64],
    row_lower: &mut [f64],
    row_upper: &mut [f64],
    elements: &mut [f64],
    columns: &[u16],
    row_starts: &[u32],
    shape: &[u16],
    work: &mut [f64],
) -> Refusal
    ensures { StepCrossed file.now (record {
      col_lower = col_lower.now;
      col_upper = col_upper.now;
      col_obj_coef = col_obj_coef.old;
      row_lower = row_lower.old;
      row_upper = row_upper.old;
      elements = elements.old;
      columns = columns.now;
      row_starts = row_starts.now;
      shape = shape.now;
    }) work.old result.number result.place (record {
      col_lower = col_lower.now;
      col_upper = col_upper.now;
      col_obj_coef = col_obj_coef.new;
      row_lower = row_lower.new;
      row_upper = row_upper.new;
      elements = elements.new;
      columns = columns.now;
      row_starts = row_starts.now;
      shape = shape.now;
    }) work.new }
{
    let answer = built_solver::step(
        file,
        col_lower,
        col_upper,
        col_obj_coef,
        row_lower,
        row_upper,
        elements,
        columns,
        row_starts,
        shape,
        work,
    );
    Refusal::from(answer)
}

// Where a row's columns stand in the column run.
#[unsafe(no_mangle)]
pub extern "C" fn pywr_row(
    col_lower: &[f64],
    col_upper: &[f64],
    col_obj_coef: &[f64],
    row_lower: &[f64],
    row_upper: &[f64],
    elements: &[f64],
    columns: &[u16],
    row_starts: &[u32],
    shape: &[u16],
    row: usize,
) -> RowPart
    ensures { RowCrossed (record {
      col_lower = col_lower.now;
      col_upper = col_upper.now;
      col_obj_coef = col_obj_coef.now;
      row_lower = row_lower.now;
      row_upper = row_upper.now;
      elements = elements.now;
      columns = columns.now;
      row_starts = row_starts.now;
      shape = shape.now;
    }) row result.number result.place result.start result.length }
{
    let answer = store::row_answer(
        col_lower,
        col_upper,
        col_obj_coef,
        row_lower,
        row_upper,
        elements,
        columns,
        row_starts,
        shape,
        row,
    );
    part_of(answer)
}
