// The build: a network file's programme written into a lent store (SolverBuilder::create of builder.rs).
#![tactic(auto)]

ghost use Rattle.pywr.specs.Calls.{AfterBuild};

use pywr::{Answer, Reason, Sentinel};

// Writes the programme of a network file into the store, or refuses with 1 to 11, 16, 19 or 20.
pub fn build(
    file: &[u8],
    sentinel: Sentinel,
    col_lower: &mut [f64],
    col_upper: &mut [f64],
    col_obj_coef: &mut [f64],
    row_lower: &mut [f64],
    row_upper: &mut [f64],
    elements: &mut [f64],
    columns: &mut [u16],
    row_starts: &mut [u32],
    shape: &mut [u16],
    words: &mut [u16],
    numbers: &mut [f64],
) -> Answer
    ensures { AfterBuild sentinel file.now (record {
      col_lower = col_lower.old;
      col_upper = col_upper.old;
      col_obj_coef = col_obj_coef.old;
      row_lower = row_lower.old;
      row_upper = row_upper.old;
      elements = elements.old;
      columns = columns.old;
      row_starts = row_starts.old;
      shape = shape.old;
    }) words.old numbers.old result (record {
      col_lower = col_lower.new;
      col_upper = col_upper.new;
      col_obj_coef = col_obj_coef.new;
      row_lower = row_lower.new;
      row_upper = row_upper.new;
      elements = elements.new;
      columns = columns.new;
      row_starts = row_starts.new;
      shape = shape.new;
    }) words.new numbers.new }
{
    if !build_room::build_has_room(
        col_lower.len(),
        col_upper.len(),
        col_obj_coef.len(),
        row_lower.len(),
        row_upper.len(),
        elements.len(),
        columns.len(),
        row_starts.len(),
        shape.len(),
        words.len(),
        numbers.len(),
    ) {
        return Err(Reason::ShortBuffer.at(0));
    }
    match build_programme::assemble(file, sentinel, words, numbers) {
        Ok(z) => {
            build_write::write_columns(z, sentinel, col_lower, col_upper, col_obj_coef);
            build_write::write_rows(z, numbers, row_lower, row_upper);
            build_write::write_matrix(z, words, numbers, elements, columns, row_starts);
            build_write::write_shape(z, words, shape);
            build_room::clear(words, numbers);
            Ok(())
        }
        Err(refusal) => {
            build_room::clear(words, numbers);
            Err(refusal)
        }
    }
}
