// The nine runs of a store as one value, for a program that holds one store: the build, the step, the listing and the rows' makers over it.
#![tactic(auto)]

ghost use Rattle.std.specs.Prelude.{◌≡◌, length, OnOk};
ghost use Rattle.std.specs.Io.KnownBytes.{Appends};
ghost use Rattle.pywr.specs.Cases.{blank};
ghost use Rattle.listing.specs.Listing.{programme_text};
ghost use Rattle.program_store.specs.ProgramStore.{store_of, Built, Stepped, answer_text, makers_answer_text, maker_answer_text};

use layout::{
    COLUMN_CEILING, ELEMENT_CEILING, NUMBERS_LENGTH, ROW_CEILING, ROW_STARTS_LENGTH, SHAPE_LENGTH,
    STEP_WORK_LENGTH, WORDS_LENGTH,
};
use listing::Output;
use listing_stored::StoreView;
use pywr::{Answer, Sentinel};
use std::io::Write;

#[derive(Drop)]
pub struct Runs {
    pub col_lower: [f64; COLUMN_CEILING],
    pub col_upper: [f64; COLUMN_CEILING],
    pub col_obj_coef: [f64; COLUMN_CEILING],
    pub row_lower: [f64; ROW_CEILING],
    pub row_upper: [f64; ROW_CEILING],
    pub elements: [f64; ELEMENT_CEILING],
    pub columns: [u16; ELEMENT_CEILING],
    pub row_starts: [u32; ROW_STARTS_LENGTH],
    pub shape: [u16; SHAPE_LENGTH],
}

impl Runs {
    pub fn zeros() -> Runs
        ensures { store_of result ≡ blank }
    {
        Runs {
            col_lower: [0.0; COLUMN_CEILING],
            col_upper: [0.0; COLUMN_CEILING],
            col_obj_coef: [0.0; COLUMN_CEILING],
            row_lower: [0.0; ROW_CEILING],
            row_upper: [0.0; ROW_CEILING],
            elements: [0.0; ELEMENT_CEILING],
            columns: [0; ELEMENT_CEILING],
            row_starts: [0; ROW_STARTS_LENGTH],
            shape: [0; SHAPE_LENGTH],
        }
    }

    // Builds the network of a file.
    pub fn build(&mut self, file: &[u8], sentinel: Sentinel) -> Answer
        ensures { Built sentinel file.now (store_of self.old) result (store_of self.new) }
    {
        let mut words = [0u16; WORDS_LENGTH];
        let mut numbers = [0.0; NUMBERS_LENGTH];
        builder::build(
            file,
            sentinel,
            &mut self.col_lower,
            &mut self.col_upper,
            &mut self.col_obj_coef,
            &mut self.row_lower,
            &mut self.row_upper,
            &mut self.elements,
            &mut self.columns,
            &mut self.row_starts,
            &mut self.shape,
            &mut words,
            &mut numbers,
        )
    }

    // Runs a step file.
    pub fn step(&mut self, file: &[u8]) -> Answer
        ensures { Stepped file.now (store_of self.old) result (store_of self.new) }
    {
        let mut work = [0.0; STEP_WORK_LENGTH];
        built_solver::step(
            file,
            &self.col_lower,
            &self.col_upper,
            &mut self.col_obj_coef,
            &mut self.row_lower,
            &mut self.row_upper,
            &mut self.elements,
            &self.columns,
            &self.row_starts,
            &self.shape,
            &mut work,
        )
    }

    // Lists the programme.
    pub fn list<W: Write>(&self, writer: &mut W) -> Output
        ensures bytes { result.bytes ≡ length (programme_text (store_of self.now)) }
        ensures text { OnOk result.written (Appends (W.contents writer.old) (W.contents writer.new) (programme_text (store_of self.now))) }
    {
        let store = StoreView {
            col_lower: &self.col_lower,
            col_upper: &self.col_upper,
            col_obj_coef: &self.col_obj_coef,
            row_lower: &self.row_lower,
            row_upper: &self.row_upper,
            elements: &self.elements,
            columns: &self.columns,
            row_starts: &self.row_starts,
            shape: &self.shape,
        };
        listing::list_programme(writer, &store)
    }

    // Lists what a call answered: the programme after it, or the refusal.
    pub fn list_answer<W: Write>(&self, writer: &mut W, answer: Answer) -> Output
        ensures bytes { result.bytes ≡ length (answer_text answer (store_of self.now)) }
        ensures text { OnOk result.written (Appends (W.contents writer.old) (W.contents writer.new) (answer_text answer (store_of self.now))) }
    {
        match answer {
            Ok(()) => self.list(writer),
            Err(refusal) => listing::list_refusal(writer, refusal),
        }
    }

    // Names every row by its maker after a call, or says the refusal.
    pub fn name_answer<W: Write>(&self, writer: &mut W, answer: Answer) -> Output
        ensures bytes { result.bytes ≡ length (makers_answer_text answer (store_of self.now)) }
        ensures text { OnOk result.written (Appends (W.contents writer.old) (W.contents writer.new) (makers_answer_text answer (store_of self.now))) }
    {
        match answer {
            Ok(()) => listing_makers::list_makers(writer, &self.shape),
            Err(refusal) => listing::list_refusal(writer, refusal),
        }
    }

    // Names one row by its maker after a call, or says the refusal: of the call, or of a row that is not there.
    pub fn name_row_answer<W: Write>(&self, writer: &mut W, answer: Answer, row: usize) -> Output
        ensures bytes { result.bytes ≡ length (maker_answer_text answer (store_of self.now) row) }
        ensures text { OnOk result.written (Appends (W.contents writer.old) (W.contents writer.new) (maker_answer_text answer (store_of self.now) row)) }
    {
        match answer {
            Ok(()) => listing_makers::list_maker(writer, &self.shape, row),
            Err(refusal) => listing::list_refusal(writer, refusal),
        }
    }
}
