// The rows of a programme in the making (LpBuilder of builder.rs): a row becomes the last row. In proofs/ also rows that are appended in turn.
#![tactic(auto)]

ghost use Rattle.std.specs.Prelude.{◌≡◌, List, [], ◌∷◌, ◌++◌, ◌+◌, ◌<◌, ◌≤◌, length, take, drop, Float, OnErr};
ghost use Rattle.std.proofs.lemmas.List.Edits.{sets};
ghost use Rattle.layout.specs.Layout.{column_ceiling, row_ceiling, element_ceiling, shape_made_at, words_length, elements_made_at, numbers_length};
ghost use Rattle.pywr.specs.Programme.{Row};
ghost use Rattle.build_row.specs.RowBuilder.{gathered, Rising};
ghost use Rattle.build_append.specs.LpBuilder.{RowsHeld, AfterRows, filled_then, SameRuns};
ghost use Rattle.layout.specs.WorkRoom.{WorkRoom};

use build_exclusive_sets::ProgrammeFull;
use layout::{COLUMN_CEILING, ELEMENT_CEILING, ROW_CEILING, STARTS_MADE_AT, UPPERS_MADE_AT};
use pywr::{ColumnNumber, Sentinel};

// How many rows and elements the work runs hold.
#[derive(Clone, Copy)]
pub struct Filled {
    pub rows: usize,
    pub elements: usize,
}

// No rows yet.
pub fn start_rows(words: &mut [u16])
    requires { words_length ≤ length words.old }
    ensures { ((numbers : List Float) → RowsHeld [] words.new numbers (record { rows = 0; elements = 0 }))
        × (drop shape_made_at words.new ≡ drop shape_made_at words.old) }
{
    words[STARTS_MADE_AT] = 0;
}

// The first n column numbers, put into words from `at` on.
fn put_columns(words: &mut [u16], at: usize, columns: &[ColumnNumber], n: usize)
    requires { (at + n ≤ length words.old) × (n ≤ length columns.now) × Rising columns.now n }
    ensures { words.new ≡ sets words.old at (take n columns.now) }
{
    runs::copy(words, at, columns, 0, n);
}

// The programme in the making, in the work runs of a build: `columns` is where a row is gathered, whose elements lie in `numbers` behind the last row's.
#[derive(Drop)]
pub struct LpBuilder<'a> {
    pub words: &'a mut [u16],
    pub numbers: &'a mut [f64],
    pub columns: [ColumnNumber; COLUMN_CEILING],
    pub filled: Filled,
    pub sentinel: Sentinel,
}

impl LpBuilder<'_> {
    // The gathered row of n elements, which are already in place, becomes the last row.
    pub fn add_fixed_row(&mut self, n: usize, bounds: pywr::Interval) -> Result<(), ProgrammeFull>
        requires { WorkRoom self.old.words.now self.old.numbers.now × (n ≤ column_ceiling) × (self.old.filled.rows ≤ row_ceiling)
            × (self.old.filled.elements ≤ element_ceiling) × Rising self.old.columns n }
        ensures rows { (rows : List Row) → RowsHeld rows self.old.words.now self.old.numbers.now self.old.filled
            → AfterRows (rows ++ (record { lower = bounds.lower; upper = bounds.upper; elements = gathered self.old.columns (drop (elements_made_at + self.old.filled.elements) self.old.numbers.now) n } ∷ []))
            self.old.words.now (filled_then result self.new.filled) self.new.words.now self.new.numbers.now }
        ensures same { SameRuns self.old self.new }
        ensures gathered { self.new.columns ≡ self.old.columns }
        ensures full { OnErr result (self.new.filled ≡ self.old.filled) }
    {
        let rows = self.filled.rows;
        let elements = self.filled.elements;
        if ROW_CEILING <= rows {
            return Err(ProgrammeFull);
        }
        if ELEMENT_CEILING < elements + n {
            return Err(ProgrammeFull);
        }
        put_columns(self.words, elements, &self.columns, n);
        self.words[STARTS_MADE_AT + rows + 1] = (elements + n) as u16;
        self.numbers[rows] = bounds.lower;
        self.numbers[UPPERS_MADE_AT + rows] = bounds.upper;
        self.filled = Filled {
            rows: rows + 1,
            elements: elements + n,
        };
        Ok(())
    }
}
