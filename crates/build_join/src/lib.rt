// A varying row asked for (LpBuilder::add_variable_row of builder.rs): where an equal row stands among the rows made so far, else the row appended.
// In specs/ and proofs/ also rows asked for in turn, which the makers of varying rows share.
#![tactic(auto)]

ghost use Rattle.std.specs.Prelude.{◌≡◌, List, [], map, ◌+◌, ◌<◌, ◌≤◌, length, get_or, drop, OnErr};
ghost use Rattle.layout.specs.Layout.{column_ceiling, words_length, elements_made_at, numbers_length};
ghost use Rattle.pywr.specs.VariableRows.{same_row, position};
ghost use Rattle.pywr.specs.Programme.{Row};
ghost use Rattle.build_row.specs.RowBuilder.{gathered, Rising};
ghost use Rattle.build_append.specs.LpBuilder.{element_lists, RowsHeld, Holding, SameRuns};
ghost use Rattle.pywr.specs.Rows.{Element};
ghost use Rattle.pywr.specs.VaryingRows.{fresh_row};
ghost use Rattle.build_join.specs.VariableRow.{AfterVariableRow, placed_then};
ghost use Rattle.layout.specs.WorkRoom.{WorkRoom};

use build_append::{Filled, LpBuilder};
use build_exclusive_sets::ProgrammeFull;
use layout::{COLUMN_CEILING, ELEMENTS_MADE_AT, STARTS_MADE_AT};
use pywr::ColumnNumber;

// Whether the n elements from `at` on stand on the gathered row's columns and equal its elements, which stand from `from` on.
fn same_elements(
    words: &[u16],
    numbers: &[f64],
    columns: &[ColumnNumber],
    n: usize,
    at: usize,
    from: usize,
) -> bool
    requires { (at + n ≤ length words.now) × (elements_made_at + at + n ≤ length numbers.now) × (n ≤ length columns.now) × (elements_made_at + from + n ≤ length numbers.now) }
    ensures { result ≡ same_row (gathered (drop at words.now) (drop (elements_made_at + at) numbers.now) n)
        (gathered columns.now (drop (elements_made_at + from) numbers.now) n) }
{
    for i in 0..n {
        if words[at + i] != columns[i] {
            return false;
        }
        if numbers[ELEMENTS_MADE_AT + at + i] != numbers[ELEMENTS_MADE_AT + from + i] {
            return false;
        }
    }
    true
}

// Whether row k equals the gathered row.
fn same_row(
    words: &[u16],
    numbers: &[f64],
    columns: &[ColumnNumber],
    n: usize,
    f: Filled,
    k: usize,
) -> bool
    requires { WorkRoom words.now numbers.now × (n ≤ column_ceiling) × (n ≤ length columns.now) × (k < f.rows) × Holding words.now numbers.now f }
    ensures { (rows : List Row) → RowsHeld rows words.now numbers.now f
        → result ≡ same_row (get_or (element_lists rows) k []) (gathered columns.now (drop (elements_made_at + f.elements) numbers.now) n) }
{
    let at = usize::from(words[STARTS_MADE_AT + k]);
    let end = usize::from(words[STARTS_MADE_AT + k + 1]);
    if end - at != n {
        return false;
    }
    same_elements(words, numbers, columns, n, at, f.elements)
}

// Where the first row that equals the gathered row stands; the count of rows if there is none.
pub fn position(
    words: &[u16],
    numbers: &[f64],
    columns: &[ColumnNumber; COLUMN_CEILING],
    n: usize,
    f: Filled,
) -> usize
    requires { WorkRoom words.now numbers.now × (n ≤ column_ceiling) × Holding words.now numbers.now f }
    ensures { (rows : List Row) → RowsHeld rows words.now numbers.now f
        → result ≡ position (gathered columns.now (drop (elements_made_at + f.elements) numbers.now) n) (element_lists rows) }
{
    for k in 0..f.rows {
        if same_row(words, numbers, columns, n, f, k) {
            return k;
        }
    }
    f.rows
}

// The same of a builder.
fn gathered_position(lp: &LpBuilder<'_>, n: usize) -> usize
    requires { WorkRoom lp.now.words.now lp.now.numbers.now × (n ≤ column_ceiling) × Holding lp.now.words.now lp.now.numbers.now lp.now.filled }
    ensures { (rows : List Row) → RowsHeld rows lp.now.words.now lp.now.numbers.now lp.now.filled
        → result ≡ position (gathered lp.now.columns (drop (elements_made_at + lp.now.filled.elements) lp.now.numbers.now) n) (element_lists rows) }
{
    position(lp.words, lp.numbers, &lp.columns, n, lp.filled)
}

// A varying row is asked for: an equal one that stands already serves, else the gathered row becomes the last row. Answers the row's number.
pub fn add_variable_row(lp: &mut LpBuilder<'_>, n: usize) -> Result<usize, ProgrammeFull>
    requires { WorkRoom lp.old.words.now lp.old.numbers.now × (n ≤ column_ceiling) × Rising lp.old.columns n × Holding lp.old.words.now lp.old.numbers.now lp.old.filled }
    ensures row { (rows : List (List Element)) → RowsHeld (map (fresh_row lp.old.sentinel) rows) lp.old.words.now lp.old.numbers.now lp.old.filled
        → AfterVariableRow lp.old.sentinel rows (gathered lp.old.columns (drop (elements_made_at + lp.old.filled.elements) lp.old.numbers.now) n)
        lp.old.words.now (placed_then result lp.new.filled) lp.new.words.now lp.new.numbers.now }
    ensures same { SameRuns lp.old lp.new }
    ensures gathered { lp.new.columns ≡ lp.old.columns }
    ensures full { OnErr result (lp.new.filled ≡ lp.old.filled) }
{
    let k = gathered_position(lp, n);
    if k < lp.filled.rows {
        return Ok(k);
    }
    let bounds = pywr::Interval {
        lower: 0.0,
        upper: lp.sentinel.high(),
    };
    lp.add_fixed_row(n, bounds)?;
    Ok(k)
}
