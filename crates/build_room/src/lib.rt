// The room that a build needs, and the work area zeroed.
#![tactic(auto)]

ghost use Rattle.std.specs.Prelude.{◌≡◌, ℕ, List, length, replicate, Float};
ghost use Rattle.pywr.specs.Numbers.{zero64};
ghost use Rattle.pywr.specs.Store.{Store};
ghost use Rattle.pywr.specs.Calls.{build_room};
ghost use Rattle.store.specs.Reading.{Lengths};

use layout::{NUMBERS_LENGTH, WORDS_LENGTH};

// Whether runs of these lengths have the room that the ceilings need.
pub fn build_has_room(
    col_lower: usize,
    col_upper: usize,
    col_obj_coef: usize,
    row_lower: usize,
    row_upper: usize,
    elements: usize,
    columns: usize,
    row_starts: usize,
    shape: usize,
    words: usize,
    numbers: usize,
) -> bool
    ensures { (s : Store) (w : List ℕ) (x : List Float) → Lengths s col_lower col_upper col_obj_coef row_lower row_upper elements columns row_starts shape
        → length w ≡ words → length x ≡ numbers → result ≡ build_room s w x }
{
    store::has_room(
        col_lower,
        col_upper,
        col_obj_coef,
        row_lower,
        row_upper,
        elements,
        columns,
        row_starts,
        shape,
    ) & (WORDS_LENGTH <= words)
        & (NUMBERS_LENGTH <= numbers)
}

// Zeroes the work area.
pub fn clear(words: &mut [u16], numbers: &mut [f64])
    ensures { (words.new ≡ replicate (length words.old) 0) × (numbers.new ≡ replicate (length numbers.old) zero64) }
{
    runs::fill_whole(words, 0);
    runs::fill_whole(numbers, 0.0);
}
