// Row bounds of a step: varying rows reset to the sentinels, a row's bounds set or tightened by an interval (reset_row_bounds and apply_row_bounds of
// builder.rs).
#![tactic(auto)]

ghost use Rattle.std.specs.Prelude.{◌≡◌, ◌+◌, ◌<◌, ◌≤◌, List, map, length, Float};
ghost use Rattle.layout.specs.Layout.{row_ceiling, shape_length, sentinel_in, varying_in, entry_row, uppers_at, step_work_length};
ghost use Rattle.pywr.specs.Interval.{tighten, sentinels};
ghost use Rattle.pywr.specs.Programme.{Row};
ghost use Rattle.pywr.specs.Store.{sentinel_of, entries};
ghost use Rattle.pywr.specs.Step.{with_bounds, apply_intervals};
ghost use Rattle.step_work.specs.WorkRun.{held_at, held_from};
ghost use Rattle.step_row_bounds.specs.SameRuns.{BoundsAlone};
ghost use Rattle.step_row_bounds.specs.RowBounds.{BoundsWritten, RowSet, RowTightened, RowTable};

use extremes::{greater, lesser};
use layout::{UPPERS_AT, VARYING_COUNT_AT};
use pywr::Interval;
use store_shape::kept_sentinel;

// The runs whose rows a step writes, and the tables that it reads.
#[derive(Drop)]
pub struct StoreRows<'a> {
    pub row_lower: &'a mut [f64],
    pub row_upper: &'a mut [f64],
    pub elements: &'a mut [f64],
    pub columns: &'a [u16],
    pub row_starts: &'a [u32],
    pub shape: &'a [u16],
}

// Interval k of a step's work run.
pub fn held_interval(work: &[f64], k: usize) -> Interval
    requires { (step_work_length ≤ length work.now) × (k < uppers_at) }
    ensures { result ≡ held_at work.now k }
{
    Interval {
        lower: work[k],
        upper: work[UPPERS_AT + k],
    }
}

// Every varying row's bounds become the store's sentinels.
pub fn reset_row_bounds(store: &mut StoreRows<'_>)
    requires { (shape_length ≤ length store.old.shape.now) × (varying_in store.old.shape.now ≤ row_ceiling)
        × (row_ceiling ≤ length store.old.row_lower.now) × (row_ceiling ≤ length store.old.row_upper.now) }
    ensures rows { (rows : List Row) → length rows ≡ varying_in store.old.shape.now
        → BoundsWritten (map (with_bounds (sentinels (sentinel_of (sentinel_in store.old.shape.now)))) rows)
        store.old.row_lower.now store.old.row_upper.now store.new.row_lower.now store.new.row_upper.now }
    ensures alone { BoundsAlone store.old store.new }
{
    let sentinel = kept_sentinel(store.shape);
    let rows = usize::from(store.shape[VARYING_COUNT_AT]);
    runs::fill(store.row_lower, 0, rows, sentinel.low());
    runs::fill(store.row_upper, 0, rows, sentinel.high());
}

fn tighten(held: Interval, by: Interval) -> Interval
    ensures { result ≡ tighten held by }
{
    Interval {
        lower: greater(held.lower, by.lower),
        upper: lesser(held.upper, by.upper),
    }
}

// A row's bounds become the interval's.
pub fn set_row_bounds(store: &mut StoreRows<'_>, row: usize, bounds: Interval)
    requires { (row < length store.old.row_lower.now) × (row < length store.old.row_upper.now) }
    ensures row { RowSet row bounds store.old.row_lower.now store.old.row_upper.now store.new.row_lower.now store.new.row_upper.now }
    ensures alone { BoundsAlone store.old store.new }
{
    store.row_lower[row] = bounds.lower;
    store.row_upper[row] = bounds.upper;
}

// A row's bounds tightened by an interval: a looser bound is ignored.
pub fn apply_row_bounds(store: &mut StoreRows<'_>, row: usize, by: Interval)
    requires { (row < length store.old.row_lower.now) × (row < length store.old.row_upper.now) }
    ensures row { RowTightened row by store.old.row_lower.now store.old.row_upper.now store.new.row_lower.now store.new.row_upper.now }
    ensures alone { BoundsAlone store.old store.new }
{
    let held = Interval {
        lower: store.row_lower[row],
        upper: store.row_upper[row],
    };
    set_row_bounds(store, row, tighten(held, by));
}

// The intervals from `first` on, applied one after another to the rows that a table of the shape run names.
pub fn apply_intervals(
    store: &mut StoreRows<'_>,
    table: usize,
    words: usize,
    count: usize,
    work: &[f64],
    first: usize,
)
    requires { RowTable store.old.shape.now table words count × (row_ceiling ≤ length store.old.row_lower.now) × (row_ceiling ≤ length store.old.row_upper.now)
        × (step_work_length ≤ length work.now) × (first + count ≤ uppers_at) }
    ensures rows { (rows : List Row) (lower upper : List Float) → length rows ≡ varying_in store.old.shape.now
        → BoundsWritten rows lower upper store.old.row_lower.now store.old.row_upper.now
        → BoundsWritten (apply_intervals (entries (λ at. entry_row store.old.shape.now at) words table count) (held_from work.now first count) rows)
        lower upper store.new.row_lower.now store.new.row_upper.now }
    ensures alone { BoundsAlone store.old store.new }
{
    for i in 0..count {
        let row = usize::from(store.shape[table + words * i]);
        apply_row_bounds(store, row, held_interval(work, first + i));
    }
}
