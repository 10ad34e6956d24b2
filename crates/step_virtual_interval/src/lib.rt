// The interval of a virtual storage on the date of a step (virtual_storage.rs).
#![tactic(auto)]

ghost use Rattle.std.specs.Prelude.{◌≡◌, ◌+◌, ◌≤◌, length};
ghost use Rattle.layout.specs.Layout.{virtual_storage_width};
ghost use Rattle.step_record.specs.Check.{days_offset, virtual_storage_step_length};
ghost use Rattle.step_file.specs.Decoded.{virtual_storage_step_at};
ghost use Rattle.step_virtual_interval.specs.VirtualInterval.{virtual_interval_at};

use pywr::{Interval, NodeBounds, Sentinel};
use step_period::MonthDay;

// The available and missing volume of the virtual storage whose record stands at `at`.
#[tactic(auto, unfolding(step_file::specs::Decoded::virtual_storage_step_at))]
fn bounds_at(file: &[u8], at: usize) -> NodeBounds
    requires { at + virtual_storage_step_length ≤ length file.now }
    ensures { result ≡ virtual_storage_step_at file.now at }
{
    let min = step_fields::virtual_min(file, at);
    let max = step_fields::virtual_max(file, at);
    let volume = step_fields::virtual_volume(file, at);
    step_bounds::virtual_bounds(min, max, volume)
}

// A virtual storage's interval on the step's date; both sentinels outside its period.
#[tactic(auto, unfolding(crate::specs::VirtualInterval::virtual_interval_at, pywr::specs::Period::virtual_interval))]
pub fn virtual_storage_interval(
    file: &[u8],
    shape: &[u16],
    place: usize,
    at: usize,
    days: f64,
    sentinel: Sentinel,
) -> Interval
    requires { (days_offset ≤ length file.now) × (at + virtual_storage_step_length ≤ length file.now) × (place + virtual_storage_width ≤ length shape.now) }
    ensures { result ≡ virtual_interval_at sentinel days shape.now file.now place at }
{
    let month = step_fields::month(file);
    let day = step_fields::day(file);
    if step_period::is_active_at(shape, place, MonthDay { month, day }) {
        step_bounds::interval_of(days, bounds_at(file, at))
    } else {
        step_bounds::sentinels(sentinel)
    }
}
