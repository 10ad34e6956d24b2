// Bounds of nodes and of virtual storages, and the interval that they are over the days of a step (node.rs, virtual_storage.rs).
#![tactic(auto)]

ghost use Rattle.std.specs.Prelude.{◌≡◌};
ghost use Rattle.pywr.specs.Interval.{sentinels, interval_of, storage_bounds, virtual_bounds};
ghost use Rattle.pywr.specs.StepIntervals.{is_crossed, is_beyond};

use extremes::greater;
use pywr::{Interval, NodeBounds, Sentinel};

// A storage's available and missing volume.
#[tactic(auto, unfolding(pywr::specs::Interval::storage_bounds))]
pub fn storage_bounds(min: f64, max: f64, volume: f64) -> NodeBounds
    ensures { result ≡ storage_bounds min max volume }
{
    NodeBounds::Volume(volume - min, max - volume)
}

// A virtual storage's available and missing volume, each at least 0.0.
pub fn virtual_bounds(min: f64, max: f64, volume: f64) -> NodeBounds
    ensures { result ≡ virtual_bounds min max volume }
{
    let available = greater(volume - min, 0.0);
    let missing = greater(max - volume, 0.0);
    NodeBounds::Volume(available, missing)
}

// Flows are bounds as they are; a volume is spread over the days.
#[tactic(auto, unfolding(pywr::specs::Interval::interval_of))]
pub fn interval_of(days: f64, bounds: NodeBounds) -> Interval
    ensures { result ≡ interval_of days bounds }
{
    match bounds {
        NodeBounds::Flow(least, most) => Interval {
            lower: least,
            upper: most,
        },
        NodeBounds::Volume(available, missing) => Interval {
            lower: -available / days,
            upper: missing / days,
        },
    }
}

// Both sentinels: an interval that binds nothing.
#[tactic(auto, unfolding(pywr::specs::Interval::sentinels))]
pub fn sentinels(sentinel: Sentinel) -> Interval
    ensures { result ≡ sentinels sentinel }
{
    Interval {
        lower: sentinel.low(),
        upper: sentinel.high(),
    }
}

// The lower bound is over the upper.
#[tactic(auto, unfolding(pywr::specs::StepIntervals::is_crossed))]
pub fn is_crossed(i: Interval) -> bool
    ensures { result ≡ is_crossed i }
{
    i.upper < i.lower
}

// A bound at or beyond either sentinel.
#[tactic(auto, unfolding(pywr::specs::StepIntervals::is_beyond))]
pub fn is_beyond(bound: f64, sentinel: Sentinel) -> bool
    ensures { result ≡ is_beyond sentinel bound }
{
    (bound <= sentinel.low()) | (sentinel.high() <= bound)
}
