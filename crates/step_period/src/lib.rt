// The active period of a virtual storage (VirtualStorageActivePeriod of virtual_storage.rs).
#![tactic(auto)]

ghost use Rattle.std.specs.Prelude.{◌≡◌, ◌+◌, ◌≤◌, length};
ghost use Rattle.layout.specs.Layout.{virtual_storage_width};
ghost use Rattle.pywr.specs.Period.{up_to, is_active};
ghost use Rattle.step_period.specs.PeriodAt.{period_of, period_at};

use layout::{PERIOD_END_DAY, PERIOD_END_MONTH, PERIOD_FLAG, PERIOD_START_DAY, PERIOD_START_MONTH};

// A day of the year.
#[derive(Clone, Copy)]
pub struct MonthDay {
    pub month: u16,
    pub day: u16,
}

impl MonthDay {
    // Whether this day is not after another.
    fn up_to(self, last: MonthDay) -> bool
        ensures { result ≡ up_to self.month self.day last.month last.day }
    {
        (self.month < last.month) | ((self.month == last.month) & (self.day <= last.day))
    }
}

// When a virtual storage is active: always, or from one day to another of each year.
#[derive(Clone, Copy)]
pub struct Period {
    pub always: bool,
    pub start: MonthDay,
    pub end: MonthDay,
}

impl Period {
    // The period of the virtual storage whose words stand at `place`: the flag is 0 for always.
    #[tactic(auto, using(std::proofs::lemmas::Bool::Decides::nat_tests), unfolding(crate::specs::PeriodAt::period_at))]
    pub fn at(shape: &[u16], place: usize) -> Period
        requires { place + virtual_storage_width ≤ length shape.now }
        ensures { period_of result ≡ period_at shape.now place }
    {
        Period {
            always: shape[place + PERIOD_FLAG] == 0,
            start: MonthDay {
                month: shape[place + PERIOD_START_MONTH],
                day: shape[place + PERIOD_START_DAY],
            },
            end: MonthDay {
                month: shape[place + PERIOD_END_MONTH],
                day: shape[place + PERIOD_END_DAY],
            },
        }
    }

    // The ends are included, and a start that is later than the end wraps over the year's end.
    #[tactic(auto, unfolding(pywr::specs::Period::is_active))]
    pub fn is_active(self, date: MonthDay) -> bool
        ensures { result ≡ is_active (period_of self) date.month date.day }
    {
        if self.always {
            return true;
        }
        let started = self.start.up_to(date);
        let not_ended = date.up_to(self.end);
        if self.start.up_to(self.end) {
            return started & not_ended;
        }
        started | not_ended
    }
}

// Whether the virtual storage whose words stand at `place` is active on a day.
pub fn is_active_at(shape: &[u16], place: usize, date: MonthDay) -> bool
    requires { place + virtual_storage_width ≤ length shape.now }
    ensures { result ≡ is_active (period_at shape.now place) date.month date.day }
{
    Period::at(shape, place).is_active(date)
}
