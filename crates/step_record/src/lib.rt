// The records of a step file, each checked where it stands: refusals 12 and 13 with the record's place.
#![tactic(auto)]

ghost use Rattle.std.specs.Prelude.{◌≡◌, ◌≤◌, eqb};
ghost use Rattle.pywr.specs.Numbers.{is_days};
ghost use Rattle.pywr.specs.StepFile.{days_in};
ghost use Rattle.step_record.specs.Check.{in_range, bound_range, volume_range, check_mark, check_field, check_byte, check_date, check_node, check_aggregate, check_virtual_storage_step};

use pywr::{Answer, Reason};

// An `ST` record: its length, and where its fields stand in it.
pub const DATE_LENGTH: usize = 12;

pub const MONTH_OFFSET: usize = 2;

pub const DAY_OFFSET: usize = 3;

pub const DAYS_OFFSET: usize = 4;

// An `NB` record.
pub const NODE_STEP_LENGTH: usize = 34;

pub const NODE_COST_OFFSET: usize = 2;

pub const NODE_MIN_OFFSET: usize = 10;

pub const NODE_MAX_OFFSET: usize = 18;

pub const NODE_VOLUME_OFFSET: usize = 26;

// A `GB` record.
pub const AGGREGATE_STEP_LENGTH: usize = 18;

pub const AGGREGATE_LOWER_OFFSET: usize = 2;

pub const AGGREGATE_UPPER_OFFSET: usize = 10;

// A `VB` record.
pub const VIRTUAL_STORAGE_STEP_LENGTH: usize = 26;

pub const VIRTUAL_MIN_OFFSET: usize = 2;

pub const VIRTUAL_MAX_OFFSET: usize = 10;

pub const VIRTUAL_VOLUME_OFFSET: usize = 18;

// What a double of the file may be. One that is not read may be anything.
#[derive(Clone, Copy)]
pub enum Range {
    Unread,
    Flow,
    Small,
    Days,
}

// A node's kind in a store: a storage.
pub const STORAGE: u16 = 3;

// Days from 1/1024 to 366.
#[tactic(auto, unfolding(pywr::specs::Numbers::is_days, pywr::specs::Numbers::is_flow))]
fn is_days(bits: u64) -> bool
    ensures { result ≡ is_days bits }
{
    if !fields::is_flow(bits) {
        return false;
    }
    let x = f64::from_bits(bits);
    0.0009765625 <= x && x <= 366.0
}

impl Range {
    #[tactic(auto, unfolding(crate::specs::Check::in_range))]
    fn contains(self, bits: u64) -> bool
        ensures { result ≡ in_range self bits }
    {
        match self {
            Range::Unread => true,
            Range::Flow => fields::is_flow(bits),
            Range::Small => fields::is_small(bits),
            Range::Days => is_days(bits),
        }
    }
}

// A node's min and max.
#[tactic(auto, using(std::proofs::lemmas::Bool::Decides::nat_tests), unfolding(crate::specs::Check::bound_range))]
fn bound_range(kind: u16, constant: u16) -> Range
    ensures { result ≡ bound_range (eqb constant 1) (eqb kind 3) }
{
    if constant == 1 {
        Range::Unread
    } else if kind == STORAGE {
        Range::Small
    } else {
        Range::Flow
    }
}

#[tactic(auto, using(std::proofs::lemmas::Bool::Decides::nat_tests), unfolding(crate::specs::Check::volume_range))]
fn volume_range(kind: u16) -> Range
    ensures { result ≡ volume_range (eqb kind 3) }
{
    if kind == STORAGE {
        Range::Small
    } else {
        Range::Unread
    }
}

// The two letters of the record at `at`.
#[tactic(auto, unfolding(crate::specs::Check::check_mark))]
fn check_mark(file: &[u8], at: usize, a: u8, b: u8) -> Answer
    ensures { result ≡ check_mark file.now at a b }
{
    if fields::is_within(file, at, 2) && file[at] == a && file[at + 1] == b {
        Ok(())
    } else {
        Err(Reason::WrongStepFile.at(at))
    }
}

// A double of the record at `place`.
#[tactic(auto, unfolding(crate::specs::Check::check_field))]
fn check_field(file: &[u8], place: usize, at: usize, range: Range) -> Answer
    ensures { result ≡ check_field file.now place at range }
{
    if !fields::is_within(file, at, 8) {
        Err(Reason::WrongStepFile.at(place))
    } else if range.contains(fields::u64_at(file, at)) {
        Ok(())
    } else {
        Err(Reason::StepOutOfRange.at(place))
    }
}

// A byte of the `ST` record, from 1 to `most`.
#[tactic(auto, using(std::proofs::lemmas::Bool::Decides::nat_tests), unfolding(crate::specs::Check::check_byte))]
fn check_byte(file: &[u8], at: usize, most: u8) -> Answer
    ensures { result ≡ check_byte file.now at most }
{
    if file.len() <= at {
        Err(Reason::WrongStepFile.at(0))
    } else if 1 <= file[at] && file[at] <= most {
        Ok(())
    } else {
        Err(Reason::StepOutOfRange.at(0))
    }
}

// The days of a month: 02-29 always exists.
#[tactic(auto, using(std::proofs::lemmas::Bool::Decides::nat_tests), unfolding(pywr::specs::StepFile::days_in))]
fn days_in(month: u8) -> u8
    ensures { result ≡ days_in month }
{
    match month {
        2 => 29,
        4 | 6 | 9 | 11 => 30,
        _ => 31,
    }
}

// `ST` month, day, days.
#[tactic(auto, unfolding(crate::specs::Check::check_date, crate::specs::Check::answer_then))]
pub fn check_date(file: &[u8]) -> Answer
    ensures { result ≡ check_date file.now }
{
    check_mark(file, 0, b'S', b'T')?;
    check_byte(file, MONTH_OFFSET, 12)?;
    check_byte(file, DAY_OFFSET, days_in(file[MONTH_OFFSET]))?;
    check_field(file, 0, DAYS_OFFSET, Range::Days)
}

// `NB` cost, min, max, volume, of a node with this kind and flag.
#[tactic(auto, unfolding(crate::specs::Check::check_node, crate::specs::Check::answer_then))]
pub fn check_node(file: &[u8], at: usize, kind: u16, constant: u16) -> Answer
    requires { at ≤ 65536 }
    ensures { result ≡ check_node file.now (record { kind = kind; constant = eqb constant 1 }) at }
{
    let bounds = bound_range(kind, constant);
    check_mark(file, at, b'N', b'B')?;
    check_field(file, at, at + NODE_COST_OFFSET, Range::Small)?;
    check_field(file, at, at + NODE_MIN_OFFSET, bounds)?;
    check_field(file, at, at + NODE_MAX_OFFSET, bounds)?;
    check_field(file, at, at + NODE_VOLUME_OFFSET, volume_range(kind))
}

// `GB` lower, upper.
#[tactic(auto, unfolding(crate::specs::Check::check_aggregate, crate::specs::Check::answer_then))]
pub fn check_aggregate(file: &[u8], at: usize) -> Answer
    requires { at ≤ 65536 }
    ensures { result ≡ check_aggregate file.now at }
{
    check_mark(file, at, b'G', b'B')?;
    check_field(file, at, at + AGGREGATE_LOWER_OFFSET, Range::Flow)?;
    check_field(file, at, at + AGGREGATE_UPPER_OFFSET, Range::Flow)
}

// `VB` min, max, volume.
#[tactic(auto, unfolding(crate::specs::Check::check_virtual_storage_step, crate::specs::Check::answer_then))]
pub fn check_virtual_storage_step(file: &[u8], at: usize) -> Answer
    requires { at ≤ 65536 }
    ensures { result ≡ check_virtual_storage_step file.now at }
{
    check_mark(file, at, b'V', b'B')?;
    check_field(file, at, at + VIRTUAL_MIN_OFFSET, Range::Small)?;
    check_field(file, at, at + VIRTUAL_MAX_OFFSET, Range::Small)?;
    check_field(file, at, at + VIRTUAL_VOLUME_OFFSET, Range::Small)
}
