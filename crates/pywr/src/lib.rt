// The types of the port, named after the Rust's, and the answers of its public calls.
#![tactic(auto)]

ghost use Rattle.std.specs.Prelude.{◌≡◌};
ghost use Rattle.pywr.specs.Numbers.{high, low};
ghost use Rattle.pywr.specs.Answers.{number_of_reason, refusal_at};

// A node's number in its network.
#[derive(Clone, Copy)]
pub struct NodeIndex(pub u16);

// An edge's number in its network.
#[derive(Clone, Copy)]
pub struct EdgeIndex(pub u16);

// A column's number in its programme.
#[derive(Clone, Copy)]
pub struct ColumnIndex(pub u16);

// The width of a column's number in the array that a row is gathered in.
pub type ColumnNumber = u16;

// A lower and an upper bound.
#[derive(Clone, Copy)]
pub struct Interval {
    pub lower: f64,
    pub upper: f64,
}

// A node's bounds: least and most flow, or available and missing volume.
#[derive(Clone, Copy)]
pub enum NodeBounds {
    Flow(f64, f64),
    Volume(f64, f64),
}

// The high sentinel that the caller of a build picks: infinity, or the largest finite double.
#[derive(Clone, Copy)]
pub enum Sentinel {
    Infinity,
    Largest,
}

impl Sentinel {
    pub fn high(self) -> f64
        ensures { result ≡ high self }
    {
        match self {
            Sentinel::Infinity => f64::from_bits(0x7ff0000000000000),
            Sentinel::Largest => 1.7976931348623157e308,
        }
    }

    // The negation of the high sentinel.
    pub fn low(self) -> f64
        ensures { result ≡ low self }
    {
        -self.high()
    }
}

// What a refusal says, in the order of document 01's numbers.
#[derive(Clone, Copy, PartialEq, Eq)]
pub enum Reason {
    FileEnds,
    WrongMark,
    OutOfRange,
    NoSuchNode,
    WrongEnd,
    TooManyRecords,
    NoEdges,
    UnconnectedLink,
    CrossedConstant,
    UnboundedConstant,
    OverCeilings,
    WrongStepFile,
    StepOutOfRange,
    CrossedBounds,
    ShortBuffer,
    MisshapenStore,
    NoSuchRow,
    EdgeToItself,
    RepeatedEdge,
    BoundAtSentinel,
}

impl Reason {
    pub fn number(self) -> u8
        ensures { result ≡ number_of_reason self }
    {
        match self {
            Reason::FileEnds => 1,
            Reason::WrongMark => 2,
            Reason::OutOfRange => 3,
            Reason::NoSuchNode => 4,
            Reason::WrongEnd => 5,
            Reason::TooManyRecords => 6,
            Reason::NoEdges => 7,
            Reason::UnconnectedLink => 8,
            Reason::CrossedConstant => 9,
            Reason::UnboundedConstant => 10,
            Reason::OverCeilings => 11,
            Reason::WrongStepFile => 12,
            Reason::StepOutOfRange => 13,
            Reason::CrossedBounds => 14,
            Reason::ShortBuffer => 16,
            Reason::MisshapenStore => 17,
            Reason::NoSuchRow => 18,
            Reason::EdgeToItself => 19,
            Reason::RepeatedEdge => 20,
            Reason::BoundAtSentinel => 21,
        }
    }

    // The refusal for this reason at a place.
    pub fn at(self, place: usize) -> Refusal
        ensures { result ≡ refusal_at self place }
    {
        Refusal {
            number: self.number(),
            place,
        }
    }
}

// A refusal: document 01's number and the place.
#[derive(Clone, Copy, PartialEq, Eq)]
pub struct Refusal {
    pub number: u8,
    pub place: usize,
}

// The answer of a build and of a step.
pub type Answer = Result<(), Refusal>;

// The answer to reading a row: where the row's columns start, and where they end.
pub type RowAnswer = Result<(usize, usize), Refusal>;
