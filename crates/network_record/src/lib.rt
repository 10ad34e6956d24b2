// One record of the network file, behind the records before it: its mark, its count, its check.
#![tactic(auto)]

ghost use Rattle.std.specs.Prelude.{◌≡◌, true, ◌+◌, ◌<◌, ◌≤◌, length};
ghost use Rattle.layout.specs.Layout.{node_ceiling};
ghost use Rattle.fields.specs.Field.{NextWithin};
ghost use Rattle.network_edge.specs.Edge.{edge_place};
ghost use Rattle.network_record.specs.Record.{rank, mark_at, with_record, has_room, check_marked, check_record, RecordPassed};

use layout::{AGGREGATE_CEILING, EDGE_CEILING, NODE_CEILING, VIRTUAL_STORAGE_CEILING};
use pywr::{Reason, Refusal};

// The mark of a record, in the order of the file's sections.
#[derive(Clone, Copy, PartialEq, Eq, PartialOrd, Ord)]
pub enum Mark {
    Node,
    Edge,
    Aggregate,
    VirtualStorage,
}

// A record: its mark, and where the next one starts.
#[derive(Clone, Copy)]
pub struct Record {
    pub mark: Mark,
    pub end: usize,
}

// The records of a whole file: how many of each kind, and where the virtual storages start.
#[derive(Clone, Copy, Default)]
pub struct Counts {
    pub nodes: usize,
    pub edges: usize,
    pub aggregates: usize,
    pub virtual_storages: usize,
    pub virtual_storages_at: usize,
}

impl Counts {
    // The counts with one record more.
    pub fn with(self, read: Record) -> Counts
        requires { has_room self read.mark ≡ true }
        ensures { result ≡ with_record self read.mark read.end }
    {
        let mut c = self;
        match read.mark {
            Mark::Node => c.nodes += 1,
            Mark::Edge => c.edges += 1,
            Mark::Aggregate => c.aggregates += 1,
            Mark::VirtualStorage => c.virtual_storages += 1,
        }
        if read.mark != Mark::VirtualStorage {
            c.virtual_storages_at = read.end;
        }
        c
    }

    // Whether one record more of this mark is within its ceiling.
    fn has_room(self, mark: Mark) -> bool
        ensures { result ≡ has_room self mark }
    {
        match mark {
            Mark::Node => self.nodes < NODE_CEILING,
            Mark::Edge => self.edges < EDGE_CEILING,
            Mark::Aggregate => self.aggregates < AGGREGATE_CEILING,
            Mark::VirtualStorage => self.virtual_storages < VIRTUAL_STORAGE_CEILING,
        }
    }
}

// The mark at `at`, if it is one of the four.
#[tactic(auto, unfolding(crate::specs::Record::mark_at))]
fn mark_at(s: &[u8], at: usize) -> Option<Mark>
    requires { at + 2 ≤ length s.now }
    ensures { result ≡ mark_at s.now at }
{
    match (s[at], s[at + 1]) {
        (b'N', b'D') => Some(Mark::Node),
        (b'E', b'D') => Some(Mark::Edge),
        (b'A', b'G') => Some(Mark::Aggregate),
        (b'V', b'S') => Some(Mark::VirtualStorage),
        _ => None,
    }
}

// The record at `at`, which has this mark, behind the records counted so far: 6, or its check.
#[tactic(auto, unfolding(crate::specs::Record::check_marked))]
fn check_marked(s: &[u8], at: usize, mark: Mark, c: Counts) -> Result<usize, Refusal>
    requires { (at + 2 ≤ length s.now) × (mark ≡ Mark.Edge → edge_place c.nodes c.edges ≤ length s.now) × (c.nodes ≤ node_ceiling) }
    ensures { (result ≡ check_marked s.now at c mark) × NextWithin result (length s.now) }
{
    if !c.has_room(mark) {
        return Err(Reason::TooManyRecords.at(at));
    }
    match mark {
        Mark::Node => network_node::check_node(s, at),
        Mark::Edge => network_edge::check_edge(s, c.nodes, c.edges, at),
        Mark::Aggregate => network_aggregate::check_aggregate(s, c.nodes, at),
        Mark::VirtualStorage => network_virtual_storage::check_virtual_storage(s, c.nodes, at),
    }
}

// The record at `at`, behind the records counted so far; `stage` is the mark of the record before, and a node's at the file's start.
#[tactic(auto, unfolding(crate::specs::Record::check_record, crate::specs::Record::check_marked))]
pub fn check_record(s: &[u8], at: usize, stage: Mark, c: Counts) -> Result<Record, Refusal>
    requires { (at < length s.now) × (rank stage < 2 → edge_place c.nodes c.edges ≤ at) × (c.nodes ≤ node_ceiling) }
    ensures { (result ≡ check_record s.now at c stage) × RecordPassed s.now at c stage result }
{
    if !fields::is_within(s, at, 2) {
        return Err(Reason::FileEnds.at(at));
    }
    let mark = mark_at(s, at).ok_or(Reason::WrongMark.at(at))?;
    if mark < stage {
        return Err(Reason::WrongMark.at(at));
    }
    let end = check_marked(s, at, mark, c)?;
    Ok(Record { mark, end })
}
