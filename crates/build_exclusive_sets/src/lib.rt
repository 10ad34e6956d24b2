// The distinct exclusive sets of a network file, in order of first appearance, and the sets that list each node: the second half of
// `create_columns`, and `node_bin_col_map`.
#![tactic(auto)]

ghost use Rattle.std.specs.Prelude.{◌≡◌, ℕ, ◌+◌, ◌*◌, ◌<◌, ◌≤◌, List, ◌++◌, length, get_or};
ghost use Rattle.layout.specs.Layout.{node_ceiling, set_ceiling, set_size_ceiling, membership_ceiling};
ghost use Rattle.pywr.specs.ExclusiveSets.{same_set, set_number, add_sets, exclusive_sets};
ghost use Rattle.network_aggregate.specs.AggregatedNode.{aggregate_set_at, set_end, aggregate_at};
ghost use Rattle.network_laws.specs.Passed.{SetPassed, AggregatePassed};
ghost use Rattle.network_record.specs.Counts.{network_of, SectionsOf};
ghost use Rattle.laws.specs.Linked.{Linked};
ghost use Rattle.build_exclusive_sets.specs.Sets.{sets_at, SetsFit, Collected, sets_then, places_in, memberships_of, MembershipsFrom};
ghost use Rattle.pywr.specs.Answers.{refusal_at};
ghost use Rattle.pywr.specs.declared.Reason.{Reason};

use layout::{MEMBERSHIP_CEILING, NODE_CEILING, SET_CEILING, SET_SIZE_CEILING};
use network_record::Counts;
use pywr::{Reason, Refusal};

// The programme is over its ceilings.
#[derive(Clone, Copy, PartialEq, Eq)]
pub struct ProgrammeFull;

impl From<ProgrammeFull> for Refusal {
    ghost from_gives = { λ _ r. r ≡ refusal_at Reason.OverCeilings 0 };

    fn from(_full: ProgrammeFull) -> Refusal {
        Reason::OverCeilings.at(0)
    }
}

// The distinct exclusive sets: the offset of each, where it first appears, and how many there are.
#[derive(Drop)]
pub struct ExclusiveSets {
    pub at: [u16; SET_CEILING],
    pub count: usize,
}

// The sets that list each node, as linked lists: a node's first membership and a membership's next one, each plus 1, or 0 at the end of a list.
// Membership SET_SIZE_CEILING * k + i is member i of the set numbered k.
#[derive(Drop)]
pub struct Memberships {
    pub first: [u16; NODE_CEILING],
    pub next: [u16; MEMBERSHIP_CEILING],
}

// Sets are equal as ordered lists.
pub fn same_set(s: &[u8], a: usize, b: usize) -> bool
    requires { (set_end s.now a ≤ length s.now) × (set_end s.now b ≤ length s.now) }
    ensures { result ≡ same_set (aggregate_set_at s.now a) (aggregate_set_at s.now b) }
{
    let size = network_aggregate::set_size(s, a);
    if size != network_aggregate::set_size(s, b) {
        return false;
    }
    for i in 0..size {
        let x = network_aggregate::member(s, a, i);
        let y = network_aggregate::member(s, b, i);
        if x.0 != y.0 {
            return false;
        }
    }
    true
}

// The members of the set numbered k, whose record stands at `at`, each in front of the memberships so far.
fn list_set(s: &[u8], k: usize, at: usize, memberships: &mut Memberships)
    requires { (k < set_ceiling) × SetPassed s.now node_ceiling at }
    ensures { (of : ℕ → List ℕ) → MembershipsFrom (set_size_ceiling * k + set_size_ceiling) memberships.old.first memberships.old.next of
        → MembershipsFrom (set_size_ceiling * k) memberships.new.first memberships.new.next (λ n. places_in n (set_size_ceiling * k) (aggregate_set_at s.now at) ++ of n) }
{
    for i in (0..network_aggregate::set_size(s, at)).rev() {
        let m = network_aggregate::member(s, at, i);
        let n = usize::from(m.0);
        let place = SET_SIZE_CEILING * k + i;
        memberships.next[place] = memberships.first[n];
        memberships.first[n] = place as u16 + 1;
    }
}

impl ExclusiveSets {
    // The number of the set at `at` among them, or their count.
    pub fn set_number(&self, s: &[u8], at: usize) -> usize
        requires { SetsFit s.now self.now.at self.now.count × (set_end s.now at ≤ length s.now) }
        ensures { result ≡ set_number (aggregate_set_at s.now at) (sets_at s.now self.now.at self.now.count) }
    {
        for k in 0..self.count {
            if same_set(s, usize::from(self.at[k]), at) {
                return k;
            }
        }
        self.count
    }

    // The sets of the aggregate at `at`, each added if it is not there yet.
    fn add_sets(&mut self, s: &[u8], at: usize) -> Result<(), ProgrammeFull>
        requires { AggregatePassed s.now node_ceiling at × SetsFit s.now self.old.at self.old.count × (length s.now ≤ 65536) }
        ensures { Collected s.now (add_sets (sets_at s.now self.old.at self.old.count) (aggregate_at s.now at).sets) (sets_then result self.new) }
    {
        let sets = network_aggregate::set_count(s, at);
        let mut here = network_aggregate::sets_at(at);
        for _ in 0..sets {
            if self.set_number(s, here) == self.count {
                if self.count == SET_CEILING {
                    return Err(ProgrammeFull);
                }
                self.at[self.count] = here as u16;
                self.count += 1;
            }
            here = network_aggregate::set_end(s, here);
        }
        Ok(())
    }

    // The memberships of every node in these sets. They are lent, so that they stand on the stack once.
    pub fn list_members(&self, s: &[u8], memberships: &mut Memberships)
        requires { SetsFit s.now self.now.at self.now.count }
        ensures { (n : ℕ) → n < node_ceiling → Linked membership_ceiling memberships.new.next (get_or memberships.new.first n 0)
            (memberships_of n 0 (sets_at s.now self.now.at self.now.count)) }
    {
        *memberships = Memberships {
            first: [0; NODE_CEILING],
            next: [0; MEMBERSHIP_CEILING],
        };
        for k in (0..self.count).rev() {
            list_set(s, k, usize::from(self.at[k]), memberships);
        }
    }
}

// The distinct sets of the exclusive aggregates.
pub fn collect_sets(s: &[u8], c: Counts) -> Result<ExclusiveSets, ProgrammeFull>
    requires { SectionsOf s.now c }
    ensures { Collected s.now (exclusive_sets (network_of s.now c)) result }
{
    let mut sets = ExclusiveSets {
        at: [0; SET_CEILING],
        count: 0,
    };
    let mut at = network_edge::edges_end(c.nodes, c.edges);
    for _ in 0..c.aggregates {
        if network_aggregate::is_exclusive(s, at) {
            sets.add_sets(s, at)?;
        }
        at = network_aggregate::aggregate_end(s, at);
    }
    Ok(sets)
}
