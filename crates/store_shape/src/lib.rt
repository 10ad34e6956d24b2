// The shape run of a store: its words, and the parts of refusal 17 that read no other run.
#![tactic(auto)]

ghost use Rattle.std.specs.Prelude.{◌≡◌, ℕ, ◌+◌, ◌≤◌, ◌<◌, [], ◌∷◌, length, get_or, ltb};
ghost use Rattle.layout.specs.Layout.{node_ceiling, edge_ceiling, aggregate_ceiling, virtual_storage_ceiling, row_ceiling, shape_length};
ghost use Rattle.layout.specs.Layout.{nodes_at, edges_at, aggregates_at, virtual_storages_at, makers_at, node_width, edge_width, aggregate_width, virtual_storage_width, maker_width};
ghost use Rattle.layout.specs.Layout.{flow_order_at, flow_order_width};
ghost use Rattle.layout.specs.Layout.{sentinel_in, nodes_in, edges_in, varying_in, fixed_in, aggregates_in, virtual_storages_in};
ghost use Rattle.pywr.specs.Store.{Store, sentinel_of, node_count, edge_count, edge_column_count, aggregate_count, virtual_storage_count, row_count};
ghost use Rattle.pywr.specs.Misshapen.{counts_fit, node_fits, edge_fits, aggregate_fits, virtual_storage_fits, maker_fits, flow_order_fits, all_entries};

use layout::{
    AGGREGATE_CEILING, AGGREGATE_COUNT_AT, AGGREGATES_AT, BY_EXCLUSIVITY, EDGE_CEILING,
    EDGE_COLUMN_COUNT_AT, EDGE_COUNT_AT, EDGE_TO, EDGE_WIDTH, EDGES_AT, ELEMENT_CEILING,
    ELEMENT_COUNT_AT, FIXED_COUNT_AT, FLOW_ORDER_AT, MAKER_INDEX, MAKER_KINDS, MAKER_SHARED_BY,
    MAKER_WIDTH, MAKERS_AT, MAPPED_COLUMN, NODE_CEILING, NODE_COUNT_AT, NODE_FLAG,
    NODE_ROW_CEILING, NODE_ROW_COUNT_AT, NODE_WIDTH, NODES_AT, PERIOD_FLAG, ROW_CEILING,
    SENTINEL_AT, SET_CEILING, SET_COUNT_AT, VARYING_COUNT_AT, VIRTUAL_STORAGE_CEILING,
    VIRTUAL_STORAGE_COUNT_AT, VIRTUAL_STORAGE_WIDTH, VIRTUAL_STORAGES_AT,
};
use pywr::Sentinel;

// The ceilings in the width of the words.
const NODE_CEILING_WORD: u16 = NODE_CEILING as u16;

const EDGE_CEILING_WORD: u16 = EDGE_CEILING as u16;

const SET_CEILING_WORD: u16 = SET_CEILING as u16;

const ELEMENT_CEILING_WORD: u16 = ELEMENT_CEILING as u16;

const NODE_ROW_CEILING_WORD: u16 = NODE_ROW_CEILING as u16;

const AGGREGATE_CEILING_WORD: u16 = AGGREGATE_CEILING as u16;

const VIRTUAL_STORAGE_CEILING_WORD: u16 = VIRTUAL_STORAGE_CEILING as u16;

// The sentinel that the store keeps.
#[tactic(auto, using(crate::proofs::SentinelLaws::infinite, crate::proofs::SentinelLaws::largest))]
pub fn kept_sentinel(shape: &[u16]) -> Sentinel
    requires { shape_length ≤ length shape.now }
    ensures { result ≡ sentinel_of (sentinel_in shape.now) }
{
    if shape[SENTINEL_AT] == 0 {
        Sentinel::Infinity
    } else {
        Sentinel::Largest
    }
}

// The varying rows and the fixed ones.
pub fn row_count(shape: &[u16]) -> usize
    requires { shape_length ≤ length shape.now }
    ensures { result ≡ varying_in shape.now + fixed_in shape.now }
{
    usize::from(shape[VARYING_COUNT_AT]) + usize::from(shape[FIXED_COUNT_AT])
}

// "a count over its ceiling"
#[tactic(auto, unfolding(pywr::specs::Misshapen::counts_fit))]
pub fn counts_fit(shape: &[u16]) -> bool
    requires { shape_length ≤ length shape.now }
    ensures { (s : Store) → s.shape ≡ shape.now → result ≡ counts_fit s }
{
    (shape[NODE_COUNT_AT] <= NODE_CEILING_WORD)
        & (shape[EDGE_COUNT_AT] <= EDGE_CEILING_WORD)
        & (shape[EDGE_COLUMN_COUNT_AT] <= EDGE_CEILING_WORD)
        & (shape[SET_COUNT_AT] <= SET_CEILING_WORD)
        & (row_count(shape) <= ROW_CEILING)
        & (shape[ELEMENT_COUNT_AT] <= ELEMENT_CEILING_WORD)
        & (shape[NODE_ROW_COUNT_AT] <= NODE_ROW_CEILING_WORD)
        & (shape[AGGREGATE_COUNT_AT] <= AGGREGATE_CEILING_WORD)
        & (shape[VIRTUAL_STORAGE_COUNT_AT] <= VIRTUAL_STORAGE_CEILING_WORD)
}

// "a kind, flag .. out of range". A table, but for those of three words below, is looked at whole, with no way out of the loop, so that the compiler can vectorise it.
pub fn nodes_fit(shape: &[u16]) -> bool
    requires { (shape_length ≤ length shape.now) × (nodes_in shape.now ≤ node_ceiling) }
    ensures { (s : Store) → s.shape ≡ shape.now → result ≡ all_entries (node_fits s) node_width nodes_at (node_count s) }
{
    let nodes = usize::from(shape[NODE_COUNT_AT]);
    let mut good = true;
    for i in 0..nodes {
        let at = NODES_AT + NODE_WIDTH * i;
        good &= (shape[at] <= 3) & (shape[at + NODE_FLAG] <= 1);
    }
    good
}

// An edge: two nodes and a column.
#[tactic(auto, using(std::proofs::lemmas::Bool::Decides::nat_tests), unfolding(pywr::specs::Misshapen::edge_fits))]
fn edge_fits(shape: &[u16], at: usize, nodes: u16, columns: u16) -> bool
    requires { at + edge_width ≤ length shape.now }
    ensures { (s : Store) → s.shape ≡ shape.now → nodes ≡ node_count s → columns ≡ edge_column_count s → result ≡ edge_fits s at }
{
    shape[at] < nodes && shape[at + EDGE_TO] < nodes && shape[at + MAPPED_COLUMN] < columns
}

// The loops over the tables of three words end at the first entry that fails: the compiler cannot vectorise them.
pub fn edges_fit(shape: &[u16]) -> bool
    requires { (shape_length ≤ length shape.now) × (edges_in shape.now ≤ edge_ceiling) }
    ensures { (s : Store) → s.shape ≡ shape.now → result ≡ all_entries (edge_fits s) edge_width edges_at (edge_count s) }
{
    let nodes = shape[NODE_COUNT_AT];
    let columns = shape[EDGE_COLUMN_COUNT_AT];
    let edges = usize::from(shape[EDGE_COUNT_AT]);
    for i in 0..edges {
        if !edge_fits(shape, EDGES_AT + EDGE_WIDTH * i, nodes, columns) {
            return false;
        }
    }
    true
}

// Whether each of `count` words from `first` on is under `limit`.
pub fn words_under(words: &[u16], first: usize, count: usize, limit: u16) -> bool
    requires { first + count ≤ length words.now }
    ensures { result ≡ all_entries (λ (at : ℕ). ltb (get_or words.now at 0) limit) 1 first count }
{
    let mut good = true;
    for i in 0..count {
        good &= words[first + i] < limit;
    }
    good
}

// An aggregate: a varying row.
#[tactic(auto, unfolding(pywr::specs::Misshapen::aggregate_fits))]
pub fn aggregates_fit(shape: &[u16]) -> bool
    requires { (shape_length ≤ length shape.now) × (aggregates_in shape.now ≤ aggregate_ceiling) }
    ensures { (s : Store) → s.shape ≡ shape.now → result ≡ all_entries (aggregate_fits s) aggregate_width aggregates_at (aggregate_count s) }
{
    let aggregates = usize::from(shape[AGGREGATE_COUNT_AT]);
    words_under(shape, AGGREGATES_AT, aggregates, shape[VARYING_COUNT_AT])
}

// The flow order: an edge for each edge.
#[tactic(auto, unfolding(pywr::specs::Misshapen::flow_order_fits))]
pub fn flow_order_fits(shape: &[u16]) -> bool
    requires { (shape_length ≤ length shape.now) × (edges_in shape.now ≤ edge_ceiling) }
    ensures { (s : Store) → s.shape ≡ shape.now → result ≡ all_entries (flow_order_fits s) flow_order_width flow_order_at (edge_count s) }
{
    let edges = shape[EDGE_COUNT_AT];
    words_under(shape, FLOW_ORDER_AT, usize::from(edges), edges)
}

// A virtual storage: a varying row, and whether it has a period.
pub fn virtual_storages_fit(shape: &[u16]) -> bool
    requires { (shape_length ≤ length shape.now) × (virtual_storages_in shape.now ≤ virtual_storage_ceiling) }
    ensures { (s : Store) → s.shape ≡ shape.now → result ≡ all_entries (virtual_storage_fits s) virtual_storage_width virtual_storages_at (virtual_storage_count s) }
{
    let varying = shape[VARYING_COUNT_AT];
    let virtual_storages = usize::from(shape[VIRTUAL_STORAGE_COUNT_AT]);
    let mut good = true;
    for i in 0..virtual_storages {
        let at = VIRTUAL_STORAGES_AT + VIRTUAL_STORAGE_WIDTH * i;
        good &= (shape[at] < varying) & (shape[at + PERIOD_FLAG] <= 1);
    }
    good
}

// A row's maker: a kind, one of that kind's makers, and how many share the row. `makers` has how many can make a row of each kind.
fn maker_fits(shape: &[u16], at: usize, makers: &[u16; MAKER_KINDS]) -> bool
    requires { at + maker_width ≤ length shape.now }
    ensures { (s : Store) → s.shape ≡ shape.now
        → makers.now ≡ node_count s ∷ node_count s ∷ aggregate_count s ∷ virtual_storage_count s ∷ aggregate_count s ∷ [] → result ≡ maker_fits s at }
{
    let kind = shape[at];
    if BY_EXCLUSIVITY < kind {
        return false;
    }
    if makers[usize::from(kind)] <= shape[at + MAKER_INDEX] {
        return false;
    }
    1 <= shape[at + MAKER_SHARED_BY]
}

// The makers of all rows.
pub fn makers_fit(shape: &[u16]) -> bool
    requires { (shape_length ≤ length shape.now) × (varying_in shape.now + fixed_in shape.now ≤ row_ceiling) }
    ensures { (s : Store) → s.shape ≡ shape.now → result ≡ all_entries (maker_fits s) maker_width makers_at (row_count s) }
{
    let nodes = shape[NODE_COUNT_AT];
    let aggregates = shape[AGGREGATE_COUNT_AT];
    let virtual_storages = shape[VIRTUAL_STORAGE_COUNT_AT];
    let makers: [u16; MAKER_KINDS] = [nodes, nodes, aggregates, virtual_storages, aggregates];
    let rows = row_count(shape);
    for i in 0..rows {
        if !maker_fits(shape, MAKERS_AT + MAKER_WIDTH * i, &makers) {
            return false;
        }
    }
    true
}
