// The layout of the store and of the work areas: ceilings, lengths of runs, and where each thing stands in a run. A number that follows from others is
// computed from them. specs/Layout.antt has the same numbers for contracts and definitions.
#![tactic(auto)]

// At most so many of each. Edges have at most as many columns as there are edges; the node rows of a node are one, or two for each of its memberships.
pub const NODE_CEILING: usize = 256;

pub const EDGE_CEILING: usize = 512;

pub const AGGREGATE_CEILING: usize = 64;

pub const VIRTUAL_STORAGE_CEILING: usize = 32;

pub const AGGREGATE_SET_CEILING: usize = 16;

pub const PART_CEILING: usize = 64;

pub const SET_CEILING: usize = 128;

pub const SET_SIZE_CEILING: usize = 16;

pub const MEMBERSHIP_CEILING: usize = SET_SIZE_CEILING * SET_CEILING;

pub const COLUMN_CEILING: usize = EDGE_CEILING + SET_CEILING;

pub const ROW_CEILING: usize = 1024;

pub const ELEMENT_CEILING: usize = 4096;

pub const NODE_ROW_CEILING: usize = NODE_CEILING + 2 * MEMBERSHIP_CEILING;

// The store's runs of columns, of rows and of elements are as long as these ceilings; the row starts have one more, where the last row ends.
pub const ROW_STARTS_LENGTH: usize = ROW_CEILING + 1;

// The shape run: the sentinel's code and the counts, then the tables.
pub const SENTINEL_AT: usize = 0;

pub const NODE_COUNT_AT: usize = 1;

pub const EDGE_COUNT_AT: usize = 2;

pub const EDGE_COLUMN_COUNT_AT: usize = 3;

pub const SET_COUNT_AT: usize = 4;

pub const VARYING_COUNT_AT: usize = 5;

pub const FIXED_COUNT_AT: usize = 6;

pub const ELEMENT_COUNT_AT: usize = 7;

pub const NODE_ROW_COUNT_AT: usize = 8;

pub const AGGREGATE_COUNT_AT: usize = 9;

pub const VIRTUAL_STORAGE_COUNT_AT: usize = 10;

pub const COUNTS_LENGTH: usize = VIRTUAL_STORAGE_COUNT_AT + 1;

pub const NODES_AT: usize = COUNTS_LENGTH;

pub const EDGES_AT: usize = NODES_AT + NODE_WIDTH * NODE_CEILING;

pub const NODE_ROWS_AT: usize = EDGES_AT + EDGE_WIDTH * EDGE_CEILING;

pub const AGGREGATES_AT: usize = NODE_ROWS_AT + NODE_ROW_WIDTH * NODE_ROW_CEILING;

pub const VIRTUAL_STORAGES_AT: usize = AGGREGATES_AT + AGGREGATE_WIDTH * AGGREGATE_CEILING;

pub const MAKERS_AT: usize = VIRTUAL_STORAGES_AT + VIRTUAL_STORAGE_WIDTH * VIRTUAL_STORAGE_CEILING;

pub const FLOW_ORDER_AT: usize = MAKERS_AT + MAKER_WIDTH * ROW_CEILING;

pub const SHAPE_LENGTH: usize = FLOW_ORDER_AT + FLOW_ORDER_WIDTH * EDGE_CEILING;

// The words of an entry in each table. A node: kind, flag (1 constant).
pub const NODE_WIDTH: usize = 2;

pub const NODE_FLAG: usize = 1;

// An edge: from, to, column.
pub const EDGE_WIDTH: usize = 3;

pub const EDGE_TO: usize = 1;

pub const MAPPED_COLUMN: usize = 2;

// A node row: node, row, row type, set.
pub const NODE_ROW_WIDTH: usize = 4;

pub const NODE_ROW_ROW: usize = 1;

pub const NODE_ROW_TYPE: usize = 2;

pub const NODE_ROW_SET: usize = 3;

// An aggregate: row.
pub const AGGREGATE_WIDTH: usize = 1;

// A virtual storage: row, then its period: flag (0 always), start month, start day, end month, end day.
pub const VIRTUAL_STORAGE_WIDTH: usize = 6;

pub const PERIOD_FLAG: usize = 1;

pub const PERIOD_START_MONTH: usize = 2;

pub const PERIOD_START_DAY: usize = 3;

pub const PERIOD_END_MONTH: usize = 4;

pub const PERIOD_END_DAY: usize = 5;

// A row's maker: kind, index, how many makers share the row. One entry for each row.
pub const MAKER_WIDTH: usize = 3;

pub const MAKER_INDEX: usize = 1;

pub const MAKER_SHARED_BY: usize = 2;

// The flow order: an edge's number. One entry for each edge.
pub const FLOW_ORDER_WIDTH: usize = 1;

// The kinds of makers.
pub const BY_MASS: u16 = 0;

pub const BY_NODE: u16 = 1;

pub const BY_AGGREGATE: u16 = 2;

pub const BY_VIRTUAL_STORAGE: u16 = 3;

pub const BY_EXCLUSIVITY: u16 = 4;

pub const MAKER_KINDS: usize = BY_EXCLUSIVITY as usize + 1;

// The build's work run of words: the elements' columns from 0, the row starts, then the shape run's words, with the offsets of the shape run.
pub const STARTS_MADE_AT: usize = ELEMENT_CEILING;

pub const SHAPE_MADE_AT: usize = STARTS_MADE_AT + ROW_STARTS_LENGTH;

pub const WORDS_LENGTH: usize = SHAPE_MADE_AT + SHAPE_LENGTH;

// Its work run of doubles: the rows' lower bounds from 0, their upper bounds, then the elements, with room for the row that is being gathered.
pub const UPPERS_MADE_AT: usize = ROW_CEILING;

pub const ELEMENTS_MADE_AT: usize = UPPERS_MADE_AT + ROW_CEILING;

pub const NUMBERS_LENGTH: usize = ELEMENTS_MADE_AT + ELEMENT_CEILING + COLUMN_CEILING;

// The step's work run: the lower bounds of the intervals, the nodes' from 0, then the aggregates' and the virtual storages'; then all upper bounds.
pub const AGGREGATES_HELD_AT: usize = NODE_CEILING;

pub const VIRTUAL_STORAGES_HELD_AT: usize = AGGREGATES_HELD_AT + AGGREGATE_CEILING;

pub const UPPERS_AT: usize = VIRTUAL_STORAGES_HELD_AT + VIRTUAL_STORAGE_CEILING;

pub const STEP_WORK_LENGTH: usize = 2 * UPPERS_AT;
