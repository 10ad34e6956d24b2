// The table of node rows: a row that a node asks for, and its entry.
#![tactic(auto)]

ghost use Rattle.std.specs.Prelude.{◌≡◌, List, [], ◌∷◌, ◌++◌, ◌+◌, ◌*◌, ◌<◌, ◌≤◌, length, drop, OnErr};
ghost use Rattle.std.proofs.lemmas.List.Edits.{sets};
ghost use Rattle.layout.specs.Layout.{column_ceiling, node_row_ceiling, node_row_width, node_rows_at, words_length, elements_made_at, numbers_length};
ghost use Rattle.pywr.specs.VaryingRows.{RowRequest};
ghost use Rattle.pywr.specs.Written.{row_type_word};
ghost use Rattle.build_row.specs.RowBuilder.{gathered, Rising};
ghost use Rattle.build_node_table.specs.NodeTable.{row_type_of, node_rows, node_rows_then, NodeRowsHeld, NodeRowsHolding, AfterRequests};
ghost use Rattle.build_append.specs.LpBuilder.{SameRuns};
ghost use Rattle.layout.specs.WorkRoom.{WorkRoom};

use build_append::LpBuilder;
use build_exclusive_sets::ProgrammeFull;
use layout::{
    NODE_ROW_ROW, NODE_ROW_SET, NODE_ROW_TYPE, NODE_ROW_WIDTH, NODE_ROWS_AT, SHAPE_MADE_AT,
};
use pywr::NodeIndex;

// The row of a node alone, or the upper or lower one with an exclusive set's column (NodeRowType of builder.rs).
#[derive(Clone, Copy, PartialEq, Eq)]
pub enum NodeRowType {
    Continuous,
    BinaryUpper,
    BinaryLower,
}

impl NodeRowType {
    // Its word in the table.
    #[tactic(auto, unfolding(pywr::specs::Written::row_type_word))]
    pub fn word(self) -> u16
        ensures { result ≡ row_type_word (row_type_of self) }
    {
        match self {
            NodeRowType::Continuous => 0,
            NodeRowType::BinaryUpper => 1,
            NodeRowType::BinaryLower => 2,
        }
    }
}

// Node row i of the table: the node, its row, the row's type and the set's number.
fn put_node_row(
    shape: &mut [u16],
    i: usize,
    node: NodeIndex,
    row: u16,
    row_type: NodeRowType,
    set: u16,
)
    requires { node_rows_at + node_row_width * i + node_row_width ≤ length shape.old }
    ensures { shape.new ≡ sets shape.old (node_rows_at + node_row_width * i) (node.0 ∷ row ∷ row_type_word (row_type_of row_type) ∷ set ∷ []) }
{
    let at = NODE_ROWS_AT + NODE_ROW_WIDTH * i;
    shape[at] = node.0;
    shape[at + NODE_ROW_ROW] = row;
    shape[at + NODE_ROW_TYPE] = row_type.word();
    shape[at + NODE_ROW_SET] = set;
}

// A node asks for the gathered row, whose elements are already in place: an equal row that stands already serves, else it becomes the last row.
// `count` node rows stand so far; answers how many stand then.
pub fn add_node_row(
    lp: &mut LpBuilder<'_>,
    n: usize,
    node: NodeIndex,
    row_type: NodeRowType,
    set: u16,
    count: usize,
) -> Result<usize, ProgrammeFull>
    requires { WorkRoom lp.old.words.now lp.old.numbers.now × (n ≤ column_ceiling) × Rising lp.old.columns n
        × NodeRowsHolding lp.old.sentinel lp.old.words.now lp.old.numbers.now (node_rows lp.old count) × (count < node_row_ceiling) }
    ensures rows { (asks : List RowRequest) → NodeRowsHeld lp.old.sentinel asks lp.old.words.now lp.old.numbers.now (node_rows lp.old count)
        → AfterRequests lp.old.sentinel (asks ++ (record {
          node = node.0;
          row_type = row_type_of row_type;
          set = set;
          row = gathered lp.old.columns
              (drop (elements_made_at + lp.old.filled.elements) lp.old.numbers.now) n;
        } ∷ []))
        (node_rows_then result lp.new) lp.new.words.now lp.new.numbers.now }
    ensures same { SameRuns lp.old lp.new }
    ensures gathered { lp.new.columns ≡ lp.old.columns }
    ensures full { OnErr result (lp.new.filled ≡ lp.old.filled) }
{
    let row = build_join::add_variable_row(lp, n)?;
    put_node_row(
        &mut lp.words[SHAPE_MADE_AT..],
        count,
        node,
        row as u16,
        row_type,
        set,
    );
    Ok(count + 1)
}
