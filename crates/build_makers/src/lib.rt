// Who made a row: its entry in the table of makers. `shape` is the part of a build's work run where the shape run is made.
#![tactic(auto)]

ghost use Rattle.std.specs.Prelude.{◌≡◌, ◌+◌, ◌-◌, ◌*◌, ◌≤◌, length, replicate};
ghost use mathlib.Core.List.{[], ◌∷◌, flat_map};
ghost use Rattle.std.proofs.lemmas.List.Edits.{sets};
ghost use Rattle.layout.specs.Layout.{row_ceiling, shape_length, makers_at, maker_width};
ghost use Rattle.pywr.specs.Written.{maker_words};
ghost use Rattle.build_makers.specs.MakerKind.{kind_number};

use layout::{
    BY_AGGREGATE, BY_EXCLUSIVITY, BY_MASS, BY_NODE, BY_VIRTUAL_STORAGE, MAKER_INDEX,
    MAKER_SHARED_BY, MAKER_WIDTH, MAKERS_AT,
};

// What made a row: a link's mass balance, a node, an aggregate, a virtual storage or an aggregate's exclusivity.
#[derive(Clone, Copy, PartialEq, Eq)]
pub enum MakerKind {
    Mass,
    Node,
    Aggregate,
    VirtualStorage,
    Exclusivity,
}

impl MakerKind {
    // Its word in the table.
    pub fn word(self) -> u16
        ensures { result ≡ kind_number self }
    {
        match self {
            MakerKind::Mass => BY_MASS,
            MakerKind::Node => BY_NODE,
            MakerKind::Aggregate => BY_AGGREGATE,
            MakerKind::VirtualStorage => BY_VIRTUAL_STORAGE,
            MakerKind::Exclusivity => BY_EXCLUSIVITY,
        }
    }
}

// The entry of one row.
pub fn put_maker(shape: &mut [u16], row: usize, kind: MakerKind, index: u16, shared_by: u16)
    requires { makers_at + maker_width * row + maker_width ≤ length shape.old }
    ensures { shape.new ≡ sets shape.old (makers_at + maker_width * row) (kind_number kind ∷ index ∷ shared_by ∷ []) }
{
    let at = MAKERS_AT + MAKER_WIDTH * row;
    shape[at] = kind.word();
    shape[at + MAKER_INDEX] = index;
    shape[at + MAKER_SHARED_BY] = shared_by;
}

// The same entry for each row from `first` up to `end`.
pub fn put_makers(
    shape: &mut [u16],
    first: usize,
    end: usize,
    kind: MakerKind,
    index: u16,
    shared_by: u16,
)
    requires { (first ≤ end) × (end ≤ row_ceiling) × (shape_length ≤ length shape.old) }
    ensures { shape.new ≡ sets shape.old (makers_at + maker_width * first)
        (flat_map maker_words (replicate (end - first) (record { kind = kind_number kind; index = index; shared_by = shared_by }))) }
{
    for row in first..end {
        put_maker(shape, row, kind, index, shared_by);
    }
}
