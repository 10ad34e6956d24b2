// Who made the varying rows, which makers may share: the first that asked for a row, and how many did. `shape` is the part of a build's work run where
// the shape run is made, with the tables of node rows, aggregates and virtual storages in it.
#![tactic(auto)]

ghost use Rattle.std.specs.Prelude.{◌≡◌, ◌+◌, ◌*◌, ◌<◌, ◌≤◌, length, take};
ghost use mathlib.Core.List.{flat_map};
ghost use Rattle.std.proofs.lemmas.List.Edits.{sets};
ghost use Rattle.layout.specs.Layout.{node_row_ceiling, aggregate_ceiling, virtual_storage_ceiling, row_ceiling, shape_length, makers_at, maker_width};
ghost use Rattle.laws.specs.Part.{part};
ghost use Rattle.pywr.specs.Makers.{varying_makers};
ghost use Rattle.pywr.specs.Written.{maker_words};
ghost use Rattle.build_makers.specs.MakerKind.{kind_number};
ghost use Rattle.build_sharers.specs.Sharers.{maker_in, one_more, node_asker, entry_asker, askers_to, askers_in, RowsUnder, Counting, Counted};

use build_makers::MakerKind;
use layout::{
    AGGREGATE_WIDTH, AGGREGATES_AT, MAKER_SHARED_BY, MAKER_WIDTH, MAKERS_AT, NODE_ROW_ROW,
    NODE_ROW_WIDTH, NODE_ROWS_AT, VIRTUAL_STORAGE_WIDTH, VIRTUAL_STORAGES_AT,
};

// One more that asked for a row: the first is its maker, and all are counted.
fn add_sharer(shape: &mut [u16], row: usize, kind: MakerKind, index: u16)
    requires { (row < row_ceiling) × (shape_length ≤ length shape.old) × ((maker_in shape.old row).shared_by < 65535) }
    ensures { shape.new ≡ sets shape.old (makers_at + maker_width * row) (maker_words (one_more (kind_number kind) index (maker_in shape.old row))) }
{
    let at = MAKERS_AT + MAKER_WIDTH * row;
    let before = shape[at + MAKER_SHARED_BY];
    if before == 0 {
        build_makers::put_maker(shape, row, kind, index, 1);
    } else {
        shape[at + MAKER_SHARED_BY] = before + 1;
    }
}

// The nodes asked for the rows of the first `count` node rows.
fn add_node_sharers(shape: &mut [u16], count: usize)
    requires { (count ≤ node_row_ceiling) × (shape_length ≤ length shape.old) × Counting shape.old (askers_to (node_asker shape.old) count) }
    ensures { Counted shape.old (askers_to (node_asker shape.old) count) shape.new }
{
    for i in 0..count {
        let at = NODE_ROWS_AT + NODE_ROW_WIDTH * i;
        let node = shape[at];
        let row = usize::from(shape[at + NODE_ROW_ROW]);
        add_sharer(shape, row, MakerKind::Node, node);
    }
}

// The makers of one kind asked for the rows that stand first in the first `count` entries of a table.
fn add_sharers(shape: &mut [u16], at: usize, width: usize, count: usize, kind: MakerKind)
    requires { (at + width * count ≤ makers_at) × (count ≤ aggregate_ceiling) × (1 ≤ width) × (shape_length ≤ length shape.old)
        × Counting shape.old (askers_to (entry_asker shape.old at width (kind_number kind)) count) }
    ensures { Counted shape.old (askers_to (entry_asker shape.old at width (kind_number kind)) count) shape.new }
{
    for i in 0..count {
        let row = usize::from(shape[at + width * i]);
        add_sharer(shape, row, kind, i as u16);
    }
}

// The makers of the first `rows` rows, which nodes, aggregates and virtual storages asked for in this order.
pub fn put_varying_makers(
    shape: &mut [u16],
    rows: usize,
    node_rows: usize,
    aggregates: usize,
    virtual_storages: usize,
)
    requires { (rows ≤ row_ceiling) × (node_rows ≤ node_row_ceiling) × (aggregates ≤ aggregate_ceiling) × (virtual_storages ≤ virtual_storage_ceiling)
        × (shape_length ≤ length shape.old) × RowsUnder rows (askers_in shape.old node_rows aggregates virtual_storages) }
    ensures { (part makers_at (maker_width * rows) shape.new
        ≡ flat_map maker_words (varying_makers (askers_in shape.old node_rows aggregates virtual_storages) 0 rows))
        × (take makers_at shape.new ≡ take makers_at shape.old) }
{
    // shared by 0: nobody has asked yet, and the kind tells nothing
    build_makers::put_makers(shape, 0, rows, MakerKind::Mass, 0, 0);
    add_node_sharers(shape, node_rows);
    add_sharers(
        shape,
        AGGREGATES_AT,
        AGGREGATE_WIDTH,
        aggregates,
        MakerKind::Aggregate,
    );
    add_sharers(
        shape,
        VIRTUAL_STORAGES_AT,
        VIRTUAL_STORAGE_WIDTH,
        virtual_storages,
        MakerKind::VirtualStorage,
    );
}
