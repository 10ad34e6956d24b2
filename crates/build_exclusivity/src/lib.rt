// The exclusivity rows of the exclusive aggregates (SolverBuilder::create_mutual_exclusivity_constraints of builder.rs).
#![tactic(auto)]

ghost use Rattle.std.specs.Prelude.{◌≡◌, ◌+◌, ◌≤◌, true, List, [], ◌∷◌, ◌++◌, length};
ghost use Rattle.layout.specs.Layout.{edge_ceiling, column_ceiling};
ghost use Rattle.pywr.specs.ColEdgeMap as ColEdgeMap;
ghost use Rattle.pywr.specs.ExclusiveSets.{exclusive_sets};
ghost use Rattle.pywr.specs.Rows.{ColumnMap, column_map};
ghost use Rattle.pywr.specs.FixedRows.{exclusivity_rows};
ghost use Rattle.pywr.specs.Programme.{Row, Maker};
ghost use Rattle.pywr.specs.Makers.{exclusivity_makers};
ghost use Rattle.network_aggregate.specs.AggregatedNode.{aggregate_at, sets_offset};
ghost use Rattle.network_laws.specs.Sections.{Sections};
ghost use Rattle.build_exclusive_sets.specs.Sets.{sets_at, SetsFit};
ghost use Rattle.build_append.specs.LpBuilder.{RowsHeld, Holding, AfterRows, filled_then, SameRuns};
ghost use Rattle.build_makers.specs.MadeRows.{MadeHeld, MadeHolding, AfterMade};
ghost use Rattle.build_node_row.specs.Tables.{network_of};
ghost use Rattle.build_exclusivity.specs.ExclusivityRow.{KnownSets, MapOf, ExclusivityRow};
ghost use Rattle.layout.specs.WorkRoom.{WorkRoom};

use build_append::LpBuilder;
use build_exclusive_sets::{ExclusiveSets, ProgrammeFull};
use build_makers::MakerKind;
use build_node_row::EdgeTables;
use layout::{COLUMN_CEILING, ELEMENTS_MADE_AT, SHAPE_MADE_AT};
use pywr::{ColumnIndex, ColumnNumber, Interval};

// The row of the aggregate at `at` gathered: 1 on the column of each of its sets.
fn exclusivity_row(
    tables: &EdgeTables<'_>,
    sets: &ExclusiveSets,
    at: usize,
    columns: &mut [ColumnNumber; COLUMN_CEILING],
    elements: &mut [f64],
) -> usize
    requires { SetsFit tables.now.file.now sets.now.at sets.now.count × (tables.now.edge_columns ≤ edge_ceiling) × (at + sets_offset ≤ length tables.now.file.now) × KnownSets tables.now.file.now sets.now.at sets.now.count at
        × (column_ceiling ≤ length elements.old) }
    ensures { ExclusivityRow tables.now.file.now sets.now.at sets.now.count tables.now.edge_columns at columns.new elements.new result }
{
    let mut n = 0;
    let mut here = network_aggregate::sets_at(at);
    for _ in 0..network_aggregate::set_count(tables.file, at) {
        let k = sets.set_number(tables.file, here);
        let column = ColumnIndex((tables.edge_columns + k) as u16);
        n = build_row::add_element(columns, elements, n, column, 1.0);
        here = network_aggregate::set_end(tables.file, here);
    }
    n
}

// The row of the aggregate at `at` becomes the last row. A plain aggregate has none.
fn add_exclusivity_row(
    tables: &EdgeTables<'_>,
    sets: &ExclusiveSets,
    at: usize,
    lp: &mut LpBuilder<'_>,
) -> Result<(), ProgrammeFull>
    requires { SetsFit tables.now.file.now sets.now.at sets.now.count × (tables.now.edge_columns ≤ edge_ceiling) × (at + sets_offset ≤ length tables.now.file.now)
        × ((aggregate_at tables.now.file.now at).exclusive ≡ true → KnownSets tables.now.file.now sets.now.at sets.now.count at)
        × WorkRoom lp.old.words.now lp.old.numbers.now × Holding lp.old.words.now lp.old.numbers.now lp.old.filled }
    ensures rows { (map : ColumnMap) → MapOf tables.now.file.now sets.now.at sets.now.count tables.now.edge_columns map
        → (rows : List Row) → RowsHeld rows lp.old.words.now lp.old.numbers.now lp.old.filled
        → AfterRows (rows ++ exclusivity_rows map (aggregate_at tables.now.file.now at ∷ [])) lp.old.words.now (filled_then result lp.new.filled) lp.new.words.now lp.new.numbers.now }
    ensures same { SameRuns lp.old lp.new }
{
    if !network_aggregate::is_exclusive(tables.file, at) {
        return Ok(());
    }
    let lower = network_aggregate::min_active(tables.file, at) as f64;
    let upper = network_aggregate::max_active(tables.file, at) as f64;
    let from = ELEMENTS_MADE_AT + lp.filled.elements;
    let n = exclusivity_row(tables, sets, at, &mut lp.columns, &mut lp.numbers[from..]);
    lp.add_fixed_row(n, Interval { lower, upper })
}

// The exclusivity rows of all exclusive aggregates, in file order.
pub fn create_mutual_exclusivity_constraints(
    tables: &EdgeTables<'_>,
    sets: &ExclusiveSets,
    lp: &mut LpBuilder<'_>,
) -> Result<(), ProgrammeFull>
    requires { Sections tables.now.file.now tables.now.counts.nodes tables.now.counts.edges tables.now.counts.aggregates tables.now.counts.virtual_storages tables.now.counts.virtual_storages_at
        × SetsFit tables.now.file.now sets.now.at sets.now.count × (sets_at tables.now.file.now sets.now.at sets.now.count ≡ exclusive_sets (network_of tables.now.file.now tables.now.counts))
        × (tables.now.edge_columns ≡ (ColEdgeMap.columns (network_of tables.now.file.now tables.now.counts)).count) × (tables.now.edge_columns ≤ edge_ceiling)
        × WorkRoom lp.old.words.now lp.old.numbers.now × MadeHolding lp.old.words.now lp.old.numbers.now lp.old.filled }
    ensures rows { (rows : List Row) (makers : List Maker) → MadeHeld rows makers lp.old.words.now lp.old.numbers.now lp.old.filled
        → AfterMade (rows ++ exclusivity_rows (column_map (network_of tables.now.file.now tables.now.counts)) (network_of tables.now.file.now tables.now.counts).aggregates)
        (makers ++ exclusivity_makers (column_map (network_of tables.now.file.now tables.now.counts)) 0 (network_of tables.now.file.now tables.now.counts).aggregates)
        lp.old.words.now (filled_then result lp.new.filled) lp.new.words.now lp.new.numbers.now }
    ensures same { SameRuns lp.old lp.new }
{
    let mut at = network_edge::edges_end(tables.counts.nodes, tables.counts.edges);
    for i in 0..tables.counts.aggregates {
        let before = lp.filled.rows;
        add_exclusivity_row(tables, sets, at, lp)?;
        let shape = &mut lp.words[SHAPE_MADE_AT..];
        let kind = MakerKind::Exclusivity;
        build_makers::put_makers(shape, before, lp.filled.rows, kind, i as u16, 1);
        at = network_aggregate::aggregate_end(tables.file, at);
    }
    Ok(())
}
