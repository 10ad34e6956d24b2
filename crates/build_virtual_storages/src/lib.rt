// The rows of the virtual storages (SolverBuilder::create_virtual_storage_constraints of builder.rs).
#![tactic(auto)]

ghost use Rattle.std.specs.Prelude.{◌≡◌, List, map, not, Ok, ◌+◌, ◌*◌, ◌≤◌, length};
ghost use Rattle.std.proofs.lemmas.List.Edits.{sets};
ghost use Rattle.layout.specs.Layout.{column_ceiling, virtual_storage_width, virtual_storages_at, virtual_storages_made_at, words_length, numbers_length};
ghost use Rattle.pywr.specs.Rows.{Element, column_map, virtual_storage_row};
ghost use Rattle.pywr.specs.VaryingRows.{fresh_row};
ghost use Rattle.pywr.specs.Written.{virtual_storage_words};
ghost use Rattle.network_virtual_storage.specs.VirtualStorage.{virtual_storage_at, virtual_storage_end, check_virtual_storage};
ghost use Rattle.network_virtual_storage.specs.PeriodOf.{period_of};
ghost use Rattle.build_append.specs.LpBuilder.{RowsHeld, Holding, filled_then, SameRuns};
ghost use Rattle.build_join.specs.VariableRow.{AfterVariableRow, placed_then};
ghost use Rattle.build_node_row.specs.Tables.{network_of, TablesHold};
ghost use Rattle.build_row.specs.Gathered.{Gathered};
ghost use Rattle.build_join.specs.JoinedRows.{HoldingVarying, AfterVariableRows};
ghost use Rattle.build_virtual_storages.specs.VirtualStorageRows.{virtual_storage_rows, virtual_storage_table};
ghost use Rattle.layout.specs.WorkRoom.{WorkRoom};

use build_append::LpBuilder;
use build_exclusive_sets::ProgrammeFull;
use build_node_row::EdgeTables;
use layout::{
    COLUMN_CEILING, ELEMENTS_MADE_AT, PERIOD_END_DAY, PERIOD_END_MONTH, PERIOD_FLAG,
    PERIOD_START_DAY, PERIOD_START_MONTH, SHAPE_MADE_AT, VIRTUAL_STORAGE_WIDTH,
    VIRTUAL_STORAGES_AT,
};
use network_virtual_storage::Period;
use pywr::ColumnNumber;

// Gathers the row of the virtual storage at `at`: minus factor times node row, part by part.
fn virtual_storage_row(
    tables: &EdgeTables<'_>,
    at: usize,
    columns: &mut [ColumnNumber; COLUMN_CEILING],
    elements: &mut [f64],
) -> usize
    requires { TablesHold tables.now
        × (check_virtual_storage tables.now.file.now tables.now.counts.nodes at ≡ Ok (virtual_storage_end tables.now.file.now at)) × (column_ceiling ≤ length elements.old) }
    ensures { Gathered (virtual_storage_row (column_map (network_of tables.now.file.now tables.now.counts)) (virtual_storage_at tables.now.file.now at)) columns.new elements.new result }
{
    let mut n = 0;
    for k in 0..network_virtual_storage::part_count(tables.file, at) {
        let node = network_virtual_storage::part_node(tables.file, at, k);
        let factor = network_virtual_storage::part_factor(tables.file, at, k);
        n = build_node_row::add_node(tables, node, -factor, columns, elements, n);
    }
    n
}

// The row of the virtual storage at `at` is gathered behind the elements so far and asked for.
fn add_virtual_storage_row(
    tables: &EdgeTables<'_>,
    at: usize,
    lp: &mut LpBuilder<'_>,
) -> Result<usize, ProgrammeFull>
    requires { TablesHold tables.now
        × (check_virtual_storage tables.now.file.now tables.now.counts.nodes at ≡ Ok (virtual_storage_end tables.now.file.now at))
        × WorkRoom lp.old.words.now lp.old.numbers.now × Holding lp.old.words.now lp.old.numbers.now lp.old.filled }
    ensures row { (rows : List (List Element)) → RowsHeld (map (fresh_row lp.old.sentinel) rows) lp.old.words.now lp.old.numbers.now lp.old.filled
        → AfterVariableRow lp.old.sentinel rows (virtual_storage_row (column_map (network_of tables.now.file.now tables.now.counts)) (virtual_storage_at tables.now.file.now at))
        lp.old.words.now (placed_then result lp.new.filled) lp.new.words.now lp.new.numbers.now }
    ensures same { SameRuns lp.old lp.new }
{
    let from = ELEMENTS_MADE_AT + lp.filled.elements;
    let n = virtual_storage_row(tables, at, &mut lp.columns, &mut lp.numbers[from..]);
    build_join::add_variable_row(lp, n)
}

// Virtual storage i of the table: its row, then its period.
fn put_virtual_storage(shape: &mut [u16], i: usize, row: u16, period: Period)
    requires { virtual_storages_at + virtual_storage_width * i + virtual_storage_width ≤ length shape.old }
    ensures { shape.new ≡ sets shape.old (virtual_storages_at + virtual_storage_width * i) (virtual_storage_words (record { row = row; period = period_of period })) }
{
    let at = VIRTUAL_STORAGES_AT + VIRTUAL_STORAGE_WIDTH * i;
    shape[at] = row;
    shape[at + PERIOD_FLAG] = u16::from(!period.always);
    shape[at + PERIOD_START_MONTH] = u16::from(period.start_month);
    shape[at + PERIOD_START_DAY] = u16::from(period.start_day);
    shape[at + PERIOD_END_MONTH] = u16::from(period.end_month);
    shape[at + PERIOD_END_DAY] = u16::from(period.end_day);
}

// Each virtual storage asks for its row; the row's number and the period are written to the virtual storages' table.
pub fn create_virtual_storage_constraints(
    tables: &EdgeTables<'_>,
    lp: &mut LpBuilder<'_>,
) -> Result<(), ProgrammeFull>
    requires { TablesHold tables.now
        × WorkRoom lp.old.words.now lp.old.numbers.now × HoldingVarying lp.old.sentinel lp.old.words.now lp.old.numbers.now lp.old.filled }
    ensures rows { (rows : List (List Element)) → RowsHeld (map (fresh_row lp.old.sentinel) rows) lp.old.words.now lp.old.numbers.now lp.old.filled
        → AfterVariableRows lp.old.sentinel rows (virtual_storage_rows (network_of tables.now.file.now tables.now.counts)) virtual_storages_made_at (virtual_storage_width * tables.now.counts.virtual_storages)
        (virtual_storage_table (network_of tables.now.file.now tables.now.counts))
        lp.old.words.now (filled_then result lp.new.filled) lp.new.words.now lp.new.numbers.now }
    ensures same { SameRuns lp.old lp.new }
{
    let mut at = tables.counts.virtual_storages_at;
    for i in 0..tables.counts.virtual_storages {
        let row = add_virtual_storage_row(tables, at, lp)?;
        let period = network_virtual_storage::active_period(tables.file, at);
        put_virtual_storage(&mut lp.words[SHAPE_MADE_AT..], i, row as u16, period);
        at = network_virtual_storage::virtual_storage_end(tables.file, at);
    }
    Ok(())
}
