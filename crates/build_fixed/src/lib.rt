// The fixed rows of a programme: mass balances, constant bounds, mutual exclusivity.
#![tactic(auto)]

ghost use Rattle.std.specs.Prelude.{◌≡◌, List, ◌++◌};
ghost use Rattle.pywr.specs.Rows.{column_map};
ghost use Rattle.pywr.specs.Programme.{Row, Maker};
ghost use Rattle.pywr.specs.Makers.{fixed_makers};
ghost use Rattle.pywr.specs.Build.{programme_of};
ghost use Rattle.build_node_row.specs.EdgeColumns.{edge_columns_of};
ghost use Rattle.build_node_row.specs.Tables.{network_of, TablesHold, SetTables};
ghost use Rattle.build_append.specs.LpBuilder.{filled_then, SameRuns};
ghost use Rattle.build_makers.specs.MadeRows.{MadeHeld, MadeHolding, AfterMade};
ghost use Rattle.layout.specs.WorkRoom.{WorkRoom};

use build_append::LpBuilder;
use build_exclusive_sets::{ExclusiveSets, Memberships, ProgrammeFull};
use build_node_row::EdgeTables;

// The fixed rows, each with its maker: mass balances, constant bounds, mutual exclusivity.
pub fn add_fixed_rows(
    tables: &EdgeTables<'_>,
    sets: &ExclusiveSets,
    memberships: &Memberships,
    lp: &mut LpBuilder<'_>,
) -> Result<(), ProgrammeFull>
    requires { TablesHold tables.now
        × SetTables tables.now.file.now tables.now.counts sets.now.at sets.now.count memberships.now × (tables.now.edge_columns ≡ edge_columns_of tables.now.file.now tables.now.counts)
        × WorkRoom lp.old.words.now lp.old.numbers.now × MadeHolding lp.old.words.now lp.old.numbers.now lp.old.filled }
    ensures rows { (rows : List Row) (makers : List Maker) → MadeHeld rows makers lp.old.words.now lp.old.numbers.now lp.old.filled
        → AfterMade (rows ++ (programme_of lp.old.sentinel (network_of tables.now.file.now tables.now.counts)).programme.fixed)
        (makers ++ fixed_makers lp.old.sentinel (column_map (network_of tables.now.file.now tables.now.counts)) (network_of tables.now.file.now tables.now.counts))
        lp.old.words.now (filled_then result lp.new.filled) lp.new.words.now lp.new.numbers.now }
    ensures same { SameRuns lp.old lp.new }
{
    build_mass::create_mass_balance_constraints(tables, lp)?;
    build_constants::create_constant_constraints(tables, memberships, lp)?;
    build_exclusivity::create_mutual_exclusivity_constraints(tables, sets, lp)
}
