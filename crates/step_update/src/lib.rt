// The writing of a step whose file was judged: costs, bounds and coefficients (BuiltSolver::update of builder.rs).
#![tactic(auto)]

ghost use Rattle.step_row_bounds.specs.SameRuns.{SameRuns};
ghost use Rattle.step_update.specs.Updated.{CostsReady, RowsReady, CostsUpdated, RowsUpdated};

use step_row_bounds::StoreRows;

// Writes the costs of a step file that was read, and the bounds and coefficients of its intervals, which stand in the work run.
pub fn update(file: &[u8], col_obj_coef: &mut [f64], store: &mut StoreRows<'_>, work: &[f64])
    requires { CostsReady file.now col_obj_coef.old store.old.shape.now × RowsReady store.old.row_lower.now store.old.row_upper.now store.old.elements.now store.old.columns.now store.old.row_starts.now store.old.shape.now work.now }
    ensures written { CostsUpdated file.now store.old.shape.now col_obj_coef.old col_obj_coef.new
        × RowsUpdated store.old.row_lower.now store.old.row_upper.now store.old.elements.now store.old.columns.now store.old.row_starts.now store.old.shape.now work.now
        store.new.row_lower.now store.new.row_upper.now store.new.elements.now }
    ensures same { SameRuns store.old store.new }
{
    step_costs::update_edge_objectives(file, store.shape, col_obj_coef);
    step_rows::update_constraint_bounds(store, work);
}
