// The step file: read left to right by the counts, kinds and flags of a store, or refused with 12 or 13.
#![tactic(auto)]

ghost use Rattle.std.specs.Prelude.{◌≡◌, ℕ, ◌+◌, ◌*◌, ◌≤◌, length};
ghost use Rattle.layout.specs.Layout.{node_ceiling, aggregate_ceiling, virtual_storage_ceiling, shape_length, nodes_in, aggregates_in, virtual_storages_in};
ghost use Rattle.pywr.specs.Answer.{Answer};
ghost use Rattle.pywr.specs.Answers.{answer_of};
ghost use Rattle.pywr.specs.StepFile.{read_step};
ghost use Rattle.pywr.specs.Store.{Store, shape_of};
ghost use Rattle.step_record.specs.Check.{check_aggregate, check_virtual_storage_step, date_length, aggregate_step_length, virtual_storage_step_length};
ghost use Rattle.step_file.specs.CheckStep.{check_nodes, check_records, check_end};

use layout::{
    AGGREGATE_COUNT_AT, NODE_COUNT_AT, NODE_FLAG, NODE_WIDTH, NODES_AT, VIRTUAL_STORAGE_COUNT_AT,
};
use pywr::{Answer, Reason};
use step_record::{
    AGGREGATE_STEP_LENGTH, DATE_LENGTH, NODE_STEP_LENGTH, VIRTUAL_STORAGE_STEP_LENGTH,
    check_aggregate, check_date, check_node, check_virtual_storage_step,
};

// The `NB` record of each node of the store.
fn check_nodes(file: &[u8], shape: &[u16]) -> Answer
    requires { (shape_length ≤ length shape.now) × (nodes_in shape.now ≤ node_ceiling) }
    ensures { (s : Store) → s.shape ≡ shape.now → result ≡ check_nodes file.now (shape_of s).nodes date_length }
{
    let nodes = usize::from(shape[NODE_COUNT_AT]);
    for k in 0..nodes {
        let word = NODES_AT + NODE_WIDTH * k;
        let at = DATE_LENGTH + NODE_STEP_LENGTH * k;
        check_node(file, at, shape[word], shape[word + NODE_FLAG])?;
    }
    Ok(())
}

// `count` records of `length` bytes each from `from`, each by its check.
fn check_records<F: Fn(usize) -> Answer>(
    check: F,
    length: usize,
    count: usize,
    from: usize,
) -> Answer
    requires checks { (at : ℕ) → at ≤ 65536 → F.pre check at }
    requires near { from + length * count ≤ 65536 }
    ensures { (g : ℕ → Answer) → ((at : ℕ) (r : _) → at ≤ 65536 → F.post check at r → r ≡ g at) → result ≡ check_records g length count from }
{
    for k in 0..count {
        check(from + length * k)?;
    }
    Ok(())
}

// `count` `GB` records from `from`.
fn check_aggregates(file: &[u8], from: usize, count: usize) -> Answer
    requires { (from ≤ 16384) × (count ≤ aggregate_ceiling) }
    ensures { result ≡ check_records (check_aggregate file.now) aggregate_step_length count from }
{
    check_records(
        |at| check_aggregate(file, at),
        AGGREGATE_STEP_LENGTH,
        count,
        from,
    )
}

// `count` `VB` records from `from`.
fn check_virtual_storages(file: &[u8], from: usize, count: usize) -> Answer
    requires { (from ≤ 16384) × (count ≤ virtual_storage_ceiling) }
    ensures { result ≡ check_records (check_virtual_storage_step file.now) virtual_storage_step_length count from }
{
    check_records(
        |at| check_virtual_storage_step(file, at),
        VIRTUAL_STORAGE_STEP_LENGTH,
        count,
        from,
    )
}

// No byte is left over from `end` on.
#[tactic(auto, using(std::proofs::lemmas::Bool::Decides::nat_tests), unfolding(crate::specs::CheckStep::check_end))]
fn check_end(file: &[u8], end: usize) -> Answer
    ensures { result ≡ check_end file.now end }
{
    if file.len() <= end {
        Ok(())
    } else {
        Err(Reason::WrongStepFile.at(end))
    }
}

// Judged by the store with this shape run; what it does not read may hold anything.
pub fn read_step(file: &[u8], shape: &[u16]) -> Answer
    requires { (shape_length ≤ length shape.now) × (nodes_in shape.now ≤ node_ceiling) × (aggregates_in shape.now ≤ aggregate_ceiling) × (virtual_storages_in shape.now ≤ virtual_storage_ceiling) }
    ensures { (s : Store) → s.shape ≡ shape.now
        → result ≡ answer_of (read_step (shape_of s).nodes (length (shape_of s).aggregates) (length (shape_of s).virtual_storages) file.now) }
{
    let nodes = usize::from(shape[NODE_COUNT_AT]);
    let aggregates = usize::from(shape[AGGREGATE_COUNT_AT]);
    let virtual_storages = usize::from(shape[VIRTUAL_STORAGE_COUNT_AT]);
    let aggregates_at = DATE_LENGTH + NODE_STEP_LENGTH * nodes;
    let virtual_storages_at = aggregates_at + AGGREGATE_STEP_LENGTH * aggregates;
    let end = virtual_storages_at + VIRTUAL_STORAGE_STEP_LENGTH * virtual_storages;
    check_date(file)?;
    check_nodes(file, shape)?;
    check_aggregates(file, aggregates_at, aggregates)?;
    check_virtual_storages(file, virtual_storages_at, virtual_storages)?;
    check_end(file, end)
}
