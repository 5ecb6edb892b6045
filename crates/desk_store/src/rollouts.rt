//! Rollouts, in a change that is under way.

ghost use Rattle.std.specs.List.{list_any};
ghost use Rattle.std.specs.Option.{option_map};
ghost use Rattle.std.specs.Prelude.{◌≡◌, length, pos, ◌≤◌};
ghost use Rattle.rollout_machine.specs.ByteStrings.{item_numbered};
ghost use Rattle.desk_records.specs.FeedbackNumbers.{last_number};
ghost use Rattle.desk_records.specs.LedgerSteps.{AddsRollout, SetsRollout};
ghost use Rattle.desk_records.specs.Listings.{IsLastNumber, FindsOne};
ghost use Rattle.desk_records.specs.RolloutRow.{stored_rollout};
ghost use Rattle.desk_records.specs.Rollouts.{is_called};
ghost use Rattle.desk_records.specs.Schema.{Rollouts};
ghost use Rattle.desk_store.specs.Blaming.{BlamesGiven, ReadsOf};
ghost use Rattle.desk_store.specs.Changing.{FindsLedger, FindsTables, KeepsTables, MakesLedger, StaysIn};
ghost use Rattle.desk_store.specs.Counting.{AddsIn};
ghost use Rattle.desk_store.specs.Failing.{FailsIn, FailsKeeping, WritesIn};
ghost use Rattle.sqlite_trees.specs.Tree.{has_rowid};
ghost use Rattle.desk_records.specs.TableRows.{IsRollout};
ghost use Rattle.desk_store.specs.Sharing.{KeepsStanding};

use crate::codes::{code_of_approval, flag_code};
use crate::reading::{approval_in, last_number, read_at, read_optional};
use crate::statements::{few, first, run};
use desk_records::{
    FIND_ROLLOUT, GET_DESK, GET_ROLLOUT, LAST_ROLLOUT, PUT_ROLLOUT, SET_ROLLOUT, StoredRollout,
};
use rollout_model::{Approval, RolloutNo, RolloutPlan, Text};
use sql_calls::{Calls, Fault};
use sqlite::{Alter, params};

/// Whether new rollouts wait for approval.
pub fn read_approval<S: Alter>(calls: &mut Calls<S>) -> Result<bool, Fault>
    ensures stays { StaysIn S.Store calls.old calls.new result }
    ensures reads { FindsLedger S.Store calls.old calls.new result (λ l approval. approval ≡ l.records.approval) }
    ensures fails { FailsIn S.Store calls.old calls.new result }
    ensures work { AddsIn 1 1 calls.old calls.new }
{
    let row = first(calls, GET_DESK, &[])?;
    approval_in(row)
}

/// Whether there is a rollout of the name.
pub fn read_same_rollout<S: Alter>(calls: &mut Calls<S>, name: &Text) -> Result<bool, Fault>
    ensures stays { StaysIn S.Store calls.old calls.new result }
    ensures reads { FindsLedger S.Store calls.old calls.new result (λ l found. found ≡ list_any (is_called name.now) l.records.rollouts) }
    ensures fails { FailsIn S.Store calls.old calls.new result }
    ensures work { AddsIn 1 1 calls.old calls.new }
{
    let row = first(calls, FIND_ROLLOUT, params![name.as_str()])?;
    Ok(row.is_some())
}

/// The number of the last rollout, which is how many there are. Whatever rows there are, it is the greatest number.
pub fn read_last_rollout<S: Alter>(calls: &mut Calls<S>) -> Result<u32, Fault>
    ensures stays { StaysIn S.Store calls.old calls.new result }
    ensures standing { KeepsStanding S.Store calls.old calls.new result }
    ensures reads { FindsLedger S.Store calls.old calls.new result (λ l last. last ≡ length l.records.rollouts) }
    ensures tells { FindsTables S.Store calls.old calls.new result (λ t last. IsLastNumber (t Rollouts) last) }
    ensures fails { FailsIn S.Store calls.old calls.new result }
    ensures columns { FailsKeeping S.Store Rollouts calls.old calls.new result }
    ensures blames { BlamesGiven S.Store (ReadsOf Rollouts) calls.old calls.new result }
    ensures work { AddsIn 1 1 calls.old calls.new }
{
    let row = first(calls, LAST_ROLLOUT, &[])?;
    last_number(row)
}

/// The rollout of a number, without its members and groups. A row that breaks a column's rule is `Broken`.
pub fn read_rollout<S: Alter>(
    calls: &mut Calls<S>,
    number: u32,
) -> Result<Option<StoredRollout>, Fault>
    requires { 1 ≤ number }
    ensures stays { StaysIn S.Store calls.old calls.new result }
    ensures standing { KeepsStanding S.Store calls.old calls.new result }
    ensures keeps { KeepsTables S.Store calls.old calls.new result }
    ensures reads { FindsLedger S.Store calls.old calls.new result (λ l found. found ≡ option_map stored_rollout (item_numbered l.records.rollouts number)) }
    ensures fails { FailsIn S.Store calls.old calls.new result }
    ensures columns { FailsKeeping S.Store Rollouts calls.old calls.new result }
    ensures work { AddsIn 1 1 calls.old calls.new }
{
    let alloc = calls.alloc();
    let row = first(calls, GET_ROLLOUT, params![number])?;
    read_optional(alloc, row)
}

/// Adds the rollout of the next number, which is neither started nor paused and has no members and groups yet.
pub fn write_rollout<S: Alter>(
    calls: &mut Calls<S>,
    number: RolloutNo,
    plan: &RolloutPlan,
    approval: Approval,
) -> Result<(), Fault>
    ensures stays { WritesIn S.Store calls.old calls.new result }
    ensures writes { MakesLedger S.Store calls.old calls.new result (AddsRollout number plan.now approval) }
    ensures work { AddsIn 1 0 calls.old calls.new }
{
    let success = u32::from(plan.success.get());
    let error = u32::from(plan.error.get());
    let approval = code_of_approval(approval);
    run(
        calls,
        PUT_ROLLOUT,
        params![
            number.get(),
            plan.name.as_str(),
            plan.set_number.get(),
            plan.filter_text.as_str(),
            plan.groups.count().get(),
            success,
            error,
            approval
        ],
    )
}

/// Sets whether a rollout that is there is approved, is started and is paused.
pub fn change_rollout<S: Alter>(
    calls: &mut Calls<S>,
    number: RolloutNo,
    approval: Approval,
    started: bool,
    paused: bool,
) -> Result<(), Fault>
    ensures stays { WritesIn S.Store calls.old calls.new result }
    ensures writes { MakesLedger S.Store calls.old calls.new result (SetsRollout number approval started paused) }
    ensures work { AddsIn 1 0 calls.old calls.new }
{
    let approval_code = code_of_approval(approval);
    let started_code = flag_code(started);
    let paused_code = flag_code(paused);
    run(
        calls,
        SET_ROLLOUT,
        params![number.get(), approval_code, started_code, paused_code],
    )
}

/// The rollout of a number, whatever rows there are. A row that breaks a column's rule is `Broken`, and so is a second row of the number.
pub fn find_rollout<S: Alter>(
    calls: &mut Calls<S>,
    number: RolloutNo,
) -> Result<Option<StoredRollout>, Fault>
    ensures stays { StaysIn S.Store calls.old calls.new result }
    ensures reads { FindsTables S.Store calls.old calls.new result (λ t found. FindsOne (t Rollouts) (has_rowid (pos number)) IsRollout found) }
    ensures blames { BlamesGiven S.Store (ReadsOf Rollouts) calls.old calls.new result }
    ensures work { AddsIn 1 1 calls.old calls.new }
{
    let alloc = calls.alloc();
    let Some(rows) = few(calls, GET_ROLLOUT, params![number.get()], 1)? else {
        return Err(Fault::Broken);
    };
    read_at(alloc, &rows, 0)
}
