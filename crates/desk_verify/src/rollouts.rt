//! The checks that go from rollout to rollout.

ghost use Rattle.std.specs.Prelude.{◌≡◌, ℕ, IfOk};
ghost use Rattle.sqlite_value.specs.Order.{Row};
ghost use Rattle.desk_records.specs.Schema.{Place};
ghost use Rattle.desk_records.specs.Tables.{Tables};
ghost use Rattle.desk_store.specs.Blaming.{BlamesGiven, Reading};
ghost use Rattle.desk_store.specs.Changing.{FindsTables, StaysIn};
ghost use Rattle.desk_verify.specs.private.RolloutChecks.{HasRollout, IsAtRollout, IsGoneThrough, JudgesAll, JudgesOne, ReadsUpTo};

use desk_store::{Calls, Fault, StoredRollout, find_rollout, read_last_rollout};
use rollout_model::RolloutNo;
use sqlite::Alter;

/// A rollout that is there.
#[derive(Drop)]
pub(crate) struct NumberedRollout {
    pub(crate) number: RolloutNo,
    pub(crate) rollout: StoredRollout,
}

/// A table whose rows are each of a rollout.
pub(crate) trait ByRollout<S: Alter> {
    ghost table: { Place };

    // where a row has its rollout's number
    ghost column: { ℕ };

    // how each row is to be
    ghost is_right: { Tables → Row → Type 0 };

    // that a rollout has what it is to have
    ghost is_whole: { Tables → ℕ → Type 0 };

    ghost agrees: { Tables → Type 0 };

    // what is known of the tables that were checked before, and which are read
    ghost given: { Reading → Type 0 };

    /// How many rows are of the rollout; `None` where the table doesn't agree.
    fn check_rollout(
        calls: &mut Calls<S>,
        rollout: &NumberedRollout,
    ) -> Result<Option<usize>, Fault>
        ensures stays { StaysIn S.Store calls.old calls.new result }
        ensures judges { FindsTables S.Store calls.old calls.new result
            (λ t count. HasRollout t rollout.now.number rollout.now.rollout → JudgesOne table column is_right is_whole agrees t rollout.now.number count) }
        ensures blames { BlamesGiven S.Store (IsAtRollout given rollout.now.number rollout.now.rollout) calls.old calls.new result };
}

/// How many rows are of rollouts that are there; `None` where the table doesn't agree.
pub(crate) fn check_rollouts<T: ByRollout<S>, S: Alter>(
    calls: &mut Calls<S>,
) -> Result<Option<usize>, Fault>
    ensures stays { StaysIn S.Store calls.old calls.new result }
    ensures judges { FindsTables S.Store calls.old calls.new result (λ t count. JudgesAll T.table T.column T.is_right T.is_whole T.agrees t count) }
    ensures blames { BlamesGiven S.Store (IsGoneThrough T.table T.given) calls.old calls.new result }
{
    let last = read_last_rollout(calls)?;
    let mut listed: usize = 0;
    for before in 0..last {
        let rollout = rollout_of(calls, before + 1)?;
        let Some(count) = T::check_rollout(calls, &rollout)? else {
            return Ok(None);
        };
        listed = match listed.checked_add(count) {
            Some(sum) => sum,
            None => return Err(Fault::Broken),
        };
    }
    Ok(Some(listed))
}

/// The rollout of a number, which has to be there: none of this number, or one whose row breaks a rule, is `Broken`.
fn rollout_of<S: Alter>(calls: &mut Calls<S>, number: u32) -> Result<NumberedRollout, Fault>
    ensures stays { StaysIn S.Store calls.old calls.new result }
    ensures number { IfOk result (λ it. it.number ≡ number) }
    ensures reads { FindsTables S.Store calls.old calls.new result (λ t it. HasRollout t it.number it.rollout) }
    ensures blames { BlamesGiven S.Store (ReadsUpTo number) calls.old calls.new result }
{
    let Some(number) = RolloutNo::new(number) else {
        return Err(Fault::Broken);
    };
    match find_rollout(calls, number)? {
        Some(rollout) => Ok(NumberedRollout { number, rollout }),
        None => Err(Fault::Broken),
    }
}
