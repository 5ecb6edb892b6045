//! What the tables of later versions hold of the records of an older one.

ghost use Rattle.std.specs.Prelude.{◌≢◌, ◌≤◌, IfErr};
ghost use Rattle.desk_records.specs.Holds.{HoldsLedger};
ghost use Rattle.desk_store.specs.Breaking.{TellsFirst};
ghost use Rattle.desk_store.specs.Changing.{MakesLedger, StaysIn, seen_in};
ghost use Rattle.desk_store.specs.Failing.{nothing};
ghost use Rattle.desk_store.specs.Sharing.{KeepsStanding};
ghost use Rattle.desk_opening.specs.Counting.{HasReadable};
ghost use Rattle.desk_opening.specs.private.Filling.{FillsLater, FillsRollout, GivenBare, GivenRules, WritesCopies, WritesRules};

use desk_records::Version;
use desk_store::{Calls, Fault, read_last_rollout, read_rollout, write_rule};
use rollout_model::GroupRule;
use sqlite::Alter;

/// Fills the tables that a version doesn't have.
pub(crate) fn fill_later<S: Alter>(calls: &mut Calls<S>, version: Version) -> Result<(), Fault>
    ensures stays { StaysIn S.Store calls.old calls.new result }
    ensures standing { KeepsStanding S.Store calls.old calls.new result }
    ensures writes { MakesLedger S.Store calls.old calls.new result (FillsLater version) }
    ensures fails { TellsFirst HoldsLedger (GivenBare version) nothing (seen_in S.Store calls.old) (seen_in S.Store calls.new) result }
{
    match version {
        Version::One => write_rules(calls),
        Version::Two | Version::Three => Ok(()),
    }
}

/// Says of each group of all rollouts what its rollout says of all its groups.
fn write_rules<S: Alter>(calls: &mut Calls<S>) -> Result<(), Fault>
    ensures stays { StaysIn S.Store calls.old calls.new result }
    ensures standing { KeepsStanding S.Store calls.old calls.new result }
    ensures writes { MakesLedger S.Store calls.old calls.new result WritesRules }
    ensures fails { TellsFirst HoldsLedger GivenRules nothing (seen_in S.Store calls.old) (seen_in S.Store calls.new) result }
{
    let last = read_last_rollout(calls)?;
    for k in 0..last {
        write_rules_of(calls, k + 1)?;
    }
    Ok(())
}

/// The same of one rollout.
fn write_rules_of<S: Alter>(calls: &mut Calls<S>, number: u32) -> Result<(), Fault>
    requires { 1 ≤ number }
    ensures stays { StaysIn S.Store calls.old calls.new result }
    ensures standing { KeepsStanding S.Store calls.old calls.new result }
    ensures writes { MakesLedger S.Store calls.old calls.new result (FillsRollout number) }
    ensures fails { TellsFirst HoldsLedger (HasReadable number) nothing (seen_in S.Store calls.old) (seen_in S.Store calls.new) result }
{
    match read_rollout(calls, number)? {
        Some(rollout) => {
            let plan = &rollout.plan;
            let rule = GroupRule::evenly(plan.success, plan.error);
            write_copies(calls, number, plan.groups.get(), &rule)
        }
        None => Err(Fault::Broken),
    }
}

/// Says the same of each of so many groups of a rollout.
fn write_copies<S: Alter>(
    calls: &mut Calls<S>,
    number: u32,
    groups: u32,
    rule: &GroupRule,
) -> Result<(), Fault>
    ensures stays { StaysIn S.Store calls.old calls.new result }
    ensures standing { KeepsStanding S.Store calls.old calls.new result }
    ensures writes { MakesLedger S.Store calls.old calls.new result (WritesCopies number groups rule.now) }
    ensures sound { IfErr result (λ fault. fault ≢ Fault.Broken) }
{
    for i in 0..groups {
        write_rule(calls, number, i + 1, rule)?;
    }
    Ok(())
}
