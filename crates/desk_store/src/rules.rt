//! What is said of the groups of rollouts, in a change that is under way.

ghost use Rattle.std.specs.Prelude.{◌≡◌, None, ◌≢◌, IfErr};
ghost use Rattle.desk_records.specs.LedgerSteps.{AddsRule};
ghost use Rattle.desk_records.specs.Rollouts.{rule_numbered, rules_numbered};
ghost use Rattle.desk_store.specs.Changing.{FindsLedger, FindsTables, MakesLedger, StaysIn};
ghost use Rattle.desk_store.specs.Counting.{AddsIn, RunsIn};
ghost use Rattle.desk_store.specs.Failing.{FailsIn, WritesIn};
ghost use Rattle.desk_records.specs.FoundPieces.{lies_at};
ghost use Rattle.desk_records.specs.Listings.{FindsOne};
ghost use Rattle.desk_records.specs.Schema.{Rules};
ghost use Rattle.desk_store.specs.Blaming.{BlamesGiven, ReadsOf};
ghost use Rattle.desk_store.specs.RawLists.{SaysRule};
ghost use Rattle.desk_store.specs.Sharing.{KeepsStanding};

use crate::reading::{read_all, read_at, read_optional};
use crate::statements::{ask, few, first};
use desk_records::{GET_RULE, LIST_RULES, PUT_RULE};
use rollout_model::{GroupRule, Percentage, RolloutNo};
use sql_calls::{Calls, Fault};
use sqlite::{Alter, params};

/// What is said of the group of a rollout and a number. A row that breaks a column's rule is `Broken`.
pub fn read_rule<S: Alter>(
    calls: &mut Calls<S>,
    number: RolloutNo,
    group: u32,
) -> Result<Option<GroupRule>, Fault>
    ensures stays { StaysIn S.Store calls.old calls.new result }
    ensures reads { FindsLedger S.Store calls.old calls.new result (λ l found. found ≡ rule_numbered l.rules number group) }
    ensures fails { FailsIn S.Store calls.old calls.new result }
    ensures work { AddsIn 1 1 calls.old calls.new }
{
    let alloc = calls.alloc();
    let row = first(calls, GET_RULE, params![number.get(), group])?;
    read_optional(alloc, row)
}

/// What is said of each group of a rollout, in the order of their numbers; nothing where there is no such rollout. A row that breaks a
/// column's rule is `Broken`.
pub fn read_rules<S: Alter>(
    calls: &mut Calls<S>,
    number: RolloutNo,
) -> Result<Vec<GroupRule>, Fault>
    ensures stays { StaysIn S.Store calls.old calls.new result }
    ensures reads { FindsLedger S.Store calls.old calls.new result (λ l found. found.items ≡ rules_numbered l.rules number) }
    ensures fails { FailsIn S.Store calls.old calls.new result }
    ensures work { RunsIn 1 calls.old calls.new }
{
    let alloc = calls.alloc();
    let rows = ask(calls, LIST_RULES, params![number.get()])?;
    read_all(alloc, &rows)
}

/// Says something of the next group of a rollout that nothing is said of.
pub fn write_rule<S: Alter>(
    calls: &mut Calls<S>,
    number: u32,
    group: u32,
    rule: &GroupRule,
) -> Result<(), Fault>
    ensures stays { WritesIn S.Store calls.old calls.new result }
    ensures standing { KeepsStanding S.Store calls.old calls.new result }
    ensures sound { IfErr result (λ fault. fault ≢ Fault.Broken) }
    ensures writes { MakesLedger S.Store calls.old calls.new result (AddsRule number group rule.now) }
    ensures work { AddsIn 1 0 calls.old calls.new }
{
    let percentage = percent_of(&rule.percentage);
    let success = u32::from(rule.success.get());
    let error = u32::from(rule.error.get());
    calls.run(PUT_RULE, params![number, group, percentage, success, error])
}

fn percent_of(percentage: &Option<Percentage>) -> Option<u32>
    ensures { result ≡ percentage.now }
{
    match percentage {
        Some(percentage) => Some(u32::from(percentage.get())),
        None => None,
    }
}

/// What is said of the group of a rollout and a number, whatever rows there are. A row that breaks a column's rule is `Broken`, and so is a
/// second row of the group.
pub fn find_rule<S: Alter>(
    calls: &mut Calls<S>,
    number: RolloutNo,
    group: u32,
) -> Result<Option<GroupRule>, Fault>
    ensures stays { StaysIn S.Store calls.old calls.new result }
    ensures reads { FindsTables S.Store calls.old calls.new result (λ t found. FindsOne (t Rules) (lies_at number group) SaysRule found) }
    ensures blames { BlamesGiven S.Store (ReadsOf Rules) calls.old calls.new result }
    ensures work { AddsIn 1 1 calls.old calls.new }
{
    let alloc = calls.alloc();
    let Some(rows) = few(calls, GET_RULE, params![number.get(), group], 1)? else {
        return Err(Fault::Broken);
    };
    read_at(alloc, &rows, 0)
}
