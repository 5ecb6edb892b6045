//! Reports of rollouts.

ghost use Rattle.std.specs.Prelude.{◌≡◌, IfErr, IfOk};
ghost use Rattle.rollout_machine.specs.GroupRules.{rules_of};
ghost use Rattle.rollout_machine.specs.Objects.{report_of};
ghost use Rattle.rollout_machine.specs.Requests.{ShowReport};
ghost use Rattle.rollout_machine.specs.Views.{report};
ghost use Rattle.rollout_machine.specs.declared.records.RolloutRecord.{RolloutRecord};
ghost use Rattle.desk_reads.specs.AtLists.{FailsAtListsIn};
ghost use Rattle.desk_reads.specs.Rollouts.{IsSeenOf};
ghost use Rattle.desk_store.specs.private.Rows.{IfRowsBroken};
ghost use Rattle.desk_views.specs.private.Groups.{HasUnshown};
ghost use Rattle.desk_views.specs.Showing.{ShowsIn};
ghost use Rattle.desk_store.specs.Changing.{StaysIn};

use crate::groups::all_shown;
use crate::rollouts::shown;
use desk_reads::{SeenRollout, read_seen_rollout};
use desk_store::{Calls, Fault, read_rules};
use rollout_model::{GroupRule, Refusal, Reply, RolloutNo, RolloutReport};
use sqlite::Alter;
use std::alloc::Global;

/// Shows a rollout with all its groups.
pub fn show_report<S: Alter>(
    alloc: Global,
    calls: &mut Calls<S>,
    number: RolloutNo,
) -> Result<Reply, Fault>
    ensures stays { StaysIn S.Store calls.old calls.new result }
    ensures shows { ShowsIn S.Store calls.old calls.new (ShowReport number) result }
    ensures fails { FailsAtListsIn S.Store calls.old calls.new result }
{
    let seen = match read_seen_rollout(calls, number)? {
        Some(seen) => seen,
        None => return Ok(Reply::Refused(Refusal::NotFound)),
    };
    let rules = read_rules(calls, number)?;
    let whole = report_of(alloc, seen, &rules)?;
    Ok(Reply::Report(whole))
}

/// The report of a rollout, by the rules of all its groups.
fn report_of(alloc: Global, seen: SeenRollout, rules: &[GroupRule]) -> Result<RolloutReport, Fault>
    ensures ok { IfOk result (λ whole. (x : RolloutRecord) → IsSeenOf seen x → rules.now ≡ rules_of x.plan → report whole ≡ report_of x) }
    ensures err { IfErr result (λ fault. IfRowsBroken fault (HasUnshown rules.now seen.groups.items)) }
{
    let groups = all_shown(alloc, &seen, rules, &seen.groups)?;
    let rollout = shown(seen);
    Ok(RolloutReport { rollout, groups })
}
