//! How a rollout goes on: by a resume, and by a trigger of its next group.

ghost use Rattle.std.specs.Prelude.{◌≡◌, ◌∷◌, Some, [], cond, nat_eq, not};
ghost use Rattle.std.specs.List.{list_any};
ghost use Rattle.rollout_machine.specs.ByteStrings.{item_numbered};
ghost use Rattle.rollout_machine.specs.GroupRules.{rule_at};
ghost use Rattle.rollout_machine.specs.RecordSteps.{last_started, view_of};
ghost use Rattle.rollout_machine.specs.declared.records.RolloutRecord.{RolloutRecord};
ghost use Rattle.desk_reads.specs.AtLists.{FindsAtListsIn};
ghost use Rattle.desk_reads.specs.Rollouts.{IsSeenOf};
ghost use Rattle.desk_commands.specs.private.Standings.{GoesOn, JudgesGoing, gone_by, group_if, pause_left, starts_by};
ghost use Rattle.desk_store.specs.Changing.{FindsIn, MakesLedger, StaysIn};
ghost use Rattle.desk_commands.specs.Changing.{StepsIn};
ghost use Rattle.desk_store.specs.Counting.{RunsIn};
ghost use Rattle.desk_store.specs.Failing.{FailsGiven, WritesIn};
ghost use Rattle.desk_commands.specs.Failures.{FailsStepIn, IsSeenFrom, IsSeenIn};

use crate::group_views::group_view;
use crate::groups::start_if;
use crate::standing::refusal_in;
use crate::step::Step;
use campaign_core::{ResumeView, TriggerView, after_resume, after_trigger, resume, trigger};
use desk_reads::{SeenRollout, read_seen_rollout};
use desk_store::{Calls, Fault, change_rollout, read_rule};
use rollout_machine::{GroupRecord, RolloutView};
use rollout_model::{GroupRule, Refusal, Reply, RolloutNo};
use sqlite::Alter;

/// What lets a rollout go on.
#[derive(Clone, Copy)]
pub(crate) enum Going {
    /// A paused one: where its last started group has success, the next one starts.
    Resumed,
    /// A running one: its next group starts, whatever the success of the last one.
    Triggered,
}

/// The number of a group that comes after the last started one, if it is started.
fn last_after(last: u32, group: &GroupRecord) -> u32
    ensures { result ≡ cond (nat_eq (last_started (group.now ∷ [])) 0) last (last_started (group.now ∷ [])) }
{
    if group.started && group.number > 0 {
        group.number
    } else {
        last
    }
}

/// The number of the last started group, or 0.
fn last_started(groups: &[GroupRecord]) -> u32
    ensures { result ≡ last_started groups.now }
{
    let mut last = 0;
    for group in groups {
        last = last_after(last, group);
    }
    last
}

/// The group of a number, from 1.
fn group_at(groups: &[GroupRecord], number: u32) -> Option<GroupRecord>
    ensures { result ≡ item_numbered groups.now number }
{
    if number == 0 {
        return None;
    }
    groups.get(number as usize - 1).copied()
}

/// What is said of the last started group of a rollout, which has this number, or 0 where none is started.
fn read_last_rule<S: Alter>(
    calls: &mut Calls<S>,
    number: RolloutNo,
    seen: &SeenRollout,
    last: u32,
) -> Result<GroupRule, Fault>
    ensures stays { StaysIn S.Store calls.old calls.new result }
    ensures reads { FindsIn S.Store calls.old calls.new result
        (λ r rule. (x : RolloutRecord) → item_numbered r.rollouts number ≡ Some x → IsSeenOf seen.now x → rule ≡ rule_at x.plan last) }
    ensures fails { FailsGiven S.Store (IsSeenFrom number seen.now last) calls.old calls.new result }
    ensures work { RunsIn 1 calls.old calls.new }
{
    if last == 0 {
        return Ok(GroupRule::evenly(seen.plan.success, seen.plan.error));
    }
    let rule = read_rule(calls, number, last)?.ok_or(Fault::Broken)?;
    Ok(rule)
}

/// A rollout, seen from its last started group.
fn read_view<S: Alter>(
    calls: &mut Calls<S>,
    number: RolloutNo,
    seen: &SeenRollout,
) -> Result<RolloutView, Fault>
    ensures stays { StaysIn S.Store calls.old calls.new result }
    ensures reads { FindsAtListsIn S.Store calls.old calls.new result
        (λ now view. (x : RolloutRecord) → item_numbered now.rollouts number ≡ Some x → IsSeenOf seen.now x → view ≡ view_of x (last_started x.groups)) }
    ensures fails { FailsGiven S.Store (IsSeenIn number seen.now) calls.old calls.new result }
    ensures work { RunsIn 1 calls.old calls.new }
{
    let started = last_started(&seen.groups);
    let rule = read_last_rule(calls, number, seen, started)?;
    let last = group_view(&rule, started, group_at(&seen.groups, started))?;
    Ok(RolloutView {
        paused: seen.paused,
        groups: seen.plan.groups.get(),
        own: last,
        last,
    })
}

/// Whether a group is left to start.
fn has_next(groups: &[GroupRecord]) -> bool
    ensures { result ≡ list_any (λ g. not g.started) groups.now }
{
    groups.iter().any(|group| !group.started)
}

/// Why a rollout can't go on so, if it can't.
fn refusal_of(going: Going, seen: &SeenRollout, rollout: RolloutView) -> Option<Refusal>
    ensures { JudgesGoing going seen.now rollout result }
{
    let word = seen.word();
    match going {
        Going::Resumed => refusal_in(resume(&Some(ResumeView { word, rollout }))),
        Going::Triggered => {
            let has_next = has_next(&seen.groups);
            refusal_in(trigger(&Some(TriggerView {
                word,
                has_next,
                rollout,
            })))
        }
    }
}

/// The number of the group that starts then.
fn start_of(going: Going, rollout: &RolloutView) -> Option<u32>
    ensures { result ≡ starts_by going rollout.now }
{
    match going {
        Going::Resumed => after_resume(rollout).starts,
        Going::Triggered => after_trigger(rollout).starts,
    }
}

/// The group of the number, if one starts. Where it isn't there the store failed.
fn group_if(groups: &[GroupRecord], starts: Option<u32>) -> Result<Option<GroupRecord>, Fault>
    ensures { result ≡ group_if groups.now starts }
{
    match starts {
        Some(number) => {
            let group = group_at(groups, number).ok_or(Fault::Broken)?;
            Ok(Some(group))
        }
        None => Ok(None),
    }
}

/// Whether the rollout is paused then.
fn pause_of(going: Going, paused: bool) -> bool
    ensures { result ≡ pause_left going paused }
{
    match going {
        Going::Resumed => false,
        Going::Triggered => paused,
    }
}

/// Writes whether a rollout is paused, and starts a group of it, if one is to start.
fn write_going<S: Alter>(
    calls: &mut Calls<S>,
    number: RolloutNo,
    seen: &SeenRollout,
    paused: bool,
    group: &Option<GroupRecord>,
) -> Result<(), Fault>
    ensures stays { WritesIn S.Store calls.old calls.new result }
    ensures writes { MakesLedger S.Store calls.old calls.new result (GoesOn number seen.now paused group.now) }
    ensures work { RunsIn 3 calls.old calls.new }
{
    change_rollout(calls, number, seen.approval, seen.started, paused)?;
    start_if(calls, number, group)
}

/// Lets a rollout go on, where it can.
pub(crate) fn go_on<S: Alter>(
    calls: &mut Calls<S>,
    number: RolloutNo,
    going: Going,
) -> Result<Step, Fault>
    ensures stays { StaysIn S.Store calls.old calls.new result }
    ensures steps { StepsIn S.Store calls.old calls.new (gone_by going number) result }
    ensures fails { FailsStepIn S.Store calls.old calls.new result }
    ensures work { RunsIn 6 calls.old calls.new }
{
    let found = read_seen_rollout(calls, number)?;
    let Some(seen) = found else {
        return Ok(Step::Refused(Refusal::NotFound));
    };
    let rollout = read_view(calls, number, &seen)?;
    if let Some(refusal) = refusal_of(going, &seen, rollout) {
        return Ok(Step::Refused(refusal));
    }
    let paused = pause_of(going, seen.paused);
    let group = group_if(&seen.groups, start_of(going, &rollout))?;
    write_going(calls, number, &seen, paused, &group)?;
    Ok(Step::Accepted(Reply::Done))
}
