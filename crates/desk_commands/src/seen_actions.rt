//! An action as commands on it find it: with its group and its rollout.

ghost use Rattle.std.specs.Prelude.{◌≡◌, ◌+◌, MatchResult, Some};
ghost use Rattle.sql_calls.specs.declared.fault.Fault.TheVariants.{Broken};
ghost use Rattle.campaign_core.specs.OwnGroups.{waits};
ghost use Rattle.desk_store.specs.Counting.{AddsIn};
ghost use Rattle.rollout_machine.specs.Reports.{reported};
ghost use Rattle.desk_commands.specs.private.GroupViews.{EndsBeyond};
ghost use Rattle.desk_commands.specs.private.SeenReports.{reads_for, standing_in};
ghost use Rattle.desk_commands.specs.private.SeenActions.{MaySee, SeesIn, SeesFeedback, SeesTarget, action_view_seen};
ghost use Rattle.desk_commands.specs.private.SeenActions.{cancel_view_seen, device_action_seen, only_of, only_started, own_seen};
ghost use Rattle.desk_store.specs.Changing.{FindsIn, FindsLedger, StaysIn};
ghost use Rattle.desk_store.specs.Failing.{FailsGiven};
ghost use Rattle.desk_reads.specs.AtLists.{FailsAtListsIn};
ghost use Rattle.desk_commands.specs.Failures.{IsActionOf};

use crate::group_views::group_view;
use crate::reports::{SeenReport, see_report};
use crate::tags::lacks_target;
use campaign_core::{ActionView, CancelView, DeviceAction, OwnView};
use desk_reads::knows_device;
use desk_store::{
    Calls, Fault, StoredAction, StoredRollout, read_action, read_group_and_next, read_rollout,
    read_rule,
};
use rollout_machine::{GroupRecord, Standing};
use rollout_model::{ActionNo, Approval, ControllerId, DeviceFeedback, GroupRule, Said};
use sqlite::Alter;

/// An action with its group and its rollout.
#[derive(Clone, Copy)]
pub(crate) struct SeenAction {
    pub(crate) number: ActionNo,
    pub(crate) action: StoredAction,
    /// Of its rollout.
    pub(crate) approval: Approval,
    /// Whether its rollout is started.
    pub(crate) started: bool,
    /// Its group.
    pub(crate) own: GroupRecord,
    /// The group behind that one.
    pub(crate) next: Option<GroupRecord>,
    /// Its rollout, seen from its group.
    pub(crate) rollout: OwnView,
}

/// What a device's feedback finds.
#[derive(Clone, Copy)]
pub(crate) struct SeenFeedback {
    /// Whether no target has the device's id and the digest of its token.
    pub(crate) misses_device: bool,
    /// The action, where it is the device's and its group is started.
    pub(crate) action: Option<SeenAction>,
    /// How it stands among what the action has heard.
    pub(crate) report: SeenReport,
}

/// Whether the group is there and waits for its start.
fn waits(group: &Option<GroupRecord>) -> bool
    ensures { result ≡ waits group.now }
{
    match group {
        Some(group) => !group.started,
        None => false,
    }
}

/// The rollout, seen from this one of its groups, of which the rule says how it goes on. `next` is the one behind it.
fn own_view(
    rollout: &StoredRollout,
    rule: &GroupRule,
    own: &GroupRecord,
    next: &Option<GroupRecord>,
) -> Result<OwnView, Fault>
    ensures { MatchResult result
        (λ view. view ≡ own_seen rollout.now rule.now own.now next.now)
        (λ e. (e ≡ Broken) × EndsBeyond (Some own.now)) }
{
    let view = group_view(rule, own.number, Some(*own))?;
    Ok(OwnView {
        paused: rollout.paused,
        own: view,
        next_waits: own.started && waits(next),
    })
}

/// An action with what its group and its rollout are. Where they aren't there the store failed.
fn see_in<S: Alter>(
    calls: &mut Calls<S>,
    number: ActionNo,
    action: &StoredAction,
) -> Result<SeenAction, Fault>
    ensures stays { StaysIn S.Store calls.old calls.new result }
    ensures reads { FindsLedger S.Store calls.old calls.new result (λ l seen. SeesIn l number action.now seen) }
    ensures fails { FailsGiven S.Store (IsActionOf number action.now) calls.old calls.new result }
    ensures work { AddsIn 3 4 calls.old calls.new }
{
    let rollout = read_rollout(calls, action.rollout.get())?.ok_or(Fault::Broken)?;
    let found = read_group_and_next(calls, action.rollout, action.position)?;
    let own = found.group.ok_or(Fault::Broken)?;
    let rule = read_rule(calls, action.rollout, own.number)?.ok_or(Fault::Broken)?;
    let view = own_view(&rollout, &rule, &own, &found.next)?;
    Ok(SeenAction {
        number,
        action: *action,
        approval: rollout.approval,
        started: rollout.started,
        own,
        next: found.next,
        rollout: view,
    })
}

/// The action of a number.
fn see_action<S: Alter>(calls: &mut Calls<S>, number: ActionNo) -> Result<Option<SeenAction>, Fault>
    ensures stays { StaysIn S.Store calls.old calls.new result }
    ensures reads { FindsLedger S.Store calls.old calls.new result (MaySee number) }
    ensures fails { FailsAtListsIn S.Store calls.old calls.new result }
    ensures work { AddsIn 4 5 calls.old calls.new }
{
    let found = read_action(calls, number)?;
    match &found {
        Some(action) => {
            let seen = see_in(calls, number, action)?;
            Ok(Some(seen))
        }
        None => Ok(None),
    }
}

/// The action, where it is of this target.
fn only_of(id: &ControllerId, seen: Option<SeenAction>) -> Option<SeenAction>
    ensures { result ≡ only_of id.now seen }
{
    match seen {
        Some(seen) => {
            if seen.action.target == *id {
                Some(seen)
            } else {
                None
            }
        }
        None => None,
    }
}

/// The action, where its group is started.
fn only_started(seen: Option<SeenAction>) -> Option<SeenAction>
    ensures { result ≡ only_started seen }
{
    match seen {
        Some(seen) => { if seen.own.started { Some(seen) } else { None } }
        None => None,
    }
}

/// Whether the device is known, the action that its feedback is on, and how it stands among what that has heard.
pub(crate) fn see_feedback<S: Alter, W: Copy>(
    calls: &mut Calls<S>,
    given: &DeviceFeedback<W>,
    said: Said,
) -> Result<SeenFeedback, Fault>
    ensures stays { StaysIn S.Store calls.old calls.new result }
    ensures reads { FindsIn S.Store calls.old calls.new result
        (SeesFeedback given.now.credential given.now.action (reported (λ word. said) given.now)) }
    ensures fails { FailsAtListsIn S.Store calls.old calls.new result }
    ensures work { AddsIn (5 + reads_for given.now.number (standing_in (λ seen. seen.report.standing) result))
        (6 + reads_for given.now.number (standing_in (λ seen. seen.report.standing) result)) calls.old calls.new }
{
    let device = &given.credential;
    let knows = knows_device(calls, device)?;
    let seen = see_action(calls, given.action)?;
    let action = only_started(only_of(&device.id, seen));
    let report = see_report(calls, &action, given, said)?;
    Ok(SeenFeedback {
        misses_device: !knows,
        action,
        report,
    })
}

/// The action that is to be canceled, where it is of a target that is there.
pub(crate) fn see_target<S: Alter>(
    calls: &mut Calls<S>,
    id: &ControllerId,
    number: ActionNo,
) -> Result<Option<SeenAction>, Fault>
    ensures stays { StaysIn S.Store calls.old calls.new result }
    ensures reads { FindsIn S.Store calls.old calls.new result (SeesTarget id.now number) }
    ensures fails { FailsAtListsIn S.Store calls.old calls.new result }
    ensures work { AddsIn 5 6 calls.old calls.new }
{
    let lacks = lacks_target(calls, id)?;
    let seen = see_action(calls, number)?;
    if lacks {
        return Ok(None);
    }
    Ok(only_of(id, seen))
}

/// The action as the rules of commands rest on it.
fn action_view(seen: &SeenAction) -> ActionView
    ensures { result ≡ action_view_seen seen.now }
{
    ActionView {
        outcome: seen.action.outcome,
        canceling: seen.action.canceling,
        number: seen.action.rollout,
        rollout: seen.rollout,
    }
}

/// The action as the rules of feedback rest on it.
pub(crate) fn device_action(seen: &SeenAction, standing: Standing) -> DeviceAction
    ensures { result ≡ device_action_seen standing seen.now }
{
    DeviceAction {
        notes: seen.action.notes,
        standing,
        action: action_view(seen),
    }
}

/// The action as the rule of its cancel rests on it.
pub(crate) fn cancel_view(seen: &SeenAction) -> CancelView
    ensures { result ≡ cancel_view_seen seen.now }
{
    CancelView {
        started: seen.own.started,
        action: action_view(seen),
    }
}
