//! Rollouts: creating one.

ghost use Rattle.std.specs.Prelude.{◌≡◌, ◌≤◌, ◌+◌, ◌*◌, ◌/◌, ◌%◌, ◌++◌, [], ◌∷◌, length, IfErr, IfOk, IfSome};
ghost use Rattle.sql_calls.specs.declared.fault.Fault.TheVariants.{Memory};
ghost use Rattle.rollout_machine.specs.Commands.{CreateRollout};
ghost use Rattle.rollout_machine.specs.GroupRules.{rules_of};
ghost use Rattle.rollout_machine.specs.Groupings.{cut_by};
ghost use Rattle.campaign_core.specs.RolloutChecks.{IsPlanView};
ghost use Rattle.desk_commands.specs.private.Creations.{CreatesRollout, IsChosen, IsWordOf, in_part, shown_new};
ghost use Rattle.desk_records.specs.LedgerSteps.{AddsMembers};
ghost use Rattle.desk_store.specs.Counting.{AddsIn};
ghost use Rattle.desk_store.specs.Changing.{FindsIn, MakesLedger, StaysIn};
ghost use Rattle.desk_commands.specs.Changing.{StepsIn};
ghost use Rattle.desk_reads.specs.AtLists.{FailsAtListsIn};
ghost use Rattle.desk_commands.specs.Failures.{FailsStepIn};
ghost use Rattle.desk_store.specs.Failing.{WritesIn};

use crate::step::Step;
use campaign_core::{NewRollout, PlanView, cut_grouping, new_rollout};
use desk_reads::read_matching;
use desk_store::{
    Calls, Fault, read_approval, read_last_rollout, read_last_set, read_same_rollout, write_group,
    write_member, write_rollout, write_rule, write_sixteen_members,
};
use rollout_machine::Bounds;
use rollout_model::{
    Approval, ControllerId, FilterText, Reply, Rollout, RolloutNo, RolloutPlan, RolloutWord,
};
use sqlite::Alter;
use std::alloc::{AllocError, Global};
use target_filter::{Filter, FilterFault, laws};

/// The targets that the filter of a plan chooses.
#[derive(Drop)]
pub(crate) struct Chosen {
    /// Whether the text is no filter.
    pub bad_filter: bool,
    /// In byte order of their ids.
    pub members: Vec<ControllerId>,
}

/// The targets that the filter of a text chooses.
fn choose<S: Alter>(alloc: Global, calls: &mut Calls<S>, text: &FilterText) -> Result<Chosen, Fault>
    ensures stays { StaysIn S.Store calls.old calls.new result }
    ensures reads { FindsIn S.Store calls.old calls.new result (IsChosen text.now) }
    ensures fails { FailsAtListsIn S.Store calls.old calls.new result }
{
    let words = text.as_str();
    let filter = match Filter::read(alloc, words) {
        Ok(filter) => filter,
        Err(FilterFault::Memory) => return Err(Fault::Memory),
        Err(_) => {
            return Ok(Chosen {
                bad_filter: true,
                members: Vec::new(alloc),
            });
        }
    };
    laws::computed_filter();
    let members = read_matching(calls, &filter)?;
    Ok(Chosen {
        bad_filter: false,
        members,
    })
}

/// What the verdict on a plan rests on.
fn read_view<S: Alter>(
    calls: &mut Calls<S>,
    plan: &RolloutPlan,
    chosen: &Chosen,
    members: u32,
) -> Result<PlanView, Fault>
    requires { members ≡ length chosen.now.members.items }
    ensures stays { StaysIn S.Store calls.old calls.new result }
    ensures members { IfOk result (λ view. view.members ≡ members) }
    ensures reads { FindsIn S.Store calls.old calls.new result (λ r view. IsChosen plan.now.filter_text r chosen.now → IsPlanView view plan.now r) }
    ensures fails { FailsAtListsIn S.Store calls.old calls.new result }
{
    let last_set = read_last_set(calls)?;
    let same_name = read_same_rollout(calls, &plan.name)?;
    let count = read_last_rollout(calls)?;
    let approval = read_approval(calls)?;
    Ok(PlanView {
        bad_filter: chosen.bad_filter,
        misses_set: plan.set_number.get() > last_set,
        same_name,
        members,
        count,
        approval,
    })
}

/// The word of a rollout before it is started, or denied.
fn first_word(approval: Approval) -> RolloutWord
    ensures { IsWordOf approval result }
{
    match approval {
        Approval::Waiting => RolloutWord::WaitingForApproval,
        Approval::Denied => RolloutWord::ApprovalDenied,
        Approval::Given => RolloutWord::Ready,
    }
}

/// A new rollout as it is shown.
fn show_new(
    alloc: Global,
    plan: &RolloutPlan,
    created: &NewRollout,
    members: u32,
) -> Result<Rollout, AllocError>
    ensures { IfOk result (λ rollout. (word : _) × IsWordOf created.now.approval word × (rollout ≡ shown_new plan.now created.now.number word members)) }
{
    let name = plan.name.copy(alloc)?;
    let filter_text = plan.filter_text.copy(alloc)?;
    Ok(Rollout {
        number: created.number,
        name,
        set_number: plan.set_number,
        filter_text,
        word: first_word(created.approval),
        groups: plan.groups.count().get(),
        targets: members,
    })
}

/// Writes the members of a rollout that has none, sixteen by a statement, and those that are left behind them by one each.
fn write_members<S: Alter>(
    calls: &mut Calls<S>,
    number: RolloutNo,
    members: &[ControllerId],
) -> Result<(), Fault>
    requires few { length members.now ≤ 4294967295 }
    ensures stays { WritesIn S.Store calls.old calls.new result }
    ensures writes { MakesLedger S.Store calls.old calls.new result (AddsMembers number 1 members.now) }
    ensures work { AddsIn (length members.now / 16 + length members.now % 16) 0 calls.old calls.new }
{
    let (sixteens, rest) = members.as_chunks::<16>();
    for (i, ids) in sixteens.iter().enumerate() {
        write_sixteen_members(calls, number, i as u32 * 16 + 1, ids)?;
    }
    let before = sixteens.len() * 16;
    for (i, id) in rest.iter().enumerate() {
        write_member(calls, number, (before + i) as u32 + 1, id)?;
    }
    Ok(())
}

/// Writes a rollout with its groups, which have these bounds, with what is said of them, and with its members.
fn write_whole<S: Alter>(
    calls: &mut Calls<S>,
    plan: &RolloutPlan,
    created: &NewRollout,
    cuts: &[Bounds],
    members: &[ControllerId],
) -> Result<(), Fault>
    requires cut { cuts.now ≡ cut_by plan.now.groups (length members.now) }
    requires few { length members.now ≤ 4294967295 }
    ensures stays { WritesIn S.Store calls.old calls.new result }
    ensures writes { MakesLedger S.Store calls.old calls.new result
        (CreatesRollout (in_part created.now plan.now (length members.now) plan.now.groups.count members.now) (rules_of plan.now)) }
    ensures work { AddsIn (1 + plan.now.groups.count * 2 + (length members.now / 16 + length members.now % 16)) 0 calls.old calls.new }
{
    let number = created.number;
    let groups = plan.groups.count().get();
    write_rollout(calls, number, plan, created.approval)?;
    for i in 0..groups {
        let group = i + 1;
        let bounds = cuts[i as usize];
        write_group(calls, number, group, bounds)?;
        write_rule(calls, number.get(), group, &plan.group_rule(group))?;
    }
    write_members(calls, number, members)
}

/// How many members there are, where a reply can tell it: up to 4,294,967,295.
fn count_of(members: &[ControllerId]) -> Option<u32>
    ensures { IfSome result (λ count. count ≡ length members.now) }
{
    u32::try_from(members.len()).ok()
}

/// Creates a rollout: its members are the targets that match now. The memory of its reply and of its groups' bounds is taken before
/// anything is written.
pub(crate) fn create_rollout<S: Alter>(
    alloc: Global,
    calls: &mut Calls<S>,
    plan: &RolloutPlan,
) -> Result<Step, Fault>
    ensures stays { StaysIn S.Store calls.old calls.new result }
    ensures steps { StepsIn S.Store calls.old calls.new (CreateRollout plan.now) result }
    ensures fails { FailsStepIn S.Store calls.old calls.new result }
{
    let chosen = choose(alloc, calls, &plan.filter_text)?;
    let Some(count) = count_of(&chosen.members) else {
        return Err(Fault::Memory);
    };
    let view = read_view(calls, plan, &chosen, count)?;
    let created = match new_rollout(&view, &plan.groups) {
        Ok(created) => created,
        Err(refusal) => return Ok(Step::Refused(refusal)),
    };
    let shown = show_new(alloc, plan, &created, count)?;
    let cuts = cut_grouping(alloc, count, &plan.groups)?;
    write_whole(calls, plan, &created, &cuts, &chosen.members)?;
    Ok(Step::Accepted(Reply::RolloutAdded(shown)))
}
