//! Rollouts with their groups, as they are read.

ghost use Rattle.std.specs.Prelude.{◌≡◌, ◌+◌, ◌&&◌, Some, length};
ghost use Rattle.std.specs.List.{list_all};
ghost use Rattle.rollout_machine.specs.ByteStrings.{item_numbered};
ghost use Rattle.rollout_machine.specs.declared.records.RolloutRecord.{RolloutRecord};
ghost use Rattle.rollout_machine.specs.Groups.{size_of_bounds};
ghost use Rattle.rollout_machine.specs.StateWords.{all_final, rollout_word};
ghost use Rattle.campaign_core.specs.RolloutChecks.{BothOrNone};
ghost use Rattle.desk_records.specs.RolloutRow.{stored_rollout};
ghost use Rattle.desk_reads.specs.Rollouts.{IsSeenOf, last_place};
ghost use Rattle.desk_reads.specs.AtLists.{FailsAtListsIn, FindsAtListsIn};
ghost use Rattle.desk_store.specs.Changing.{StaysIn};
ghost use Rattle.desk_store.specs.Counting.{RunsIn};

use campaign_core::{GroupStatus, RolloutStatus, rollout_word};
use desk_store::{Calls, Fault, StoredRollout, ToldPlan, read_groups, read_rollout};
use rollout_machine::GroupRecord;
use rollout_model::{Approval, RolloutNo, RolloutWord};
use sqlite::Alter;

/// What is kept of a rollout beside its members.
#[derive(Drop)]
pub struct SeenRollout {
    pub number: RolloutNo,
    pub plan: ToldPlan,
    pub approval: Approval,
    pub started: bool,
    pub paused: bool,
    /// In the order of their numbers.
    pub groups: Vec<GroupRecord>,
}

impl SeenRollout {
    /// How far the rollout is.
    pub fn word(&self) -> RolloutWord
        ensures { (x : RolloutRecord) → IsSeenOf self.now x → result ≡ rollout_word x }
    {
        let status = RolloutStatus {
            approval: self.approval,
            started: self.started,
            paused: self.paused,
        };
        if are_over(&self.groups) {
            rollout_word(&status, &[])
        } else {
            rollout_word(&status, &[OPEN])
        }
    }

    /// How many members the rollout has.
    pub fn members(&self) -> u32
        ensures { (x : RolloutRecord) → IsSeenOf self.now x → result ≡ length x.members }
    {
        last_place(&self.groups)
    }
}

/// A group that isn't over: it stands for any such one.
const OPEN: GroupStatus = GroupStatus {
    started: false,
    size: 0,
    ok: 0,
    bad: 0,
    gone: 0,
    error: 0,
};

/// How many members a group has.
pub fn size_of(group: &GroupRecord) -> u64
    ensures { result ≡ size_of_bounds group.now.bounds }
{
    (group.bounds.last as u64 + 1).saturating_sub(group.bounds.first as u64)
}

/// Whether a group is started and each of its actions has its outcome.
fn is_over(group: &GroupRecord) -> bool
    ensures { result ≡ (group.now.started && all_final group.now) }
{
    group.started && group.ok as u64 + group.bad as u64 + group.gone as u64 == size_of(group)
}

/// Whether each of them is.
fn are_over(groups: &[GroupRecord]) -> bool
    ensures { result ≡ list_all (λ g. g.started && all_final g) groups.now }
{
    groups.iter().all(|group| is_over(group))
}

/// The place of the last member of the last group.
fn last_place(groups: &[GroupRecord]) -> u32
    ensures { result ≡ last_place groups.now }
{
    match groups.last() {
        Some(group) => group.bounds.last,
        None => 0,
    }
}

/// The rollout of a number with all that is kept of it beside its members.
pub fn read_seen_rollout<S: Alter>(
    calls: &mut Calls<S>,
    number: RolloutNo,
) -> Result<Option<SeenRollout>, Fault>
    ensures stays { StaysIn S.Store calls.old calls.new result }
    ensures reads { FindsAtListsIn S.Store calls.old calls.new result (λ now found. BothOrNone IsSeenOf found (item_numbered now.rollouts number)) }
    ensures fails { FailsAtListsIn S.Store calls.old calls.new result }
    ensures work { RunsIn 2 calls.old calls.new }
{
    let stored = match read_rollout(calls, number.get())? {
        Some(stored) => stored,
        None => return Ok(None),
    };
    let seen = read_groups_of(calls, number, stored)?;
    Ok(Some(seen))
}

/// A rollout that was read, with its groups.
pub(crate) fn read_groups_of<S: Alter>(
    calls: &mut Calls<S>,
    number: RolloutNo,
    stored: StoredRollout,
) -> Result<SeenRollout, Fault>
    ensures stays { StaysIn S.Store calls.old calls.new result }
    ensures reads { FindsAtListsIn S.Store calls.old calls.new result
        (λ now seen. (x : RolloutRecord) → item_numbered now.rollouts number ≡ Some x → stored ≡ stored_rollout x → IsSeenOf seen x) }
    ensures fails { FailsAtListsIn S.Store calls.old calls.new result }
    ensures work { RunsIn 1 calls.old calls.new }
{
    let groups = read_groups(calls, number)?;
    Ok(seen_as(number, stored, groups))
}

fn seen_as(number: RolloutNo, stored: StoredRollout, groups: Vec<GroupRecord>) -> SeenRollout
    ensures { result ≡ record {
      number = number;
      plan = stored.plan;
      approval = stored.approval;
      started = stored.started;
      paused = stored.paused;
      groups = groups;
    } }
{
    let StoredRollout {
        plan,
        approval,
        started,
        paused,
    } = stored;
    SeenRollout {
        number,
        plan,
        approval,
        started,
        paused,
        groups,
    }
}
