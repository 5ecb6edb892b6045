//! Tags: giving a target one, and taking it.

ghost use Rattle.std.specs.Prelude.{◌≡◌, is_none};
ghost use Rattle.rollout_machine.specs.Commands.{Tag, Untag};
ghost use Rattle.rollout_machine.specs.Verdicts.{target_of};
ghost use Rattle.campaign_core.specs.Checks.{IsTagView};
ghost use Rattle.desk_store.specs.Counting.{AddsIn, RunsIn};
ghost use Rattle.desk_store.specs.Changing.{FindsIn, StaysIn};
ghost use Rattle.desk_reads.specs.AtLists.{FailsAtListsIn};
ghost use Rattle.desk_commands.specs.Changing.{StepsIn};
ghost use Rattle.desk_commands.specs.Failures.{FailsStepIn};

use crate::step::Step;
use campaign_core::{TagView, UntagView};
use desk_store::{Calls, Fault, drop_target_tag, read_target, read_target_tags, write_target_tag};
use rollout_model::{ControllerId, Reply, Word};
use sqlite::Alter;

/// Whether the target of an id isn't there.
pub(crate) fn lacks_target<S: Alter>(calls: &mut Calls<S>, id: &ControllerId) -> Result<bool, Fault>
    ensures stays { StaysIn S.Store calls.old calls.new result }
    ensures reads { FindsIn S.Store calls.old calls.new result (λ r lacks. lacks ≡ is_none (target_of r id.now)) }
    ensures fails { FailsAtListsIn S.Store calls.old calls.new result }
    ensures work { AddsIn 1 1 calls.old calls.new }
{
    let found = read_target(calls, id)?;
    Ok(found.is_none())
}

/// What the verdict on a tag rests on.
fn read_view<S: Alter>(
    calls: &mut Calls<S>,
    id: &ControllerId,
    tag: &Word,
) -> Result<TagView, Fault>
    ensures stays { StaysIn S.Store calls.old calls.new result }
    ensures reads { FindsIn S.Store calls.old calls.new result (λ r view. IsTagView view id.now tag.now r) }
    ensures fails { FailsAtListsIn S.Store calls.old calls.new result }
    ensures work { RunsIn 2 calls.old calls.new }
{
    let misses_target = lacks_target(calls, id)?;
    let tags = read_target_tags(calls, id)?;
    Ok(TagView {
        misses_target,
        same: tags.contains(tag),
        count: tags.len(),
    })
}

/// Gives a target a tag. One that it has stays.
pub(crate) fn tag_target<S: Alter>(
    calls: &mut Calls<S>,
    id: &ControllerId,
    tag: &Word,
) -> Result<Step, Fault>
    ensures stays { StaysIn S.Store calls.old calls.new result }
    ensures steps { StepsIn S.Store calls.old calls.new (Tag id.now tag.now) result }
    ensures fails { FailsStepIn S.Store calls.old calls.new result }
    ensures work { RunsIn 3 calls.old calls.new }
{
    let view = read_view(calls, id, tag)?;
    match campaign_core::tag(&view) {
        Ok(()) => {}
        Err(refusal) => return Ok(Step::Refused(refusal)),
    }
    if view.same {
        return Ok(Step::Accepted(Reply::Done));
    }
    write_target_tag(calls, id, tag)?;
    Ok(Step::Accepted(Reply::Done))
}

/// Takes a tag from a target. One that it hasn't is taken already.
pub(crate) fn untag_target<S: Alter>(
    calls: &mut Calls<S>,
    id: &ControllerId,
    tag: &Word,
) -> Result<Step, Fault>
    ensures stays { StaysIn S.Store calls.old calls.new result }
    ensures steps { StepsIn S.Store calls.old calls.new (Untag id.now tag.now) result }
    ensures fails { FailsStepIn S.Store calls.old calls.new result }
    ensures work { RunsIn 2 calls.old calls.new }
{
    let misses_target = lacks_target(calls, id)?;
    match campaign_core::untag(&UntagView { misses_target }) {
        Ok(()) => {}
        Err(refusal) => return Ok(Step::Refused(refusal)),
    }
    drop_target_tag(calls, id, tag)?;
    Ok(Step::Accepted(Reply::Done))
}
