//! Targets, one at a time.

ghost use Rattle.std.specs.Prelude.{◌≡◌, ◌+◌, ◌++◌, map};
ghost use Rattle.std.specs.Option.{option_map, option_to_list};
ghost use Rattle.rollout_machine.specs.Answers.{query_reply, targets_of};
ghost use Rattle.rollout_machine.specs.Objects.{target_shown};
ghost use Rattle.rollout_machine.specs.Requests.{ShowTarget};
ghost use Rattle.rollout_machine.specs.Verdicts.{target_of};
ghost use Rattle.rollout_machine.specs.Views.{reply_of, shown_target};
ghost use Rattle.desk_reads.specs.AtLists.{FailsAtListsIn};
ghost use Rattle.desk_views.specs.Targets.{worded};
ghost use Rattle.desk_store.specs.Changing.{FindsIn, StaysIn};
ghost use Rattle.desk_store.specs.Counting.{RunsIn};

use crate::target_words::read_target_word;
use desk_reads::read_listed;
use desk_store::{Calls, Fault, ListedTarget, StoredTarget, read_target};
use rollout_model::{ControllerId, Refusal, Reply, ShownTarget, Target, TargetWord};
use sqlite::Alter;
use std::alloc::Global;

/// Shows the target of an id, with its tags and its attributes.
pub fn show_target<S: Alter>(calls: &mut Calls<S>, id: ControllerId) -> Result<Reply, Fault>
    ensures stays { StaysIn S.Store calls.old calls.new result }
    ensures reads { FindsIn S.Store calls.old calls.new result (λ now reply. reply_of reply ≡ query_reply now (ShowTarget id)) }
    ensures fails { FailsAtListsIn S.Store calls.old calls.new result }
{
    match read_shown(calls, id)? {
        Some(shown) => Ok(Reply::Target(shown)),
        None => Ok(Reply::Refused(Refusal::NotFound)),
    }
}

/// The target of an id as it is shown.
fn read_shown<S: Alter>(
    calls: &mut Calls<S>,
    id: ControllerId,
) -> Result<Option<ShownTarget>, Fault>
    ensures stays { StaysIn S.Store calls.old calls.new result }
    ensures reads { FindsIn S.Store calls.old calls.new result
        (λ now found. option_map shown_target found ≡ option_map (target_shown now) (target_of now id)) }
    ensures fails { FailsAtListsIn S.Store calls.old calls.new result }
{
    let stored = match read_target(calls, &id)? {
        Some(stored) => stored,
        None => return Ok(None),
    };
    let listed = called(id, stored);
    let target = read_listed(calls, listed)?;
    let shown = with_word(calls, target)?;
    Ok(Some(shown))
}

/// The targets of these ids, as they are shown.
pub(crate) fn read_targets<S: Alter>(
    alloc: Global,
    calls: &mut Calls<S>,
    ids: &[ControllerId],
) -> Result<Vec<ShownTarget>, Fault>
    ensures stays { StaysIn S.Store calls.old calls.new result }
    ensures reads { FindsIn S.Store calls.old calls.new result
        (λ now content. map shown_target content.items ≡ map (target_shown now) (targets_of now ids.now)) }
    ensures fails { FailsAtListsIn S.Store calls.old calls.new result }
{
    let mut content = Vec::new(alloc);
    for id in ids {
        add_target(calls, *id, &mut content)?;
    }
    Ok(content)
}

/// Adds the target of an id, where it is there.
fn add_target<S: Alter>(
    calls: &mut Calls<S>,
    id: ControllerId,
    content: &mut Vec<ShownTarget>,
) -> Result<(), Fault>
    ensures stays { StaysIn S.Store calls.old calls.new result }
    ensures reads { FindsIn S.Store calls.old calls.new result
        (λ now _. map shown_target content.new.items ≡ map shown_target content.old.items ++ map (target_shown now) (option_to_list (target_of now id))) }
    ensures fails { FailsAtListsIn S.Store calls.old calls.new result }
{
    let shown = match read_shown(calls, id)? {
        Some(shown) => shown,
        None => return Ok(()),
    };
    content.push(shown)?;
    Ok(())
}

/// The id and name of a target that was found.
fn called(id: ControllerId, stored: StoredTarget) -> ListedTarget
    ensures { result ≡ record { id = id; name = stored.name } }
{
    let StoredTarget { name, digest: _ } = stored;
    ListedTarget { id, name }
}

/// A target as it is shown, with the word that its actions say.
pub(crate) fn with_word<S: Alter>(
    calls: &mut Calls<S>,
    target: Target,
) -> Result<ShownTarget, Fault>
    ensures stays { StaysIn S.Store calls.old calls.new result }
    ensures reads { FindsIn S.Store calls.old calls.new result (λ now shown. shown ≡ worded now target) }
    ensures fails { FailsAtListsIn S.Store calls.old calls.new result }
    ensures work { RunsIn 3 calls.old calls.new }
{
    let word = read_target_word(calls, &target.id)?;
    Ok(shown_as(target, word))
}

fn shown_as(target: Target, word: TargetWord) -> ShownTarget
    ensures { result ≡ record { id = target.id; name = target.name; tags = target.tags; attributes = target.attributes; word = word } }
{
    let Target {
        id,
        name,
        tags,
        attributes,
    } = target;
    ShownTarget {
        id,
        name,
        tags,
        attributes,
        word,
    }
}
