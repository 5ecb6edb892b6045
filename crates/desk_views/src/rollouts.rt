//! Rollouts with their groups.

ghost use Rattle.std.specs.Prelude.{◌≡◌};
ghost use Rattle.rollout_machine.specs.Objects.{rollout_shown};
ghost use Rattle.rollout_machine.specs.Requests.{ShowRollout, ShowRollouts};
ghost use Rattle.rollout_machine.specs.declared.records.RolloutRecord.{RolloutRecord};
ghost use Rattle.desk_reads.specs.Rollouts.{IsSeenOf};
ghost use Rattle.desk_reads.specs.AtLists.{AreOfList, FailsAtListsIn};
ghost use Rattle.rollout_machine.proofs.WithinLimits.{limits_hold};
ghost use Rattle.desk_views.specs.Showing.{ShowsIn};
ghost use Rattle.desk_store.specs.Changing.{StaysIn};

use crate::pages::{Numbered, read_page};
use desk_reads::{SeenRollout, read_seen_rollout};
use desk_store::{Calls, Fault, read_last_rollout};
use rollout_model::{Page, Refusal, Reply, Rollout, RolloutKind, RolloutNo};
use sqlite::Alter;
use std::alloc::Global;

/// A rollout as it is shown.
pub(crate) fn shown(seen: SeenRollout) -> Rollout
    ensures { (x : RolloutRecord) → IsSeenOf seen x → result ≡ rollout_shown x }
{
    let word = seen.word();
    let targets = seen.members();
    let SeenRollout { number, plan, .. } = seen;
    Rollout {
        number,
        name: plan.name,
        set_number: plan.set_number,
        filter_text: plan.filter_text,
        word,
        groups: plan.groups.get(),
        targets,
    }
}

/// Shows the rollout of a number.
pub fn show_rollout<S: Alter>(calls: &mut Calls<S>, number: RolloutNo) -> Result<Reply, Fault>
    ensures stays { StaysIn S.Store calls.old calls.new result }
    ensures shows { ShowsIn S.Store calls.old calls.new (ShowRollout number) result }
    ensures fails { FailsAtListsIn S.Store calls.old calls.new result }
{
    match Rollout::read_shown(calls, &number)? {
        Some(shown) => Ok(Reply::Rollout(shown)),
        None => Ok(Reply::Refused(Refusal::NotFound)),
    }
}

/// Shows a page of the rollouts, in the order of their numbers.
pub fn show_rollouts<S: Alter>(
    alloc: Global,
    calls: &mut Calls<S>,
    page: Page,
) -> Result<Reply, Fault>
    ensures stays { StaysIn S.Store calls.old calls.new result }
    ensures shows { ShowsIn S.Store calls.old calls.new (ShowRollouts page) result }
    ensures fails { FailsAtListsIn S.Store calls.old calls.new result }
{
    let shown = read_page::<Rollout, S>(alloc, calls, page)?;
    Ok(Reply::Rollouts(shown))
}

impl<S: Alter> Numbered<S> for Rollout {
    type Kind = RolloutKind;

    ghost Item = { RolloutRecord };

    ghost items = { λ now. now.rollouts };

    ghost shown = { λ now number. rollout_shown };

    ghost given = { AreOfList };

    fn read_count(calls: &mut Calls<S>) -> Result<u32, Fault> {
        read_last_rollout(calls)
    }

    fn read_shown(calls: &mut Calls<S>, number: &RolloutNo) -> Result<Option<Rollout>, Fault> {
        match read_seen_rollout(calls, *number)? {
            Some(seen) => Ok(Some(shown(seen))),
            None => Ok(None),
        }
    }

    ghost known = { λ now of. of };

    ghost few = { λ list valid. (limits_hold list valid).rollouts };
}
