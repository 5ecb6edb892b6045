//! Distribution sets.

ghost use Rattle.std.specs.Prelude.{◌≡◌, false, MatchResult};
ghost use Rattle.rollout_machine.specs.Answers.{query_reply};
ghost use Rattle.rollout_machine.specs.Commands.{SetLabel};
ghost use Rattle.rollout_machine.specs.Objects.{set_shown};
ghost use Rattle.rollout_machine.specs.Requests.{ShowSet, ShowSets};
ghost use Rattle.rollout_machine.specs.Views.{reply_of};
ghost use Rattle.rollout_model.specs.Rules.{is_module_list};
ghost use Rattle.sql_calls.specs.declared.fault.Fault.TheVariants.{Broken};
ghost use Rattle.desk_reads.specs.AtLists.{FailsAtListsIn};
ghost use Rattle.desk_store.specs.Changing.{FindsIn, StaysIn};
ghost use Rattle.desk_reads.proofs.LabelRules.{few_sets};

use crate::pages::{Numbered, read_page};
use desk_store::{Calls, Fault, SetName, read_last_set, read_set, read_set_modules};
use rollout_model::{
    DistributionSet, ModuleList, ModuleNo, Page, Refusal, Reply, SetKind, SetLabel, SetNo,
};
use sqlite::Alter;
use std::alloc::Global;

/// Shows the set of a number, with its modules in their order.
pub fn show_set<S: Alter>(calls: &mut Calls<S>, number: SetNo) -> Result<Reply, Fault>
    ensures stays { StaysIn S.Store calls.old calls.new result }
    ensures reads { FindsIn S.Store calls.old calls.new result (λ now reply. reply_of reply ≡ query_reply now (ShowSet number)) }
    ensures fails { FailsAtListsIn S.Store calls.old calls.new result }
{
    match DistributionSet::read_shown(calls, &number)? {
        Some(shown) => Ok(Reply::Set(shown)),
        None => Ok(Reply::Refused(Refusal::NotFound)),
    }
}

/// Shows a page of the sets, in the order of their numbers.
pub fn show_sets<S: Alter>(alloc: Global, calls: &mut Calls<S>, page: Page) -> Result<Reply, Fault>
    ensures stays { StaysIn S.Store calls.old calls.new result }
    ensures reads { FindsIn S.Store calls.old calls.new result (λ now reply. reply_of reply ≡ query_reply now (ShowSets page)) }
    ensures fails { FailsAtListsIn S.Store calls.old calls.new result }
{
    let shown = read_page::<DistributionSet, S>(alloc, calls, page)?;
    Ok(Reply::Sets(shown))
}

impl<S: Alter> Numbered<S> for DistributionSet {
    type Kind = SetKind;

    ghost Item = { SetLabel };

    ghost items = { λ now. now.sets };

    ghost shown = { λ now. set_shown };

    ghost given = { λ now. Unit };

    fn read_count(calls: &mut Calls<S>) -> Result<u32, Fault> {
        read_last_set(calls)
    }

    fn read_shown(calls: &mut Calls<S>, number: &SetNo) -> Result<Option<DistributionSet>, Fault> {
        let called = match read_set(calls, *number)? {
            Some(called) => called,
            None => return Ok(None),
        };
        let numbers = read_set_modules(calls, *number)?;
        let modules = module_list(numbers)?;
        let label = labelled(called, modules);
        Ok(Some(DistributionSet {
            number: *number,
            label,
        }))
    }

    ghost known = { λ now of. tt };

    ghost few = { few_sets };
}

/// The modules of a set. Where they aren't 1 to 8, or one stands twice, the store has failed, since no such set was added.
fn module_list(numbers: Vec<ModuleNo>) -> Result<ModuleList, Fault>
    ensures { MatchResult result (λ modules. modules ≡ numbers.items) (λ fault. (fault ≡ Broken) × (is_module_list numbers.items ≡ false)) }
{
    match ModuleList::from_numbers(numbers) {
        Some(modules) => Ok(modules),
        None => Err(Fault::Broken),
    }
}

fn labelled(called: SetName, modules: ModuleList) -> SetLabel
    ensures { result ≡ record { name = called.name; version = called.version; modules = modules } }
{
    let SetName { name, version } = called;
    SetLabel {
        name,
        version,
        modules,
    }
}
