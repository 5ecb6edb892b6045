//! Software modules.

ghost use Rattle.std.specs.Prelude.{◌≡◌};
ghost use Rattle.rollout_machine.specs.Answers.{query_reply};
ghost use Rattle.rollout_machine.specs.Commands.{ModuleLabel};
ghost use Rattle.rollout_machine.specs.Objects.{module_shown};
ghost use Rattle.rollout_machine.specs.Requests.{ShowModule, ShowModules};
ghost use Rattle.rollout_machine.specs.Views.{reply_of};
ghost use Rattle.desk_reads.specs.AtLists.{FailsAtListsIn};
ghost use Rattle.desk_store.specs.Changing.{FindsIn, StaysIn};
ghost use Rattle.desk_reads.proofs.LabelRules.{few_modules};

use crate::pages::{Numbered, read_page};
use desk_store::{Calls, Fault, read_last_module, read_module, read_module_is_locked};
use rollout_model::{Module, ModuleKind, ModuleNo, Page, Refusal, Reply};
use sqlite::Alter;
use std::alloc::Global;

/// Shows the module of a number, and whether a set names it.
pub fn show_module<S: Alter>(calls: &mut Calls<S>, number: ModuleNo) -> Result<Reply, Fault>
    ensures stays { StaysIn S.Store calls.old calls.new result }
    ensures reads { FindsIn S.Store calls.old calls.new result (λ now reply. reply_of reply ≡ query_reply now (ShowModule number)) }
    ensures fails { FailsAtListsIn S.Store calls.old calls.new result }
{
    match Module::read_shown(calls, &number)? {
        Some(shown) => Ok(Reply::Module(shown)),
        None => Ok(Reply::Refused(Refusal::NotFound)),
    }
}

/// Shows a page of the modules, in the order of their numbers.
pub fn show_modules<S: Alter>(
    alloc: Global,
    calls: &mut Calls<S>,
    page: Page,
) -> Result<Reply, Fault>
    ensures stays { StaysIn S.Store calls.old calls.new result }
    ensures reads { FindsIn S.Store calls.old calls.new result (λ now reply. reply_of reply ≡ query_reply now (ShowModules page)) }
    ensures fails { FailsAtListsIn S.Store calls.old calls.new result }
{
    let shown = read_page::<Module, S>(alloc, calls, page)?;
    Ok(Reply::Modules(shown))
}

impl<S: Alter> Numbered<S> for Module {
    type Kind = ModuleKind;

    ghost Item = { ModuleLabel };

    ghost items = { λ now. now.modules };

    ghost shown = { module_shown };

    ghost given = { λ now. Unit };

    fn read_count(calls: &mut Calls<S>) -> Result<u32, Fault> {
        read_last_module(calls)
    }

    fn read_shown(calls: &mut Calls<S>, number: &ModuleNo) -> Result<Option<Module>, Fault> {
        let label = match read_module(calls, *number)? {
            Some(label) => label,
            None => return Ok(None),
        };
        let locked = read_module_is_locked(calls, *number)?;
        Ok(Some(Module {
            number: *number,
            locked,
            label,
        }))
    }

    ghost known = { λ now of. tt };

    ghost few = { few_modules };
}
