//! Software modules: adding one.

ghost use Rattle.rollout_machine.specs.Commands.{AddModule};
ghost use Rattle.campaign_core.specs.Checks.{IsModuleView};
ghost use Rattle.desk_store.specs.Changing.{FindsIn, StaysIn};
ghost use Rattle.desk_store.specs.Counting.{RunsIn};
ghost use Rattle.desk_commands.specs.Changing.{StepsIn};
ghost use Rattle.desk_reads.specs.AtLists.{FailsAtListsIn};
ghost use Rattle.desk_commands.specs.Failures.{FailsStepIn};

use crate::step::Step;
use campaign_core::ModuleView;
use desk_store::{
    Calls, Fault, read_last_module, read_module_is_locked, read_same_module, write_module,
};
use rollout_model::{Module, ModuleLabel, Reply};
use sqlite::Alter;
use std::alloc::Global;

/// What the verdict on a module rests on.
fn read_view<S: Alter>(calls: &mut Calls<S>, label: &ModuleLabel) -> Result<ModuleView, Fault>
    ensures stays { StaysIn S.Store calls.old calls.new result }
    ensures reads { FindsIn S.Store calls.old calls.new result (λ r view. IsModuleView view label.now r) }
    ensures fails { FailsAtListsIn S.Store calls.old calls.new result }
    ensures work { RunsIn 2 calls.old calls.new }
{
    let same = read_same_module(calls, label)?;
    let count = read_last_module(calls)?;
    Ok(ModuleView { same, count })
}

/// Adds a module. The memory of its reply is taken before anything is written.
pub(crate) fn add_module<S: Alter>(
    alloc: Global,
    calls: &mut Calls<S>,
    label: &ModuleLabel,
) -> Result<Step, Fault>
    ensures stays { StaysIn S.Store calls.old calls.new result }
    ensures steps { StepsIn S.Store calls.old calls.new (AddModule label.now) result }
    ensures fails { FailsStepIn S.Store calls.old calls.new result }
    ensures work { RunsIn 4 calls.old calls.new }
{
    let view = read_view(calls, label)?;
    let number = match campaign_core::add_module(&view) {
        Ok(added) => added.number,
        Err(refusal) => return Ok(Step::Refused(refusal)),
    };
    let locked = read_module_is_locked(calls, number)?;
    let shown = label.copy(alloc)?;
    write_module(calls, number, label)?;
    Ok(Step::Accepted(Reply::ModuleAdded(Module {
        number,
        locked,
        label: shown,
    })))
}
