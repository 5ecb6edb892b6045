//! Distribution sets: adding one.

ghost use Rattle.std.specs.Prelude.{◌≡◌, ◌≤◌, ◌+◌, true, length, nat_lt};
ghost use Rattle.rollout_model.specs.Rules.{is_module_list};
ghost use Rattle.std.specs.List.{list_any};
ghost use Rattle.rollout_machine.specs.Commands.{AddSet};
ghost use Rattle.campaign_core.specs.Checks.{IsSetView};
ghost use Rattle.desk_commands.specs.private.Additions.{AddsModules, AddsWhole, LacksModule};
ghost use Rattle.desk_store.specs.Changing.{FindsIn, MakesIn, StaysIn};
ghost use Rattle.desk_commands.specs.Changing.{StepsIn};
ghost use Rattle.desk_reads.specs.AtLists.{FailsAtListsIn};
ghost use Rattle.desk_commands.specs.Failures.{FailsStepIn};
ghost use Rattle.desk_store.specs.Counting.{RunsIn};
ghost use Rattle.desk_store.specs.Failing.{WritesIn};

use crate::step::Step;
use campaign_core::SetView;
use desk_store::{
    Calls, Fault, read_last_module, read_last_set, read_same_set, write_set, write_set_module,
};
use rollout_model::{DistributionSet, ModuleList, ModuleNo, Reply, SetLabel, SetNo};
use sqlite::Alter;
use std::alloc::Global;

/// Whether a number of the list is past the last one.
fn any_past(modules: &ModuleList, last: u32) -> bool
    ensures value { result ≡ list_any (λ m. nat_lt last m) modules.now }
    ensures list { is_module_list modules.now ≡ true }
{
    modules.as_slice().iter().any(|number| number.get() > last)
}

/// Whether the list names a module that isn't there.
fn lacks_a_module<S: Alter>(calls: &mut Calls<S>, modules: &ModuleList) -> Result<bool, Fault>
    ensures stays { StaysIn S.Store calls.old calls.new result }
    ensures reads { FindsIn S.Store calls.old calls.new result (LacksModule modules.now) }
    ensures fails { FailsAtListsIn S.Store calls.old calls.new result }
    ensures work { RunsIn 1 calls.old calls.new }
{
    let last = read_last_module(calls)?;
    Ok(any_past(modules, last))
}

/// What the verdict on a set rests on.
fn read_view<S: Alter>(calls: &mut Calls<S>, label: &SetLabel) -> Result<SetView, Fault>
    ensures stays { StaysIn S.Store calls.old calls.new result }
    ensures reads { FindsIn S.Store calls.old calls.new result (λ r view. IsSetView view label.now r) }
    ensures fails { FailsAtListsIn S.Store calls.old calls.new result }
    ensures work { RunsIn 3 calls.old calls.new }
{
    let misses_module = lacks_a_module(calls, &label.modules)?;
    let same = read_same_set(calls, &label.name, &label.version)?;
    let count = read_last_set(calls)?;
    Ok(SetView {
        misses_module,
        same,
        count,
    })
}

/// Adds these modules to the last set, which has so many before them.
fn write_modules<S: Alter>(
    calls: &mut Calls<S>,
    number: SetNo,
    before: u32,
    modules: &[ModuleNo],
) -> Result<(), Fault>
    requires { before + length modules.now ≤ 8 }
    ensures stays { WritesIn S.Store calls.old calls.new result }
    ensures writes { MakesIn S.Store calls.old calls.new result (AddsModules number before modules.now) }
    ensures work { RunsIn (length modules.now) calls.old calls.new }
{
    match modules {
        [] => Ok(()),
        [first, rest @ ..] => {
            write_set_module(calls, number, before + 1, *first)?;
            write_modules(calls, number, before + 1, rest)
        }
    }
}

/// Writes a set with all its modules.
fn write_whole<S: Alter>(calls: &mut Calls<S>, number: SetNo, label: &SetLabel) -> Result<(), Fault>
    ensures stays { WritesIn S.Store calls.old calls.new result }
    ensures writes { MakesIn S.Store calls.old calls.new result (AddsWhole number label.now) }
    ensures work { RunsIn (1 + length label.now.modules) calls.old calls.new }
{
    write_set(calls, number, &label.name, &label.version)?;
    write_modules(calls, number, 0, label.modules.as_slice())
}

/// Adds a distribution set. The memory of its reply is taken before anything is written.
pub(crate) fn add_set<S: Alter>(
    alloc: Global,
    calls: &mut Calls<S>,
    label: &SetLabel,
) -> Result<Step, Fault>
    ensures stays { StaysIn S.Store calls.old calls.new result }
    ensures steps { StepsIn S.Store calls.old calls.new (AddSet label.now) result }
    ensures fails { FailsStepIn S.Store calls.old calls.new result }
    ensures work { RunsIn (4 + length label.now.modules) calls.old calls.new }
{
    let view = read_view(calls, label)?;
    let number = match campaign_core::add_set(&view) {
        Ok(added) => added.number,
        Err(refusal) => return Ok(Step::Refused(refusal)),
    };
    let shown = label.copy(alloc)?;
    write_whole(calls, number, label)?;
    Ok(Step::Accepted(Reply::SetAdded(DistributionSet {
        number,
        label: shown,
    })))
}
