//! Distribution sets, in a change that is under way.

ghost use Rattle.std.specs.Prelude.{◌≡◌, ◌+◌, length};
ghost use Rattle.std.specs.List.{list_any};
ghost use Rattle.std.specs.Option.{option_map};
ghost use Rattle.rollout_machine.specs.ByteStrings.{item_numbered};
ghost use Rattle.rollout_machine.specs.Objects.{modules_of_set};
ghost use Rattle.rollout_machine.specs.Verdicts.{is_named_by_set};
ghost use Rattle.desk_records.specs.Sets.{is_same_set, with_set, AddsSetModule};
ghost use Rattle.desk_records.specs.SetRow.{called};
ghost use Rattle.desk_store.specs.Counting.{AddsIn, RunsIn};
ghost use Rattle.desk_store.specs.Changing.{FindsIn, KeepsTables, MakesIn, StaysIn};
ghost use Rattle.desk_store.specs.Failing.{FailsIn, WritesIn};

use crate::reading::{last_number, read_all, read_optional};
use crate::statements::{ask, first, run};
use desk_records::{
    FIND_SET, GET_SET, LAST_SET, LIST_SET_MODULES, MODULE_LOCKED, PUT_SET, PUT_SET_MODULE, SetName,
};
use rollout_model::{ModuleNo, SetNo, Text};
use sql_calls::{Calls, Fault};
use sqlite::{Alter, params};

/// Whether there is a set of the same name and version.
pub fn read_same_set<S: Alter>(
    calls: &mut Calls<S>,
    name: &Text,
    version: &Text,
) -> Result<bool, Fault>
    ensures stays { StaysIn S.Store calls.old calls.new result }
    ensures reads { FindsIn S.Store calls.old calls.new result (λ r found. found ≡ list_any (is_same_set name.now version.now) r.sets) }
    ensures fails { FailsIn S.Store calls.old calls.new result }
    ensures work { AddsIn 1 1 calls.old calls.new }
{
    let row = first(calls, FIND_SET, params![name.as_str(), version.as_str()])?;
    Ok(row.is_some())
}

/// The number of the last set, which is how many there are.
pub fn read_last_set<S: Alter>(calls: &mut Calls<S>) -> Result<u32, Fault>
    ensures stays { StaysIn S.Store calls.old calls.new result }
    ensures reads { FindsIn S.Store calls.old calls.new result (λ r last. last ≡ length r.sets) }
    ensures fails { FailsIn S.Store calls.old calls.new result }
    ensures work { AddsIn 1 1 calls.old calls.new }
{
    let row = first(calls, LAST_SET, &[])?;
    last_number(row)
}

/// What the set of a number is called. A row that breaks a column's rule is `Broken`.
pub fn read_set<S: Alter>(calls: &mut Calls<S>, number: SetNo) -> Result<Option<SetName>, Fault>
    ensures stays { StaysIn S.Store calls.old calls.new result }
    ensures reads { FindsIn S.Store calls.old calls.new result (λ r found. found ≡ option_map called (item_numbered r.sets number)) }
    ensures fails { FailsIn S.Store calls.old calls.new result }
    ensures work { AddsIn 1 1 calls.old calls.new }
{
    let alloc = calls.alloc();
    let row = first(calls, GET_SET, params![number.get()])?;
    read_optional(alloc, row)
}

/// The modules of the set of a number, in its order; of a set that isn't there none.
pub fn read_set_modules<S: Alter>(
    calls: &mut Calls<S>,
    number: SetNo,
) -> Result<Vec<ModuleNo>, Fault>
    ensures stays { StaysIn S.Store calls.old calls.new result }
    ensures keeps { KeepsTables S.Store calls.old calls.new result }
    ensures reads { FindsIn S.Store calls.old calls.new result (λ r modules. modules.items ≡ modules_of_set (item_numbered r.sets number)) }
    ensures fails { FailsIn S.Store calls.old calls.new result }
    ensures work { RunsIn 1 calls.old calls.new }
{
    let alloc = calls.alloc();
    let rows = ask(calls, LIST_SET_MODULES, params![number.get()])?;
    read_all(alloc, &rows)
}

/// Whether a set names the module of a number, so that the module takes no further artifact.
pub fn read_module_is_locked<S: Alter>(
    calls: &mut Calls<S>,
    number: ModuleNo,
) -> Result<bool, Fault>
    ensures stays { StaysIn S.Store calls.old calls.new result }
    ensures reads { FindsIn S.Store calls.old calls.new result (λ r locked. locked ≡ is_named_by_set r.sets number) }
    ensures fails { FailsIn S.Store calls.old calls.new result }
    ensures work { AddsIn 1 1 calls.old calls.new }
{
    let row = first(calls, MODULE_LOCKED, params![number.get()])?;
    Ok(row.is_some())
}

/// Adds the set of the next number, with no modules yet.
pub fn write_set<S: Alter>(
    calls: &mut Calls<S>,
    number: SetNo,
    name: &Text,
    version: &Text,
) -> Result<(), Fault>
    ensures stays { WritesIn S.Store calls.old calls.new result }
    ensures writes { MakesIn S.Store calls.old calls.new result
        (λ r next. (number ≡ length r.sets + 1) × (next ≡ with_set r name.now version.now)) }
    ensures work { AddsIn 1 0 calls.old calls.new }
{
    run(
        calls,
        PUT_SET,
        params![number.get(), name.as_str(), version.as_str()],
    )
}

/// Adds a module to the last set, at its next place; places are counted from 1.
pub fn write_set_module<S: Alter>(
    calls: &mut Calls<S>,
    number: SetNo,
    place: u32,
    added: ModuleNo,
) -> Result<(), Fault>
    ensures stays { WritesIn S.Store calls.old calls.new result }
    ensures writes { MakesIn S.Store calls.old calls.new result
        (AddsSetModule number place added) }
    ensures work { AddsIn 1 0 calls.old calls.new }
{
    run(
        calls,
        PUT_SET_MODULE,
        params![number.get(), place, added.get()],
    )
}
