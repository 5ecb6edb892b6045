//! Modules, in a change that is under way.

ghost use Rattle.std.specs.List.{list_any};
ghost use Rattle.std.specs.Prelude.{◌+◌, ◌≡◌, length};
ghost use Rattle.rollout_machine.specs.ByteStrings.{item_numbered};
ghost use Rattle.desk_records.specs.FeedbackNumbers.{last_number};
ghost use Rattle.desk_records.specs.Modules.{is_same, with_module};
ghost use Rattle.desk_store.specs.Changing.{FindsIn, MakesIn, StaysIn};
ghost use Rattle.desk_store.specs.Counting.{AddsIn};
ghost use Rattle.desk_store.specs.Failing.{FailsIn, WritesIn};

use crate::reading::{last_number, read_optional};
use crate::statements::{first, run};
use desk_records::{FIND_MODULE, GET_MODULE, LAST_MODULE, PUT_MODULE};
use rollout_model::{ModuleLabel, ModuleNo};
use sql_calls::{Calls, Fault};
use sqlite::{Alter, params};

/// Whether there is a module of the same name, kind and version.
pub fn read_same_module<S: Alter>(calls: &mut Calls<S>, label: &ModuleLabel) -> Result<bool, Fault>
    ensures stays { StaysIn S.Store calls.old calls.new result }
    ensures reads { FindsIn S.Store calls.old calls.new result (λ r found. found ≡ list_any (is_same label.now) r.modules) }
    ensures fails { FailsIn S.Store calls.old calls.new result }
    ensures work { AddsIn 1 1 calls.old calls.new }
{
    let row = first(
        calls,
        FIND_MODULE,
        params![
            label.name.as_str(),
            label.kind.as_str(),
            label.version.as_str()
        ],
    )?;
    Ok(row.is_some())
}

/// The number of the last module, which is how many there are.
pub fn read_last_module<S: Alter>(calls: &mut Calls<S>) -> Result<u32, Fault>
    ensures stays { StaysIn S.Store calls.old calls.new result }
    ensures reads { FindsIn S.Store calls.old calls.new result (λ r last. last ≡ length r.modules) }
    ensures fails { FailsIn S.Store calls.old calls.new result }
    ensures work { AddsIn 1 1 calls.old calls.new }
{
    let row = first(calls, LAST_MODULE, &[])?;
    last_number(row)
}

/// The module of a number. A row that breaks a column's rule is `Broken`.
pub fn read_module<S: Alter>(
    calls: &mut Calls<S>,
    number: ModuleNo,
) -> Result<Option<ModuleLabel>, Fault>
    ensures stays { StaysIn S.Store calls.old calls.new result }
    ensures reads { FindsIn S.Store calls.old calls.new result (λ r found. found ≡ item_numbered r.modules number) }
    ensures fails { FailsIn S.Store calls.old calls.new result }
    ensures work { AddsIn 1 1 calls.old calls.new }
{
    let alloc = calls.alloc();
    let row = first(calls, GET_MODULE, params![number.get()])?;
    read_optional(alloc, row)
}

/// Adds the module of the next number.
pub fn write_module<S: Alter>(
    calls: &mut Calls<S>,
    number: ModuleNo,
    label: &ModuleLabel,
) -> Result<(), Fault>
    ensures stays { WritesIn S.Store calls.old calls.new result }
    ensures writes { MakesIn S.Store calls.old calls.new result (λ r next. (number ≡ length r.modules + 1) × (next ≡ with_module r label.now)) }
    ensures work { AddsIn 1 0 calls.old calls.new }
{
    run(
        calls,
        PUT_MODULE,
        params![
            number.get(),
            label.name.as_str(),
            label.kind.as_str(),
            label.version.as_str()
        ],
    )
}
