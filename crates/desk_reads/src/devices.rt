//! Devices by what they show.

ghost use Rattle.std.specs.Prelude.{◌≡◌, false};
ghost use Rattle.desk_reads.specs.AtLists.{FailsAtListsIn};
ghost use Rattle.rollout_machine.specs.Verdicts.{is_known};
ghost use Rattle.desk_store.specs.Counting.{AddsIn};
ghost use Rattle.desk_store.specs.Changing.{FindsIn, KeepsTables, StaysIn};

use desk_store::{Calls, Fault, read_target};
use rollout_model::Credential;
use sqlite::Alter;

/// Whether a target of the device's id is there, with the digest of the token that it showed.
pub fn knows_device<S: Alter>(calls: &mut Calls<S>, device: &Credential) -> Result<bool, Fault>
    ensures stays { StaysIn S.Store calls.old calls.new result }
    ensures keeps { KeepsTables S.Store calls.old calls.new result }
    ensures reads { FindsIn S.Store calls.old calls.new result (λ now known. known ≡ is_known now device.now) }
    ensures fails { FailsAtListsIn S.Store calls.old calls.new result }
    ensures work { AddsIn 1 1 calls.old calls.new }
{
    let found = read_target(calls, &device.id)?;
    match &found {
        Some(stored) => Ok(stored.digest == device.digest),
        None => Ok(false),
    }
}
