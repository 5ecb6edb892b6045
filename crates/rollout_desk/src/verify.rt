//! Whether the tables of a desk agree with what each of them is to have.

ghost use Rattle.std.specs.Prelude.{◌≡◌, IfErr};
ghost use Rattle.rollout_desk.specs.Conduct.{BehavesVerifying};
ghost use Rattle.rollout_desk.specs.DeskStates.{desk_state};
ghost use Rattle.rollout_desk.specs.Verifying.{Judges, KeepsDesk, LooksForDamage, MayTell, ReadsDamage, SparesRecords};

use crate::desk::Desk;
use crate::look::{Question, look};
use desk_store::{Calls, DeskStore, Fault};
use desk_verify::{CheckedTable, Damage, find_damage};
use rollout_machine::is_failed_store;
use rollout_model::Refusal;
use sqlite::Alter;

/// The first table that doesn't agree.
#[derive(Drop)]
struct FirstDamage;

impl<S: Alter> Question<S, Option<CheckedTable>> for FirstDamage {
    ghost finds = { λ it. ReadsDamage S.Store };

    fn read(&self, calls: &mut Calls<S>) -> Result<Option<CheckedTable>, Fault> {
        find_damage(calls)
    }
}

/// Finds the first table that doesn't agree, inside a transaction that changes nothing.
fn look_for_damage<S: Alter>(store: &mut DeskStore<S>) -> Result<Option<CheckedTable>, Refusal>
    ensures { LooksForDamage S.Store store.old.calls store.new.calls result }
{
    look(store, &FirstDamage)
}

impl<S: Alter> Desk<S> {
    /// Whether each table agrees with what it is to have, or else the first that doesn't, whatever rows the tables have. Nothing is
    /// written. `Refused` is `NoMemory`, `StoreFailed`, after which the desk is stopped, or `Stopped`. `StoreFailed` is said only where a call of
    /// the store failed, or the tables before some table agree, and what its check reads can't be read.
    pub fn verify(&mut self) -> Result<(), Damage>
        ensures conduct { BehavesVerifying S.Store self.old self.new result }
        ensures judges { Judges S.Store self.old self.new result }
        ensures keeps { KeepsDesk S.Store self.old self.new result }
        ensures spares { SparesRecords S.Store self.old self.new result }
        ensures refuses { IfErr result (MayTell (desk_state S.Store self.old).is_stopped) }
        ensures work { self.new.work ≡ self.old.work }
    {
        if self.stopped {
            return Err(Damage::Refused(Refusal::Stopped));
        }
        match look_for_damage(&mut self.store) {
            Ok(None) => Ok(()),
            Ok(Some(table)) => Err(Damage::Table(table)),
            Err(refusal) => {
                self.stopped = is_failed_store(refusal);
                Err(Damage::Refused(refusal))
            }
        }
    }
}
