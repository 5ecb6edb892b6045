//! The first table that doesn't agree.

ghost use Rattle.desk_verify.specs.Agreement.{Agrees, IsDamage, Passes, Settles};
ghost use Rattle.desk_verify.specs.Checking.{ChecksTable};
ghost use Rattle.desk_verify.specs.Promises.{NamesNone};
ghost use Rattle.desk_verify.specs.Stopping.{StopsInOrder};
ghost use Rattle.desk_store.specs.Blaming.{BlamesGiven};
ghost use Rattle.desk_store.specs.Changing.{FindsTables, StaysIn, seen_in};

use crate::actions::check_actions;
use crate::artifacts::check_artifacts;
use crate::damage::CheckedTable;
use crate::groups::check_groups;
use crate::members::check_members;
use crate::offers::check_offers;
use desk_store::{Calls, Fault};
use sqlite::Alter;

/// The tables in the order in which they are checked.
const TABLES: [CheckedTable; 5] = [
    CheckedTable::Artifact,
    CheckedTable::Member,
    CheckedTable::RolloutGroup,
    CheckedTable::Action,
    CheckedTable::Offer,
];

/// The first table that doesn't agree, if there is one. Nothing is written.
pub fn find_damage<S: Alter>(calls: &mut Calls<S>) -> Result<Option<CheckedTable>, Fault>
    ensures stays { StaysIn S.Store calls.old calls.new result }
    ensures judges { FindsTables S.Store calls.old calls.new result IsDamage }
    ensures never { NamesNone (seen_in S.Store calls.old) (seen_in S.Store calls.new) result }
    ensures stops { StopsInOrder S.Store calls.old calls.new result }
{
    check_tables(calls)
}

/// Checks one table after the other, up to the first that doesn't agree.
fn check_tables<S: Alter>(calls: &mut Calls<S>) -> Result<Option<CheckedTable>, Fault>
    ensures stays { StaysIn S.Store calls.old calls.new result }
    ensures judges { FindsTables S.Store calls.old calls.new result IsDamage }
    ensures stops { StopsInOrder S.Store calls.old calls.new result }
{
    for table in &TABLES {
        if !check_table(calls, *table)? {
            return Ok(Some(*table));
        }
    }
    Ok(None)
}

/// Whether the table agrees.
fn check_table<S: Alter>(calls: &mut Calls<S>, table: CheckedTable) -> Result<bool, Fault>
    ensures stays { StaysIn S.Store calls.old calls.new result }
    ensures judges { FindsTables S.Store calls.old calls.new result (λ t agrees. Settles (Passes t table) (Agrees t table) agrees) }
    ensures blames { BlamesGiven S.Store (ChecksTable table) calls.old calls.new result }
{
    match table {
        CheckedTable::Artifact => check_artifacts(calls),
        CheckedTable::Member => check_members(calls),
        CheckedTable::RolloutGroup => check_groups(calls),
        CheckedTable::Action => check_actions(calls),
        CheckedTable::Offer => check_offers(calls),
    }
}
