//! The order `verify`.

ghost use Rattle.std.specs.Prelude.{◌≡◌};
ghost use Rattle.http_wire.specs.Watched.{inner_of, has_failed};
ghost use Rattle.desk_server.specs.Verifications.{TellsDamage, TellsFound, Verifies, damage_line};

use crate::program::FAILED;
use crate::telling::{print_or_tell, refuse};
use http_wire::Watched;
use rollout_desk::{CheckedTable, Damage, Desk};
use sqlite::Alter;
use std::io::Write;

fn damage_line(table: CheckedTable) -> &'static str
    ensures { result.now ≡ damage_line table }
{
    match table {
        CheckedTable::Artifact => "damage artifact\n",
        CheckedTable::Member => "damage member\n",
        CheckedTable::RolloutGroup => "damage rollout_group\n",
        CheckedTable::Action => "damage action\n",
        CheckedTable::Offer => "damage offer\n",
    }
}

/// Tells of a table that doesn't agree, or why none was found out.
fn tell_damage<W: Write, E: Write>(
    damage: Damage,
    output: &mut Watched<W>,
    errors: &mut Watched<E>,
) -> u8
    ensures { TellsDamage damage (W.contents (inner_of output.old)) (W.contents (inner_of output.new))
        (E.contents (inner_of errors.old)) (E.contents (inner_of errors.new)) (has_failed errors.new) (has_failed output.old) (has_failed output.new) result }
{
    match damage {
        Damage::Table(table) => {
            let _printed = print_or_tell(damage_line(table).as_bytes(), output, errors);
            FAILED
        }
        Damage::Refused(refusal) => refuse(refusal, errors),
    }
}

/// Tells what was found, and answers the exit status: 0 where all agree, and else 1.
fn tell_found<W: Write, E: Write>(
    found: Result<(), Damage>,
    output: &mut Watched<W>,
    errors: &mut Watched<E>,
) -> u8
    ensures { TellsFound found (W.contents (inner_of output.old)) (W.contents (inner_of output.new))
        (E.contents (inner_of errors.old)) (E.contents (inner_of errors.new)) (has_failed errors.new) (has_failed output.old) (has_failed output.new) result }
{
    match found {
        Ok(()) => print_or_tell(b"ok\n", output, errors),
        Err(damage) => tell_damage(damage, output, errors),
    }
}

/// Looks whether the tables of the desk agree, and tells what was found.
pub(crate) fn verify<W: Write, E: Write, S: Alter>(
    desk: &mut Desk<S>,
    output: &mut Watched<W>,
    errors: &mut Watched<E>,
) -> u8
    ensures { Verifies S.Store desk.old desk.new (W.contents (inner_of output.old)) (W.contents (inner_of output.new))
        (E.contents (inner_of errors.old)) (E.contents (inner_of errors.new)) (has_failed errors.new) (has_failed output.old) (has_failed output.new) result }
{
    let found = desk.verify();
    tell_found(found, output, errors)
}
