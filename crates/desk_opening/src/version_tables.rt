//! The tables of the versions.

ghost use Rattle.std.specs.Prelude.{◌≡◌, map};
ghost use Rattle.desk_records.specs.Versions.{later_than, places_at};
ghost use Rattle.desk_opening.specs.Places.{place_of};

use crate::desk_table::{DeskTable, TABLES};
use desk_records::Version;

/// The tables of a version, in the order in which they are made.
pub(crate) fn tables_at(version: Version) -> &'static [DeskTable]
    ensures { map place_of result.now ≡ places_at version }
{
    &TABLES[..version.table_count()]
}

/// The tables of later versions.
pub(crate) fn tables_after(version: Version) -> &'static [DeskTable]
    ensures { map place_of result.now ≡ later_than version }
{
    &TABLES[version.table_count()..]
}
