//! Where a table stands in a schema.

ghost use Rattle.std.specs.Prelude.{◌≡◌, ◌==◌, ◌<◌, ◌^◌, IsTrue, false};
ghost use Rattle.std.specs.List.{find};
ghost use Rattle.std.specs.Option.{option_copied};
ghost use Rattle.sqlite_catalog.specs.Change.{is_used};
ghost use Rattle.sql_front.specs.Bare.{IsBareTable};
ghost use Rattle.sql_front.specs.Found.{StandsSomewhere, HasFirst};
ghost use Rattle.sql_front.specs.Stands.{NoneHasForeignKey};

use crate::comparison::same_table;
use sqlite_catalog::layout;
use sqlite_schema::schema::{Schema, Table};

/// Whether a table, an index or a view has the name, whatever the case of ASCII letters.
pub fn uses_name(schema: &Schema, name: &str) -> bool
    ensures { result ≡ is_used schema.now name.now }
{
    layout::is_used(schema, name.as_bytes())
}

/// Whether the schema has this very table, in some tree. Only a bare table is found.
pub fn stands(schema: &Schema, table: &Table) -> bool
    ensures found { IsTrue result → StandsSomewhere schema.now table.now }
    ensures bare { IsTrue result → IsBareTable table.now }
    ensures missing { result ≡ false → IsBareTable table.now → StandsSomewhere schema.now table.now → ⊥ }
{
    let Some(at) = schema.table_named(table.name.as_slice()) else {
        return false;
    };
    let Some(named) = schema.tables.get(at) else {
        return false;
    };
    is_first(schema, named, table)
}

/// Whether the two tables are the same but for their trees, and the first is found by its own, which no foreign key changes.
fn is_first(schema: &Schema, named: &Table, table: &Table) -> bool
    ensures same { IsTrue result → named.now ≡ record table.now { tree = named.now.tree } }
    ensures stored { IsTrue result → named.now.tree < 2 ^ 31 }
    ensures first { IsTrue result → HasFirst schema.now named.now table.now }
    ensures keyless { IsTrue result → NoneHasForeignKey schema.now.tables named.now.tree }
    ensures bare { IsTrue result → IsBareTable table.now }
    ensures missing { result ≡ false → IsBareTable table.now
        → named.now ≡ record table.now { tree = named.now.tree } → named.now.tree < 2 ^ 31
        → HasFirst schema.now named.now table.now → NoneHasForeignKey schema.now.tables named.now.tree → ⊥ }
{
    let Some(first) = first_beside(schema.tables.as_slice(), named) else {
        return false;
    };
    if named.tree >= FIRST_COMPUTED || !same_table(named, table) {
        return false;
    }
    if !has_no_foreign_key(schema.tables.as_slice(), named.tree) {
        return false;
    }
    same_table(first, table)
}

/// Whether no table that has its rows in this tree has a foreign key.
fn has_no_foreign_key(tables: &[Table], tree: u32) -> bool
    ensures none { IsTrue result → NoneHasForeignKey tables.now tree }
    ensures some { result ≡ false → NoneHasForeignKey tables.now tree → ⊥ }
{
    match tables {
        [] => true,
        [first, more @ ..] => {
            (first.tree != tree || first.references.is_empty()) && has_no_foreign_key(more, tree)
        }
    }
}

/// The tables that a statement computes have trees from this one on.
const FIRST_COMPUTED: u32 = 1 << 31;

/// The first table with the same tree.
fn first_beside<'a>(tables: &'a [Table], named: &Table) -> Option<&'a Table>
    ensures { option_copied result ≡ find (λ t. t.tree == named.now.tree) tables.now }
{
    let tree = named.tree;
    tables.iter().find(|t| t.tree == tree)
}
