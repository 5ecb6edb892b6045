//! Whether two tables are the same but for their trees.

ghost use Rattle.std.specs.Prelude.{◌≡◌, ◌≢◌, [], IsTrue, false};
ghost use Rattle.sqlite_value.specs.declared.value.Value.TheVariants.{Null};
ghost use Rattle.sql_front.specs.Bare.{IsBareTable, HaveNullDefaults};

use sqlite_items::Items;
use sqlite_schema::code::Terms;
use sqlite_schema::schema::{Column, Table};
use sqlite_value::keys::Order;
use sqlite_value::value::Value;

/// Whether the tables are the same but for their trees. Only bare tables are taken for the same.
pub fn same_table(a: &Table, b: &Table) -> bool
    ensures same { IsTrue result → a.now ≡ record b.now { tree = a.now.tree } }
    ensures bare { IsTrue result → IsBareTable b.now }
    ensures differs { result ≡ false → IsBareTable b.now → a.now ≢ record b.now { tree = a.now.tree } }
{
    same_columns(a.columns.as_slice(), b.columns.as_slice())
        && a.name.as_slice() == b.name.as_slice()
        && same_keys(a, b)
        && is_bare(a)
        && is_bare(b)
}

/// Whether the tables have the same keys.
fn same_keys(a: &Table, b: &Table) -> bool
    ensures key { IsTrue result → a.now.key ≡ b.now.key }
    ensures primary { IsTrue result → a.now.primary ≡ b.now.primary }
    ensures uniques { IsTrue result → a.now.uniques ≡ b.now.uniques }
    ensures orders { IsTrue result → a.now.orders ≡ b.now.orders }
    ensures differs { result ≡ false → a.now.key ≡ b.now.key → a.now.primary ≡ b.now.primary
        → a.now.uniques ≡ b.now.uniques → a.now.orders ≢ b.now.orders }
{
    a.key == b.key
        && same_places(&a.primary, &b.primary)
        && same_lists(a.uniques.as_slice(), b.uniques.as_slice())
        && same_orders(a.orders.as_slice(), b.orders.as_slice())
}

/// Whether the table has no CHECK, no foreign key, no default that is computed, and no AUTOINCREMENT.
fn is_bare(table: &Table) -> bool
    ensures checks { IsTrue result → table.now.checks ≡ [] }
    ensures references { IsTrue result → table.now.references ≡ [] }
    ensures computed { IsTrue result → table.now.computed ≡ [] }
    ensures stamps { IsTrue result → table.now.stamps ≡ record { places = []; terms = []; formats = [] } }
    ensures counted { IsTrue result → table.now.is_counted ≡ false }
    ensures other { result ≡ false → IsBareTable table.now → ⊥ }
{
    has_no_terms(&table.checks)
        && table.references.is_empty()
        && table.computed.is_empty()
        && table.stamps.places.is_empty()
        && has_no_terms(&table.stamps.terms)
        && table.stamps.formats.is_empty()
        && !table.is_counted
}

fn has_no_terms(terms: &Terms) -> bool
    ensures none { IsTrue result → terms.now ≡ [] }
    ensures some { result ≡ false → terms.now ≢ [] }
{
    terms.roots.is_empty()
}

fn same_columns(a: &[Column], b: &[Column]) -> bool
    ensures same { IsTrue result → a.now ≡ b.now }
    ensures bare { IsTrue result → HaveNullDefaults b.now }
    ensures differs { result ≡ false → HaveNullDefaults b.now → a.now ≢ b.now }
{
    match (a, b) {
        ([], []) => true,
        ([first, more @ ..], [other, others @ ..]) => {
            same_column(first, other) && same_columns(more, others)
        }
        _ => false,
    }
}

fn same_column(a: &Column, b: &Column) -> bool
    ensures same { IsTrue result → a.now ≡ b.now }
    ensures bare { IsTrue result → b.now.default ≡ Null }
    ensures differs { result ≡ false → b.now.default ≡ Null → a.now ≢ b.now }
{
    a.name.as_slice() == b.name.as_slice()
        && a.kind == b.kind
        && a.is_strict == b.is_strict
        && a.not_null == b.not_null
        && a.collation == b.collation
        && is_null(&a.default)
        && is_null(&b.default)
}

fn is_null(value: &Value) -> bool
    ensures null { IsTrue result → value.now ≡ Null }
    ensures other { result ≡ false → value.now ≢ Null }
{
    matches!(value, Value::Null)
}

fn same_places(a: &Items<usize>, b: &Items<usize>) -> bool
    ensures same { IsTrue result → a.now ≡ b.now }
    ensures differs { result ≡ false → a.now ≢ b.now }
{
    a.as_slice() == b.as_slice()
}

fn same_lists(a: &[Items<usize>], b: &[Items<usize>]) -> bool
    ensures same { IsTrue result → a.now ≡ b.now }
    ensures differs { result ≡ false → a.now ≢ b.now }
{
    match (a, b) {
        ([], []) => true,
        ([first, more @ ..], [other, others @ ..]) => {
            same_places(first, other) && same_lists(more, others)
        }
        _ => false,
    }
}

fn same_orders(a: &[Order], b: &[Order]) -> bool
    ensures same { IsTrue result → a.now ≡ b.now }
    ensures differs { result ≡ false → a.now ≢ b.now }
{
    match (a, b) {
        ([], []) => true,
        ([first, more @ ..], [other, others @ ..]) => {
            first.digits == other.digits && same_orders(more, others)
        }
        _ => false,
    }
}
