//! The rows of targets, of their tags and of their attributes.

ghost use Rattle.std.specs.Prelude.{◌≡◌, ◌⊎◌, IfOk, IfErr, true, false};
ghost use Rattle.sqlite_value.specs.Order.{column};
ghost use Rattle.desk_records.specs.Columns.{StoredText, has_value, has_word};

use crate::module_row::{RowFault, row_fault};
use crate::table_columns::Column;
use rollout_model::{Attribute, ControllerId, Digest, Text, Value, Word};
use sqlite::Row;
use sqlite_value::value::ValueRef;
use std::alloc::Global;
use std::str;

/// What is kept of a target beside its id, its tags and its attributes.
#[derive(Drop)]
pub struct StoredTarget {
    pub name: Text,
    /// The SHA-256 of the target's token.
    pub digest: Digest,
}

/// A target's id and name.
#[derive(Drop)]
pub struct ListedTarget {
    pub id: ControllerId,
    pub name: Text,
}

/// A tag, with the id of the target that has it.
#[derive(Clone, Copy, Drop)]
pub struct OwnedTag {
    pub id: ControllerId,
    pub tag: Word,
}

/// An attribute, with the id of the target that has it.
#[derive(Drop)]
pub struct OwnedAttribute {
    pub id: ControllerId,
    pub attribute: Attribute,
}

/// The member of a rollout in a row of its id. Takes no memory.
pub fn read_member(row: &Row) -> Result<ControllerId, RowFault>
    ensures ok { IfOk result (λ id. column row.now 0 ≡ StoredText id) }
    ensures err { IfErr result (λ e. (e ≡ RowFault.Broken Column.TargetId) × (has_word (column row.now 0) ≡ false)) }
{
    id_at(row, 0, Column::TargetId)
}

/// The tag in a row of one. Takes no memory.
pub fn read_tag(row: &Row) -> Result<Word, RowFault>
    ensures ok { IfOk result (λ tag. column row.now 0 ≡ StoredText tag) }
    ensures err { IfErr result (λ e. (e ≡ RowFault.Broken Column.TargetTag) × (has_word (column row.now 0) ≡ false)) }
{
    word_at(row, 0, Column::TargetTag)
}

/// The id of a target in a column.
pub(crate) fn id_at(row: &Row, at: usize, at_column: Column) -> Result<ControllerId, RowFault>
    ensures ok { IfOk result (λ id. column row.now at ≡ StoredText id) }
    ensures kept { IfOk result (λ id. has_word (column row.now at) ≡ true) }
    ensures err { IfErr result (λ e. (e ≡ RowFault.Broken at_column) × (has_word (column row.now at) ≡ false)) }
{
    let broken = RowFault::Broken(at_column);
    let Ok(ValueRef::Text(text)) = row.get_ref(at) else {
        return Err(broken);
    };
    let Ok(text) = str::from_utf8(text) else {
        return Err(broken);
    };
    ControllerId::read(text).ok_or(broken)
}

/// The word of a column.
pub(crate) fn word_at(row: &Row, at: usize, at_column: Column) -> Result<Word, RowFault>
    ensures ok { IfOk result (λ word. column row.now at ≡ StoredText word) }
    ensures kept { IfOk result (λ word. has_word (column row.now at) ≡ true) }
    ensures err { IfErr result (λ e. (e ≡ RowFault.Broken at_column) × (has_word (column row.now at) ≡ false)) }
{
    let broken = RowFault::Broken(at_column);
    let Ok(ValueRef::Text(text)) = row.get_ref(at) else {
        return Err(broken);
    };
    let Ok(text) = str::from_utf8(text) else {
        return Err(broken);
    };
    Word::read(text).ok_or(broken)
}

/// The value of an attribute in a column.
pub(crate) fn value_at(
    alloc: Global,
    row: &Row,
    at: usize,
    at_column: Column,
) -> Result<Value, RowFault>
    ensures ok { IfOk result (λ value. column row.now at ≡ StoredText value) }
    ensures kept { IfOk result (λ value. has_value (column row.now at) ≡ true) }
    ensures err { IfErr result (λ e. (e ≡ RowFault.Memory) ⊎ ((e ≡ RowFault.Broken at_column) × (has_value (column row.now at) ≡ false))) }
{
    let text = match row.get::<String>(at) {
        Ok(text) => text,
        Err(error) => return Err(row_fault(error, at_column)),
    };
    match Value::read(alloc, text.as_str()) {
        Ok(Some(value)) => Ok(value),
        Ok(None) => Err(RowFault::Broken(at_column)),
        Err(_) => Err(RowFault::Memory),
    }
}
