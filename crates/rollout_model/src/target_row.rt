//! Targets as they are put.

ghost use Rattle.std.specs.Prelude.{◌≡◌, [], ◌∷◌, ◌++◌, true, nat_eq, IfOk, OnOk, OnErr};
ghost use Rattle.std.specs.Cmp.{on_equiv, on_per, partial_equiv_from_equiv};
ghost use Rattle.std.specs.Cmp.Lexicographic.{pointwise, lists_equiv, nat_list_eq_equiv};
ghost use Rattle.std.specs.List.{list_all};
ghost use Rattle.rollout_model.specs.Rows.{is_same_row, is_target_row, parts_of};

use crate::digest::Digest;
use crate::tags::Tags;
use crate::text::Text;
use crate::word::ControllerId;
use std::alloc::{AllocError, Global};
use std::marker::Model;

/// A target as it is put: a new one, or a new name, token and tags of the one of this id.
#[derive(Drop)]
pub struct TargetRow {
    pub id: ControllerId,
    pub name: Text,
    /// The SHA-256 of the target's token, which itself is kept nowhere.
    pub digest: Digest,
    pub tags: Tags,
}

impl TargetRow {
    /// The same row in memory of its own.
    pub fn copy(&self, alloc: Global) -> Result<TargetRow, AllocError>
        ensures { IfOk result (λ row. row ≡ self.now) }
    {
        let name = self.name.copy(alloc)?;
        let tags = self.tags.copy(alloc)?;
        Ok(TargetRow {
            id: self.id,
            name,
            digest: self.digest,
            tags,
        })
    }

    /// A row keeps the rule of rows, as the types of its parts promise.
    fn keeps_its_rule(&self)
        ensures { is_target_row self.now ≡ true }
    {
        let _id = self.id.as_str();
        let _name = self.name.as_str();
        let _digest = self.digest.as_bytes();
        let _tags = self.tags.as_slice();
    }
}

/// Each row keeps the rule of rows.
fn keep_their_rule(rows: &[TargetRow])
    ensures { list_all is_target_row rows.now ≡ true }
{
    for row in rows {
        row.keeps_its_rule();
    }
}

impl PartialEq for TargetRow {
    ghost eq = { is_same_row };

    ghost laws = { on_per parts_of (partial_equiv_from_equiv (lists_equiv nat_list_eq_equiv)) };

    fn eq(&self, other: &Self) -> bool {
        self.id == other.id
            && self.name == other.name
            && self.digest == other.digest
            && self.tags == other.tags
    }
}

impl Eq for TargetRow {
    ghost laws = { on_equiv parts_of (lists_equiv nat_list_eq_equiv) };
}

/// The rows of an import, in their order: of those with one id the last one counts.
#[derive(Drop)]
pub struct TargetRows {
    rows: Vec<TargetRow>,
}

impl Model for TargetRows {
    ghost use Rattle.std.specs.Prelude.{◌≡◌, List, true};
    ghost use Rattle.std.specs.List.{list_all};
    ghost use Rattle.rollout_model.specs.Rows.{is_target_row};
    ghost use Rattle.rollout_model.specs.declared.target_row.TargetRow.{TargetRow};

    ghost Value = { List TargetRow };

    ghost view = { λ s. s.rows.items };

    ghost invariant = { λ s. list_all is_target_row s.rows.items ≡ true };
}

impl TargetRows {
    /// No rows.
    pub fn new(alloc: Global) -> TargetRows
        ensures { result ≡ [] }
    {
        TargetRows {
            rows: Vec::new(alloc),
        }
    }

    /// These rows. It goes over them once; a list that is made row by row is made by `push`, which doesn't.
    pub fn from_rows(rows: Vec<TargetRow>) -> TargetRows
        ensures { result ≡ rows.items }
    {
        keep_their_rule(&rows);
        TargetRows { rows }
    }

    /// Adds a row at the end.
    pub fn push(&mut self, row: TargetRow) -> Result<(), AllocError>
        ensures ok { OnOk result (self.new ≡ self.old ++ row ∷ []) }
        ensures err { OnErr result (self.new ≡ self.old) }
    {
        row.keeps_its_rule();
        self.rows.push(row)?;
        Ok(())
    }

    pub fn as_slice(&self) -> &[TargetRow]
        ensures value { result.now ≡ self.now }
        ensures rules { list_all is_target_row result.now ≡ true }
    {
        self.rows.as_slice()
    }

    /// The same rows in memory of their own.
    pub fn copy(&self, alloc: Global) -> Result<TargetRows, AllocError>
        ensures { IfOk result (λ rows. rows ≡ self.now) }
    {
        let mut rows = Vec::with_capacity(alloc, self.rows.len())?;
        for row in self.as_slice() {
            rows.push(row.copy(alloc)?)?;
        }
        Ok(TargetRows { rows })
    }
}

impl PartialEq for TargetRows {
    ghost eq = { λ s t. pointwise is_same_row s t };

    ghost laws = { partial_equiv_from_equiv (lists_equiv (on_equiv parts_of (lists_equiv nat_list_eq_equiv))) };

    fn eq(&self, other: &Self) -> bool {
        self.as_slice() == other.as_slice()
    }
}

impl Eq for TargetRows {
    ghost laws = { lists_equiv (on_equiv parts_of (lists_equiv nat_list_eq_equiv)) };
}
