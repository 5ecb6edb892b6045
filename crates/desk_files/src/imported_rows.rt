//! The rows that an import has so far.

ghost use Rattle.std.specs.Prelude.{◌≡◌, [], IfOk};
ghost use Rattle.csv.specs.Records.{fields_of};
ghost use Rattle.desk_files.specs.private.ImportSteps.{HasIds, TakesRecord};

use crate::target_record::read_row;
use csv::ByteRecord;
use rollout_model::{ControllerId, TargetRows};
use std::alloc::{AllocError, Global};
use std::collections::BTreeSet;

/// Rows of targets, no two of one id. The ids stand in a set, so that a long file is read in a short time.
#[derive(Drop)]
pub(crate) struct ImportedRows {
    rows: TargetRows,
    ids: BTreeSet<ControllerId>,
}

impl ImportedRows {
    /// No rows.
    pub(crate) fn new(alloc: Global) -> ImportedRows
        ensures rows { result.rows ≡ [] }
        ensures ids { HasIds result }
    {
        ImportedRows {
            rows: TargetRows::new(alloc),
            ids: BTreeSet::new(alloc),
        }
    }

    pub(crate) fn into_rows(self) -> TargetRows
        ensures { result ≡ self.rows }
    {
        self.rows
    }

    /// Adds the row of a record, where it is one of an id that no row before it has; `false` where it isn't.
    pub(crate) fn take(&mut self, alloc: Global, record: &ByteRecord) -> Result<bool, AllocError>
        ensures { IfOk result (λ taken. HasIds self.old → TakesRecord self.old self.new (fields_of record.now) taken) }
    {
        let Some(row) = read_row(alloc, record)? else {
            return Ok(false);
        };
        if !self.ids.insert(row.id)? {
            return Ok(false);
        }
        self.rows.push(row)?;
        Ok(true)
    }
}
