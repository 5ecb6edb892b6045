//! The import of targets.

ghost use Rattle.std.specs.Prelude.{◌≡◌, nat_eq};
ghost use Rattle.std.specs.Cmp.Lexicographic.{pointwise};
ghost use Rattle.csv.specs.Records.{fields_of};
ghost use Rattle.desk_files.specs.Imports.{ImportsAs, header, targets_in_file};

use crate::fields::four_fields;
use crate::import_fault::ImportFault;
use crate::imported_rows::ImportedRows;
use crate::record_reader::{next_record, records};
use csv::ByteRecord;
use rollout_model::TargetRows;
use std::alloc::Global;

fn is_header(record: &ByteRecord) -> bool
    ensures { result ≡ pointwise (pointwise nat_eq) (fields_of record.now) header }
{
    match four_fields(record) {
        Some(fields) => {
            fields.id == b"controllerid".as_slice()
                && fields.name == b"name".as_slice()
                && fields.token == b"token".as_slice()
                && fields.tags == b"tags".as_slice()
        }
        None => false,
    }
}

/// The rows of a file of targets, as CSV: the header `controllerid,name,token,tags`, and a record for each target, with
/// one space between two tags.
///
/// # Errors
///
/// `Line(0)` where the file is empty or its last byte is no line feed; else `Line` of the first record that breaks a rule,
/// the header being 1: another header, or none; a record of another length; an id, a name, a token or a tag that breaks
/// its rule; more than 16 tags, or one of them twice; an id that came before. `Memory` where memory is refused.
pub fn read_targets(alloc: Global, bytes: &[u8]) -> Result<TargetRows, ImportFault>
    ensures { ImportsAs (targets_in_file bytes.now) result }
{
    if !bytes.ends_with(b"\n") {
        return Err(ImportFault::Line(0));
    }
    let mut reader = records(alloc, bytes);
    let mut record = ByteRecord::new(alloc);
    if !next_record(&mut reader, &mut record)? {
        return Err(ImportFault::Line(1));
    }
    if !is_header(&record) {
        return Err(ImportFault::Line(1));
    }
    let mut rows = ImportedRows::new(alloc);
    for line in 2..u64::MAX {
        if !next_record(&mut reader, &mut record)? {
            return Ok(rows.into_rows());
        }
        if !rows.take(alloc, &record)? {
            return Err(ImportFault::Line(line));
        }
    }
    Err(ImportFault::Memory)
}
