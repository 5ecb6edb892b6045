//! The records of a file, one after the other.

ghost use Rattle.std.specs.Prelude.{◌≡◌, List, IfOk, IfErr};
ghost use Rattle.csv.specs.Records.{fields_of};
ghost use Rattle.desk_files.specs.Imports.{records_of};
ghost use Rattle.desk_files.specs.private.RecordReaders.{GivesRecords, GivesNext};
ghost use Rattle.desk_files.specs.TargetRecords.{Record};
ghost use Rattle.desk_files.specs.declared.import_fault.ImportFault.TheVariants.{Memory};

use crate::import_fault::ImportFault;
use csv::{ByteRecord, Reader, ReaderBuilder};
use std::alloc::Global;

/// A reader of the file's records, of whatever lengths, the first of them too.
pub(crate) fn records(alloc: Global, bytes: &[u8]) -> Reader<&[u8]>
    ensures { GivesRecords result (records_of bytes.now) }
{
    ReaderBuilder::new()
        .has_headers(false)
        .flexible(true)
        .from_reader(alloc, bytes)
}

/// The next record, and whether there is one. Bytes in memory can't fail, so what fails is memory.
pub(crate) fn next_record(
    reader: &mut Reader<&[u8]>,
    record: &mut ByteRecord,
) -> Result<bool, ImportFault>
    ensures gives { IfOk result (λ found. (records : List Record) → GivesRecords reader.old records
        → GivesNext records reader.new found (fields_of record.new)) }
    ensures memory { IfErr result (λ e. e ≡ Memory) }
{
    let Ok(found) = reader.read_byte_record(record) else {
        return Err(ImportFault::Memory);
    };
    Ok(found)
}
