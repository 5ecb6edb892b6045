//! Files of targets.

use artifact_pieces::digest_text;
use desk_files::{ImportFault, read_targets};
use rollout_model::{Refusal, TargetRow};
use std::alloc::Global;
use std::test::Fail;

/// A file of three targets, the second of them without tags.
const WORKED: &[u8] =
    b"controllerid,name,token,tags\ndev-01,Lab one,tok-dev-01,lab\ndev-02,Lab two,tok-dev-02,\ndev-03,Yard,tok-dev-03,lab outdoor\n";

/// The SHA-256 of `tok-dev-01`, from outside.
const DIGEST: &str = "a68c54be3824d4948ed701e5d31a81f8f0cdeb0aaab2ab560b4777cf958a9716";

/// The one row of a file that has just one; `None` for any other file.
fn only_row(alloc: Global, bytes: &[u8]) -> Option<TargetRow> {
    let rows = read_targets(alloc, bytes).ok()?;
    match rows.as_slice() {
        [row] => row.copy(alloc).ok(),
        _ => None,
    }
}

#[test]
fn rows_of_the_worked_file(rt: HostRuntime) -> Result<(), Fail> {
    let rows = read_targets(rt.alloc(), WORKED).ok().ok_or("rows")?;
    assert_eq!(rt; rows.as_slice().len(), 3);
    for row in rows.as_slice() {
        assert_eq!(rt; row.id.as_str().len(), 6);
    }
    Ok(())
}

#[test]
fn parts_of_a_row(rt: HostRuntime) -> Result<(), Fail> {
    let alloc = rt.alloc();
    let bytes =
        b"controllerid,name,token,tags\r\n\"dev-01\",\"Lab, \"\"one\"\"\",tok-dev-01,lab outdoor\r\n";
    let row = only_row(alloc, bytes).ok_or("row")?;
    assert_eq!(rt; row.id.as_str(), "dev-01");
    assert_eq!(rt; row.name.as_str(), "Lab, \"one\"");
    assert_eq!(rt; row.tags.as_slice().len(), 2);
    let digest = digest_text(alloc, &row.digest).ok().ok_or("digest")?;
    assert_eq!(rt; digest.as_str(), DIGEST);
    Ok(())
}

/// The line that is faulty; 99 for a file that has rows, and `None` for want of memory.
fn line_of(alloc: Global, bytes: &[u8]) -> Option<u64> {
    match read_targets(alloc, bytes) {
        Ok(_) => Some(99),
        Err(ImportFault::Line(line)) => Some(line),
        Err(ImportFault::Memory) => None,
    }
}

/// Files with the line that is faulty, or 99.
const FILES: [(&[u8], u64); 12] = [
    (b"", 0),
    (b"controllerid,name,token,tags", 0),
    (b"controllerid,name,token,tags\na,b,12345678,\"lab", 0),
    (b"\n\n", 1),
    (b"controllerid,name,token\n", 1),
    (b"controllerid,name,token,tags,more\n", 1),
    (b"controllerid,name,tags,token\n", 1),
    (b"controllerid,name,token,tags\n", 99),
    (b"\"controllerid\",name,token,tags\r\n", 99),
    (b"\xEF\xBB\xBFcontrollerid,name,token,tags\n", 99),
    (
        b"controllerid,name,token,tags\n\n\na,b,12345678,lab\n\n",
        99,
    ),
    (
        b"controllerid,name,token,tags\na,b,12345678,lab\nb,b,12345678,\na,b,12345678,lab\n",
        4,
    ),
];

#[test]
fn faulty_lines(rt: HostRuntime) {
    for (bytes, line) in FILES {
        assert_eq!(rt; line_of(rt.alloc(), bytes), Some(line));
    }
}

/// Second records, each with whether it is a row of a target.
const RECORDS: [(&[u8], bool); 19] = [
    (b"a,b,12345678,lab", true),
    (b"A.b_c-9,b,12345678,", true),
    (b"a,\xC3\xA9 b,12345678,lab Lab", true),
    (b"a,b,12345678,a b c d e f g h i j k l m n o p", true),
    (b"a,b,12345678,a b c d e f g h i j k l m n o p q", false),
    (b"a,b,12345678,lab,more", false),
    (b"a,b,12345678", false),
    (b",b,12345678,lab", false),
    (b"a b,b,12345678,lab", false),
    (b"\xFF,b,12345678,lab", false),
    (b"a,,12345678,lab", false),
    (b"a,\xFF,12345678,lab", false),
    (b"a,b\tc,12345678,lab", false),
    (b"a,b,1234567,lab", false),
    (b"a,b,1234567*,lab", false),
    (b"a,b,12345678,lab lab", false),
    (b"a,b,12345678, lab", false),
    (b"a,b,12345678,lab  yard", false),
    (b"a,b,12345678,\xFF", false),
];

/// Whether the record is a row, where it is the second of three; `None` for want of memory.
fn is_row(alloc: Global, record: &[u8]) -> Option<bool> {
    let mut bytes = Vec::new(alloc);
    bytes
        .extend_from_slice(b"controllerid,name,token,tags\n")
        .ok()?;
    bytes.extend_from_slice(record).ok()?;
    bytes.extend_from_slice(b"\nother,b,12345678,\n").ok()?;
    match read_targets(alloc, &bytes) {
        Ok(rows) => Some(rows.as_slice().len() == 2),
        Err(ImportFault::Line(line)) => if line == 2 { Some(false) } else { None },
        Err(ImportFault::Memory) => None,
    }
}

#[test]
fn records_that_are_rows(rt: HostRuntime) {
    for (record, is) in RECORDS {
        assert_eq!(rt; is_row(rt.alloc(), record), Some(is));
    }
}

#[test]
fn refusals(rt: HostRuntime) {
    assert!(rt; ImportFault::Line(4).refusal() == Refusal::BadImportLine(4));
    assert!(rt; ImportFault::Memory.refusal() == Refusal::NoMemory);
}

#[test]
fn want_of_memory(rt: HostRuntime) {
    match read_targets(rt.alloc(), WORKED) {
        Ok(rows) => assert_eq!(rt; rows.as_slice().len(), 3),
        Err(fault) => assert!(rt; fault == ImportFault::Memory),
    }
}
