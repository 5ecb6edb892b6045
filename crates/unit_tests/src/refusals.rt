//! The table of refusals, row by row.

use http_wire::refusal_bytes;
use rollout_model::Refusal;

/// Each refusal with its number, its name, its status, and whether the connection ends.
const ROWS: [(Refusal, u8, &str, u16, bool); 22] = [
    (Refusal::BadRequest, 1, "bad_request", 400, false),
    (Refusal::Unauthorized, 2, "unauthorized", 401, false),
    (Refusal::NotFound, 3, "not_found", 404, false),
    (Refusal::BadMethod, 4, "method", 405, false),
    (Refusal::Exists, 5, "exists", 409, false),
    (Refusal::Locked, 6, "locked", 409, false),
    (Refusal::WrongState, 7, "wrong_state", 409, false),
    (Refusal::ClosedAction, 8, "closed_action", 410, false),
    (Refusal::TooLarge, 9, "too_large", 413, true),
    (Refusal::Quota, 10, "quota", 403, false),
    (Refusal::BadFilter, 11, "filter", 400, false),
    (Refusal::TooFewTargets, 12, "too_few_targets", 400, false),
    (Refusal::WrongDigest, 13, "digest", 400, false),
    (Refusal::BadImportLine(3), 14, "import_line", 400, false),
    (Refusal::NoMemory, 15, "memory", 503, false),
    (Refusal::StoreFailed, 16, "store", 500, false),
    (Refusal::Stopped, 17, "stopped", 503, false),
    (Refusal::BadHead, 18, "head", 400, true),
    (Refusal::BadLength, 19, "length", 400, true),
    (Refusal::HeadTooLarge, 20, "head_size", 431, true),
    (Refusal::BadCoding, 21, "coding", 501, true),
    (Refusal::OldNumber, 22, "old_number", 410, false),
];

/// Whether a refusal has this number and name, with this status.
fn is_called(refusal: Refusal, number: u8, name: &str, status: u16) -> bool {
    refusal.number() == number && refusal.name() == name && refusal.status() == status
}

#[test]
fn rows(rt: HostRuntime) {
    for (refusal, number, name, status, ends) in ROWS {
        assert!(rt; is_called(refusal, number, name, status), "{name}");
        assert!(rt; refusal.ends() == ends, "{name}");
    }
}

const IMPORT_LINE: &[u8] =
    b"HTTP/1.1 400 Bad Request\r\nContent-Type: application/json\r\nContent-Length: 44\r\n\r\n{\"error\":\"import_line\",\"line\":4,\"number\":14}";

#[test]
fn the_line_of_an_import(rt: HostRuntime) {
    let bytes = refusal_bytes(Refusal::BadImportLine(4));
    assert!(rt; bytes.as_bytes() == IMPORT_LINE);
}
