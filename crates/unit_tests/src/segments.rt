//! Segments of paths that no message has, and places past a path's end.

use request_target::{number_at, segment_at};

/// Paths, places in them, and the segments there.
const SEGMENTS: [(&str, usize, Option<&str>); 7] = [
    ("/rest/v1/x", 0, Some("")),
    ("/rest/v1/x", 3, Some("x")),
    ("/rest/v1/x", 4, None),
    ("/a//b/", 2, Some("")),
    ("/a//b/", 4, Some("")),
    ("", 0, Some("")),
    ("", 1, None),
];

/// Whether this is the segment at a place.
fn is_segment(path: &str, place: usize, wanted: Option<&str>) -> bool {
    match (segment_at(path.as_bytes(), place), wanted) {
        (Some(segment), Some(wanted)) => segment == wanted.as_bytes(),
        (None, None) => true,
        _ => false,
    }
}

#[test]
fn segments_of_paths(rt: HostRuntime) {
    for (path, place, wanted) in SEGMENTS {
        assert!(rt; is_segment(path, place, wanted), "{path}");
    }
    assert!(rt; number_at(b"/a/12", 2) == Some(12));
    assert!(rt; number_at(b"/a/12", 3).is_none());
}
