//! How serving a stream ends.

use http_wire::End;

/// What was served, to the stream's end or to a fault of the wire that was answered.
#[derive(Clone, Copy)]
pub struct Served {
    /// How many whole messages were answered. The count stays at 2^64 - 1.
    pub answered: u64,
    pub end: End,
}

/// Why serving stopped before the stream's end.
#[derive(Clone, Copy)]
pub enum ServeFault {
    /// A read answered an error.
    Read,
    /// A write or a flush failed.
    Write,
    /// The store failed. The last reply says so, or is a download's, of which a beginning was written.
    Store,
    /// No memory was left for the routes, for the next bytes of the stream, for a reply or for a piece of a download.
    Memory,
}
