//! Who devices say they are.

use crate::digest::Digest;
use crate::word::ControllerId;

/// Who a device says it is, with the SHA-256 of the token that it showed.
#[derive(Clone, Copy)]
pub struct Credential {
    pub id: ControllerId,
    pub digest: Digest,
}
