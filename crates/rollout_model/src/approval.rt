//! The approval of a rollout.

/// Whether a rollout may be started.
#[derive(Clone, Copy)]
pub enum Approval {
    /// Nobody decided yet.
    Waiting,
    Denied,
    /// It was approved, or needs no approval.
    Given,
}
