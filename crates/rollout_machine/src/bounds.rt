//! The members of a group.

/// The first and the last position of a group among the members of its rollout, counted from 1.
#[derive(Clone, Copy)]
pub struct Bounds {
    pub first: u32,
    pub last: u32,
}
