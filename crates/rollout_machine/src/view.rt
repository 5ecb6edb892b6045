//! What the effects of a command on a rollout rest on, and these effects.

/// A group with its counts of outcomes and its thresholds, percentages from 1 to 100.
#[derive(Clone, Copy)]
pub struct GroupView {
    pub number: u32,
    pub size: u32,
    pub ok: u32,
    pub bad: u32,
    pub success: u8,
    pub error: u8,
}

/// A rollout before a command: how many groups it has, the group of the action concerned, and the last one that was started.
#[derive(Clone, Copy)]
pub struct RolloutView {
    pub paused: bool,
    pub groups: u32,
    pub own: GroupView,
    pub last: GroupView,
}

/// What a command does to its rollout beside what it was given for: whether it pauses it, and which group it starts.
#[derive(Clone, Copy)]
pub struct Effects {
    pub pauses: bool,
    pub starts: Option<u32>,
}
