//! The state of a group of a rollout.

ghost use Rattle.std.specs.Prelude.{◌≡◌};
ghost use Rattle.rollout_model.specs.StateTexts.{group_text};

/// How far a group is: the first of these that applies.
#[derive(Clone, Copy)]
pub enum GroupWord {
    /// The rollout was not started.
    Ready,
    /// The rollout was started, and this group not yet.
    Scheduled,
    /// Each action has its outcome.
    Finished,
    /// The error threshold is reached.
    Error,
    /// It was started.
    Running,
}

impl GroupWord {
    /// The word as it is printed. Takes no memory.
    pub fn as_str(&self) -> &'static str
        ensures { result.now ≡ group_text self.now }
    {
        match self {
            GroupWord::Ready => "ready",
            GroupWord::Scheduled => "scheduled",
            GroupWord::Finished => "finished",
            GroupWord::Error => "error",
            GroupWord::Running => "running",
        }
    }
}
