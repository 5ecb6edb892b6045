//! The state of a rollout.

ghost use Rattle.std.specs.Prelude.{◌≡◌};
ghost use Rattle.rollout_model.specs.StateTexts.{rollout_text};

/// How far a rollout is: the first of these that applies.
#[derive(Clone, Copy)]
pub enum RolloutWord {
    /// It waited for approval, which was denied.
    ApprovalDenied,
    /// It waits for approval.
    WaitingForApproval,
    /// It may be started.
    Ready,
    /// Each group is started, and each of their actions has its outcome.
    Finished,
    /// It was started, and no group starts by itself.
    Paused,
    /// It was started.
    Running,
}

impl RolloutWord {
    /// The word as it is printed. Takes no memory.
    pub fn as_str(&self) -> &'static str
        ensures { result.now ≡ rollout_text self.now }
    {
        match self {
            RolloutWord::ApprovalDenied => "approval_denied",
            RolloutWord::WaitingForApproval => "waiting_for_approval",
            RolloutWord::Ready => "ready",
            RolloutWord::Finished => "finished",
            RolloutWord::Paused => "paused",
            RolloutWord::Running => "running",
        }
    }
}
