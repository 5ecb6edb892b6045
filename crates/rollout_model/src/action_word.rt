//! The state of an action.

ghost use Rattle.std.specs.Prelude.{◌≡◌};
ghost use Rattle.rollout_model.specs.StateTexts.{action_text};

/// How far an action is: the first of these that applies.
#[derive(Clone, Copy)]
pub enum ActionWord {
    /// The device installed it.
    Finished,
    /// The device failed.
    Error,
    /// It was canceled.
    Canceled,
    /// Its group is not started.
    Scheduled,
    /// It is to be canceled, and the device was not heard yet.
    Canceling,
    /// It is open.
    Running,
}

impl ActionWord {
    /// The word as it is printed. Takes no memory.
    pub fn as_str(&self) -> &'static str
        ensures { result.now ≡ action_text self.now }
    {
        match self {
            ActionWord::Finished => "finished",
            ActionWord::Error => "error",
            ActionWord::Canceled => "canceled",
            ActionWord::Scheduled => "scheduled",
            ActionWord::Canceling => "canceling",
            ActionWord::Running => "running",
        }
    }
}
