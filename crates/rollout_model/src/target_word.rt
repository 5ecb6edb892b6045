//! The state of a target.

ghost use Rattle.std.specs.Prelude.{◌≡◌};
ghost use Rattle.rollout_model.specs.StateTexts.{target_text};

/// How a target stands with what it was given to install.
#[derive(Clone, Copy)]
pub enum TargetWord {
    /// No action was begun, or the last one is gone.
    Unknown,
    /// Some action that was begun is open.
    Pending,
    /// The last action was installed.
    InSync,
    /// The last action failed.
    Error,
}

impl TargetWord {
    /// The word as it is printed. Takes no memory.
    pub fn as_str(&self) -> &'static str
        ensures { result.now ≡ target_text self.now }
    {
        match self {
            TargetWord::Unknown => "unknown",
            TargetWord::Pending => "pending",
            TargetWord::InSync => "in_sync",
            TargetWord::Error => "error",
        }
    }
}
