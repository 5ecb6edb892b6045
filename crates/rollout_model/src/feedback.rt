//! What devices say of their actions.

ghost use Rattle.std.specs.Prelude.{◌≡◌, IfOk};

use crate::credential::Credential;
use crate::details::Details;
use crate::feedback_number::FeedbackNumber;
use crate::number::ActionNo;
use std::alloc::{AllocError, Global};

/// A note on the way, which ends nothing.
#[derive(Clone, Copy)]
pub enum NoteWord {
    Proceeding,
    Scheduled,
    Resumed,
}

/// What a device says of a deployment.
#[derive(Clone, Copy)]
pub enum DeploymentWord {
    /// It was installed, for good.
    Succeeded,
    /// It failed, for good.
    Failed,
    /// The device rejects it for now, which counts as a note.
    Rejected,
    Noted(NoteWord),
}

/// What a device says of a cancel.
#[derive(Clone, Copy)]
pub enum CancelWord {
    /// The action is given up, for good.
    Closed,
    /// The same in another word.
    Canceled,
    /// The device goes on with the action, which ends its canceling.
    Rejected,
    Noted(NoteWord),
}

/// A device's feedback on one of its actions.
#[derive(Drop)]
pub struct DeviceFeedback<W> {
    pub credential: Credential,
    pub action: ActionNo,
    pub word: W,
    pub details: Details,
    /// By which the device tells what it sends again.
    pub number: Option<FeedbackNumber>,
}

impl<W: Copy> DeviceFeedback<W> {
    /// The same feedback in memory of its own.
    pub fn copy(&self, alloc: Global) -> Result<DeviceFeedback<W>, AllocError>
        ensures { IfOk result (λ feedback. feedback ≡ self.now) }
    {
        let details = self.details.copy(alloc)?;
        Ok(DeviceFeedback {
            credential: self.credential,
            action: self.action,
            word: self.word,
            details,
            number: self.number,
        })
    }
}

/// What a device says of an action: of its deployment, or of its cancel.
#[derive(Clone, Copy)]
pub enum Said {
    Deployment(DeploymentWord),
    Cancel(CancelWord),
}

/// What a device said of an action, as the action's history keeps it.
#[derive(Drop)]
pub struct HistoryEntry {
    pub said: Said,
    pub details: Details,
}

impl HistoryEntry {
    /// The same entry in memory of its own.
    pub fn copy(&self, alloc: Global) -> Result<HistoryEntry, AllocError>
        ensures { IfOk result (λ entry. entry ≡ self.now) }
    {
        Ok(HistoryEntry {
            said: self.said,
            details: self.details.copy(alloc)?,
        })
    }
}

/// An entry of a history with the number that the device gave it, if it gave one.
#[derive(Drop)]
pub struct Reported {
    pub entry: HistoryEntry,
    pub number: Option<FeedbackNumber>,
}

impl Reported {
    /// The same in memory of its own.
    pub fn copy(&self, alloc: Global) -> Result<Reported, AllocError>
        ensures { IfOk result (λ reported. reported ≡ self.now) }
    {
        Ok(Reported {
            entry: self.entry.copy(alloc)?,
            number: self.number,
        })
    }
}
