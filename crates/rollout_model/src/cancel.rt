//! The cancel of an action.

use crate::number::ActionNo;
use crate::word::ControllerId;

/// The cancel of an action of a target.
#[derive(Clone, Copy)]
pub struct Cancel {
    pub target: ControllerId,
    pub action: ActionNo,
    /// Whether the action ends now, without the device, where it is canceling already.
    pub force: bool,
}
