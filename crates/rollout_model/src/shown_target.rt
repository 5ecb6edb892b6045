//! Targets as they are shown.

use crate::tags::Tags;
use crate::target::Attributes;
use crate::target_word::TargetWord;
use crate::text::Text;
use crate::word::ControllerId;

/// A target as it is shown, without anything of its token.
#[derive(Drop)]
pub struct ShownTarget {
    pub id: ControllerId,
    pub name: Text,
    /// In byte order.
    pub tags: Tags,
    /// In byte order of their keys.
    pub attributes: Attributes,
    pub word: TargetWord,
}
