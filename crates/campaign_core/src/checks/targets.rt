//! Putting targets, tagging them, and the attributes that devices give.

ghost use Rattle.std.specs.Prelude.{◌≡◌, Some, None, MatchResult};
ghost use Rattle.campaign_core.specs.Checks.{attributes_refusal, import_refusal, tag_refusal, untag_refusal};

use rollout_model::Refusal;
use rollout_model::limits::{ATTRIBUTE_LIMIT, TAG_LIMIT, TARGET_LIMIT};

/// What putting targets rests on.
#[derive(Clone, Copy)]
pub struct ImportView {
    /// How many targets there are with the new ones.
    pub count_after: u32,
}

/// What tagging a target rests on.
#[derive(Clone, Copy)]
pub struct TagView {
    /// Whether the target is not there.
    pub misses_target: bool,
    /// Whether it has the tag.
    pub same: bool,
    /// How many tags it has.
    pub count: usize,
}

/// What untagging a target rests on.
#[derive(Clone, Copy)]
pub struct UntagView {
    /// Whether the target is not there.
    pub misses_target: bool,
}

/// What putting attributes rests on.
#[derive(Clone, Copy)]
pub struct AttributesView {
    /// Whether no target has the device's id and the digest of its token.
    pub misses_device: bool,
    /// How many attributes the target of this id has.
    pub count: usize,
    /// How many keys are given that it hasn't.
    pub added: usize,
}

/// Nothing, or the first refusal that applies.
pub fn put_targets(view: &ImportView) -> Result<(), Refusal>
    ensures { MatchResult result (λ _. import_refusal view.now ≡ None) (λ refusal. import_refusal view.now ≡ Some refusal) }
{
    if view.count_after > TARGET_LIMIT {
        return Err(Refusal::Quota);
    }
    Ok(())
}

/// Nothing, or the first refusal that applies.
pub fn tag(view: &TagView) -> Result<(), Refusal>
    ensures { MatchResult result (λ _. tag_refusal view.now ≡ None) (λ refusal. tag_refusal view.now ≡ Some refusal) }
{
    if view.misses_target {
        return Err(Refusal::NotFound);
    }
    if !view.same && view.count >= TAG_LIMIT {
        return Err(Refusal::Quota);
    }
    Ok(())
}

/// Nothing, or the first refusal that applies.
pub fn untag(view: &UntagView) -> Result<(), Refusal>
    ensures { MatchResult result (λ _. untag_refusal view.now ≡ None) (λ refusal. untag_refusal view.now ≡ Some refusal) }
{
    if view.misses_target {
        return Err(Refusal::NotFound);
    }
    Ok(())
}

/// Nothing, or the first refusal that applies.
pub fn put_attributes(view: &AttributesView) -> Result<(), Refusal>
    ensures { MatchResult result (λ _. attributes_refusal view.now ≡ None) (λ refusal. attributes_refusal view.now ≡ Some refusal) }
{
    if view.misses_device {
        return Err(Refusal::Unauthorized);
    }
    if view.count.saturating_add(view.added) > ATTRIBUTE_LIMIT {
        return Err(Refusal::Quota);
    }
    Ok(())
}
