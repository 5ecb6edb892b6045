//! The body that puts targets.

ghost use Rattle.std.specs.Prelude.{◌≡◌, [], Some, codes, map, nat_eq, option_and_then, option_map};
ghost use Rattle.serde_json.specs.Find.{get};
ghost use Rattle.serde_json.specs.View.{view};
ghost use Rattle.mgmt_objects.specs.Readings.{ReadsAs, ReadsBy};
ghost use Rattle.mgmt_objects.specs.TargetBodies.{are_posted, target_row_of};
ghost use Rattle.artifact_pieces.specs.Digests.{digest_of};
ghost use Rattle.mgmt_objects.specs.Bodies.{body_data, string_member, text_in};
ghost use Rattle.mgmt_objects.specs.Traverse.{array_of};
ghost use Rattle.rollout_model.specs.Rules.{are_distinct_words, is_tag_list, is_token, is_word, kept_if};
ghost use Rattle.rollout_model.specs.declared.target_row.TargetRow as target_row;
ghost use Rattle.std.specs.Cmp.Lexicographic.{pointwise};
ghost use Rattle.std.specs.List.{list_any};
ghost use Rattle.std.specs.Option.{option_map_or};

use crate::body::read_value;
use crate::list::{Item, read_array};
use crate::member::read_text;
use artifact_pieces::describe;
use rollout_model::limits::POSTED_TARGET_LIMIT;
use rollout_model::{ControllerId, Digest, Refusal, Tags, TargetRow, TargetRows, Token, Word};
use serde_json::Value;
use std::alloc::Global;

fn word_in(value: &Value) -> Option<Word>
    ensures { result ≡ text_in is_word (view value.now) }
{
    let text = value.as_str()?;
    Word::read(text)
}

/// A tag in an array of tags.
impl Item for Word {
    ghost reads = { text_in is_word };

    fn read(_alloc: Global, value: &Value) -> Result<Self, Refusal> {
        match word_in(value) {
            Some(word) => Ok(word),
            None => Err(Refusal::BadRequest),
        }
    }
}

fn read_id(object: &Value, key: &str) -> Option<ControllerId>
    ensures { result ≡ option_and_then (text_in is_word) (get key.now (view object.now)) }
{
    let text = object.get(key).and_then(Value::as_str)?;
    ControllerId::read(text)
}

/// The digest of a member that is a token. The token itself is kept nowhere.
fn read_token_digest(object: &Value, key: &str) -> Option<Digest>
    ensures { result ≡ option_map digest_of (option_and_then (kept_if is_token) (string_member key.now (view object.now))) }
{
    let text = object.get(key).and_then(Value::as_str)?;
    let token = Token::read(text)?;
    let description = describe(token.as_bytes());
    Some(description.digest)
}

/// The words of a member that is an array, and none where it is missing.
fn read_words(alloc: Global, object: &Value, key: &str) -> Result<Vec<Word>, Refusal>
    ensures { ReadsBy (λ v. v.items) (option_map_or (array_of (text_in is_word)) (get key.now (view object.now)) (Some [])) result }
{
    match object.get(key) {
        Some(list) => read_array::<Word>(alloc, list),
        None => Ok(Vec::new(alloc)),
    }
}

fn read_tags(alloc: Global, object: &Value) -> Result<Tags, Refusal>
    ensures { ReadsAs (option_and_then (kept_if is_tag_list)
        (option_map_or (array_of (text_in is_word)) (get (codes "tags") (view object.now)) (Some []))) result }
{
    let words = read_words(alloc, object, "tags")?;
    match Tags::from_words(words) {
        Some(tags) => Ok(tags),
        None => Err(Refusal::BadRequest),
    }
}

/// An object with `controllerId`, `name`, `securityToken` and perhaps `tags`.
impl Item for TargetRow {
    ghost reads = { target_row_of };

    fn read(alloc: Global, value: &Value) -> Result<Self, Refusal> {
        let Some(id) = read_id(value, "controllerId") else {
            return Err(Refusal::BadRequest);
        };
        let name = read_text(alloc, value, "name")?;
        let Some(digest) = read_token_digest(value, "securityToken") else {
            return Err(Refusal::BadRequest);
        };
        let tags = read_tags(alloc, value)?;
        Ok(TargetRow {
            id,
            name,
            digest,
            tags,
        })
    }
}

/// Whether some row is one of the target of this id.
fn has_row_of(rows: &[TargetRow], id: &ControllerId) -> bool
    ensures { result ≡ list_any (λ word. pointwise nat_eq word id.now) (map (λ (row : target_row.TargetRow). row.id) rows.now) }
{
    match rows {
        [] => false,
        [first, rest @ ..] => first.id == *id || has_row_of(rest, id),
    }
}

/// Whether no two rows are of one id.
fn have_distinct_ids(rows: &[TargetRow]) -> bool
    ensures { result ≡ are_distinct_words (map (λ (row : target_row.TargetRow). row.id) rows.now) }
{
    match rows {
        [] => true,
        [first, rest @ ..] => !has_row_of(rest, &first.id) && have_distinct_ids(rest),
    }
}

fn posted(rows: Vec<TargetRow>) -> Option<TargetRows>
    ensures { result ≡ kept_if are_posted rows.items }
{
    let count = rows.len();
    let are_posted = 1 <= count && count <= POSTED_TARGET_LIMIT && have_distinct_ids(&rows);
    if !are_posted {
        return None;
    }
    Some(TargetRows::from_rows(rows))
}

/// What the body of `POST /rest/v1/targets` puts: an array of 1 to 100 objects, no two of one `controllerId`, each with
/// `controllerId`, `name`, `securityToken` and perhaps `tags`, at most 16 words, none of them twice.
pub fn read_targets_body(alloc: Global, bytes: &[u8]) -> Result<TargetRows, Refusal>
    ensures { ReadsAs (option_and_then (kept_if are_posted) (option_and_then (array_of target_row_of) (body_data bytes.now))) result }
{
    let value = read_value(alloc, bytes)?;
    let rows = read_array::<TargetRow>(alloc, &value)?;
    match posted(rows) {
        Some(rows) => Ok(rows),
        None => Err(Refusal::BadRequest),
    }
}
