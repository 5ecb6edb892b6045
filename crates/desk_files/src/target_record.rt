//! A record of an import as the row of a target.

ghost use Rattle.std.specs.Prelude.{◌≡◌, [], ◌∷◌, IfOk, option_map};
ghost use Rattle.csv.specs.Records.{fields_of};
ghost use Rattle.rollout_model.specs.Rules.{kept_if, is_text, is_token, is_word};
ghost use Rattle.desk_files.specs.TargetRecords.{row_of};
ghost use Rattle.artifact_pieces.specs.Digests.{digest_of};

use crate::fields::{Fields, four_fields};
use crate::tags_field::read_tags;
use artifact_pieces::describe;
use csv::ByteRecord;
use rollout_model::{ControllerId, Digest, TargetRow, Text, Token};
use std::alloc::{AllocError, Global};
use std::str;

fn read_id(field: &[u8]) -> Option<ControllerId>
    ensures { result ≡ kept_if is_word field.now }
{
    let Ok(text) = str::from_utf8(field) else {
        return None;
    };
    ControllerId::read(text)
}

fn read_name(alloc: Global, field: &[u8]) -> Result<Option<Text>, AllocError>
    ensures { IfOk result (λ name. name ≡ kept_if is_text field.now) }
{
    let Ok(text) = str::from_utf8(field) else {
        return Ok(None);
    };
    Text::read(alloc, text)
}

/// The digest of a token. The token itself is kept nowhere.
fn read_token_digest(field: &[u8]) -> Option<Digest>
    ensures { result ≡ option_map digest_of (kept_if is_token field.now) }
{
    let Ok(text) = str::from_utf8(field) else {
        return None;
    };
    let token = Token::read(text)?;
    let description = describe(token.as_bytes());
    Some(description.digest)
}

fn read_fields(alloc: Global, fields: &Fields<'_>) -> Result<Option<TargetRow>, AllocError>
    ensures { IfOk result (λ row. row ≡ row_of (fields.now.id.now ∷ fields.now.name.now ∷ fields.now.token.now ∷ fields.now.tags.now ∷ [])) }
{
    let Some(id) = read_id(fields.id) else {
        return Ok(None);
    };
    let Some(name) = read_name(alloc, fields.name)? else {
        return Ok(None);
    };
    let Some(digest) = read_token_digest(fields.token) else {
        return Ok(None);
    };
    let Some(tags) = read_tags(alloc, fields.tags)? else {
        return Ok(None);
    };
    Ok(Some(TargetRow {
        id,
        name,
        digest,
        tags,
    }))
}

/// The row of a record, where it is one.
pub(crate) fn read_row(alloc: Global, record: &ByteRecord) -> Result<Option<TargetRow>, AllocError>
    ensures { IfOk result (λ row. row ≡ row_of (fields_of record.now)) }
{
    match four_fields(record) {
        Some(fields) => read_fields(alloc, &fields),
        None => Ok(None),
    }
}
