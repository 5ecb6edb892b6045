//! The field of a record that has a target's tags.

ghost use Rattle.std.specs.Prelude.{◌≡◌, ◌==◌, false, map, count_by, IfOk};
ghost use Rattle.std.specs.List.{list_all, slice_split};
ghost use Rattle.std.specs.Option.{MatchOption};
ghost use Rattle.rollout_model.specs.Rules.{is_tag_list, is_word, kept_if};
ghost use Rattle.desk_files.specs.TargetRecords.{field_words};

use rollout_model::{Tags, Word};
use std::alloc::{AllocError, Global};
use std::str;

/// A field with so many spaces has more than the 16 tags of a target.
const TOO_MANY_SPACES: usize = 16;

fn read_word(field: &[u8]) -> Option<Word>
    ensures { result ≡ kept_if is_word field.now }
{
    let Ok(text) = str::from_utf8(field) else {
        return None;
    };
    Word::read(text)
}

fn spaces(field: &[u8]) -> usize
    ensures { result ≡ count_by (λ b. b == 32) field.now }
{
    field.iter().filter(|b| **b == b' ').count()
}

fn parts(alloc: Global, field: &[u8]) -> Result<Vec<&[u8]>, AllocError>
    ensures { IfOk result (λ parts. map (λ part. part.now) parts.items ≡ slice_split (λ b. b == 32) field.now) }
{
    field.split(|b| *b == b' ').collect(alloc)
}

/// The parts as words, where each is one.
fn read_words(alloc: Global, parts: &[&[u8]]) -> Result<Option<Vec<Word>>, AllocError>
    ensures { IfOk result (λ words. MatchOption words (list_all is_word (map (λ part. part.now) parts.now) ≡ false)
        (λ words. words.items ≡ map (λ part. part.now) parts.now)) }
{
    let mut words = Vec::new(alloc);
    for part in parts {
        let Some(word) = read_word(part) else {
            return Ok(None);
        };
        words.push(word)?;
    }
    Ok(Some(words))
}

/// The tags: words with one space between two, or none.
pub(crate) fn read_tags(alloc: Global, field: &[u8]) -> Result<Option<Tags>, AllocError>
    ensures { IfOk result (λ tags. tags ≡ kept_if is_tag_list (field_words field.now)) }
{
    if field.is_empty() {
        return Ok(Tags::from_words(Vec::new(alloc)));
    }
    if spaces(field) >= TOO_MANY_SPACES {
        return Ok(None);
    }
    let parts = parts(alloc, field)?;
    match read_words(alloc, &parts)? {
        Some(words) => Ok(Tags::from_words(words)),
        None => Ok(None),
    }
}
