//! What a message uploads, by its query and its body.

ghost use Rattle.std.specs.Prelude.{◌≡◌, codes, map, option_and_then};
ghost use Rattle.request_target.specs.Pairs.{seen};
ghost use Rattle.mgmt_objects.specs.Readings.{ReadsAs};
ghost use Rattle.rollout_model.specs.Rules.{kept_if, is_contents, is_filename};
ghost use Rattle.mgmt_api.specs.UploadQueries.{upload_asked};
ghost use Rattle.artifact_pieces.specs.Digests.{digest_named};
ghost use Rattle.mgmt_objects.specs.Bodies.{if_given};
ghost use Rattle.request_target.specs.Queries.{value_of};

use artifact_pieces::read_digest;
use request_target::{read_query, value_of};
use rollout_model::{Contents, Digest, Filename, ModuleNo, Refusal, Upload};
use std::alloc::Global;

fn filename_given(pairs: &[(String, String)]) -> Option<Filename>
    ensures { result ≡ option_and_then (kept_if is_filename) (value_of (codes "filename") (map seen pairs.now)) }
{
    let text = value_of(pairs, "filename")?;
    Filename::read(text)
}

/// `Some(None)` where no digest is given, `None` where what is given is none.
fn digest_expected(pairs: &[(String, String)]) -> Option<Option<Digest>>
    ensures { result ≡ if_given digest_named (value_of (codes "sha256") (map seen pairs.now)) }
{
    match value_of(pairs, "sha256") {
        None => Some(None),
        Some(text) => {
            let digest = read_digest(text)?;
            Some(Some(digest))
        }
    }
}

fn read_contents(alloc: Global, body: &[u8]) -> Result<Contents, Refusal>
    ensures { ReadsAs (kept_if is_contents body.now) result }
{
    let bytes = Vec::from_slice(alloc, body)?;
    match Contents::from_bytes(bytes) {
        Some(contents) => Ok(contents),
        None => Err(Refusal::BadRequest),
    }
}

/// What is uploaded to a module: the body's bytes as they are, by the query's `filename` and, where it is given, `sha256`.
pub(crate) fn read_upload(
    alloc: Global,
    module_number: ModuleNo,
    query: &[u8],
    body: &[u8],
) -> Result<Upload, Refusal>
    ensures { ReadsAs (upload_asked module_number query.now body.now) result }
{
    let keys = ["filename", "sha256"];
    let Some(pairs) = read_query(alloc, &keys, query)? else {
        return Err(Refusal::BadRequest);
    };
    let Some(filename) = filename_given(&pairs) else {
        return Err(Refusal::BadRequest);
    };
    let Some(expected) = digest_expected(&pairs) else {
        return Err(Refusal::BadRequest);
    };
    let contents = read_contents(alloc, body)?;
    Ok(Upload {
        module_number,
        filename,
        expected,
        contents,
    })
}
