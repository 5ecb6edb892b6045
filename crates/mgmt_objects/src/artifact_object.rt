//! Artifacts in replies.

ghost use Rattle.std.specs.Prelude.{◌≡◌, refl, IfOk};
ghost use Rattle.serde_json.specs.View.{view};
ghost use Rattle.mgmt_objects.specs.ArtifactObjects.{artifact_data, hashes_data};

use crate::shown::Shown;
use artifact_pieces::digest_text;
use rollout_model::Artifact;
use serde_json::{Value, json};
use std::alloc::{AllocError, Global};

fn hashes(alloc: Global, artifact: &Artifact) -> Result<Value, AllocError>
    ensures { IfOk result (λ v. view v ≡ hashes_data artifact.now) }
{
    let digits = digest_text(alloc, &artifact.digest)?;
    json!(in alloc; { "sha256": digits.as_str() })
}

impl Shown for Artifact {
    ghost shows = { artifact_data };

    ghost has_no_float = { λ a. refl };

    fn value(&self, alloc: Global) -> Result<Value, AllocError> {
        let hashes = hashes(alloc, self)?;
        json!(in alloc; {
            "hashes": hashes,
            "id": self.number.get(),
            "providedFilename": self.filename.as_str(),
            "size": self.size,
        })
    }
}
