//! Adding an artifact.

ghost use Rattle.std.specs.Prelude.{◌≡◌, ◌+◌, ◌<◌, Some, None, MatchResult};
ghost use Rattle.campaign_core.specs.Checks.{artifact_refusal};

use rollout_model::limits::{ARTIFACT_LIMIT, MODULE_ARTIFACT_LIMIT};
use rollout_model::{ArtifactNo, Digest, Refusal};

/// What adding an artifact rests on.
#[derive(Clone, Copy)]
pub struct ArtifactView {
    /// Whether its module is not there.
    pub misses_module: bool,
    /// Whether a set names its module.
    pub locked: bool,
    /// Whether an artifact of the same name is in its module.
    pub same: bool,
    /// How many artifacts are in its module.
    pub module_count: usize,
    /// How many artifacts are there, in whatever module.
    pub count: u32,
    /// Whether a digest was named and the contents have another.
    pub wrong_digest: bool,
    /// In bytes.
    pub size: u32,
    /// By SHA-256 (FIPS 180-4).
    pub digest: Digest,
}

/// The artifact that is added.
#[derive(Clone, Copy)]
pub struct NewArtifact {
    pub number: ArtifactNo,
    /// In bytes.
    pub size: u32,
    /// By SHA-256 (FIPS 180-4).
    pub digest: Digest,
}

/// The number after so many artifacts.
fn number_after(count: u32) -> ArtifactNo
    requires { count < 2147483647 }
    ensures { result ≡ count + 1 }
{
    ArtifactNo::new(count + 1).unwrap()
}

/// The artifact that is added, or the first refusal that applies.
pub fn add_artifact(view: &ArtifactView) -> Result<NewArtifact, Refusal>
    ensures { MatchResult result
        (λ a. (artifact_refusal view.now ≡ None) × (a ≡ record { number = view.now.count + 1; size = view.now.size; digest = view.now.digest }))
        (λ refusal. artifact_refusal view.now ≡ Some refusal) }
{
    if view.misses_module {
        return Err(Refusal::NotFound);
    }
    if view.locked {
        return Err(Refusal::Locked);
    }
    if view.same {
        return Err(Refusal::Exists);
    }
    if view.module_count >= MODULE_ARTIFACT_LIMIT || view.count >= ARTIFACT_LIMIT {
        return Err(Refusal::Quota);
    }
    if view.wrong_digest {
        return Err(Refusal::WrongDigest);
    }
    Ok(NewArtifact {
        number: number_after(view.count),
        size: view.size,
        digest: view.digest,
    })
}
