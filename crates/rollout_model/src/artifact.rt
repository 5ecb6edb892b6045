//! Artifacts, the files that devices download.

ghost use Rattle.std.specs.Prelude.{◌≡◌, IfOk};

use crate::contents::Contents;
use crate::digest::Digest;
use crate::filename::Filename;
use crate::number::{ArtifactNo, ModuleNo};
use std::alloc::{AllocError, Global};

/// What an artifact is added by: no two artifacts of a module have the same name.
#[derive(Drop)]
pub struct Upload {
    /// The module that takes it.
    pub module_number: ModuleNo,
    pub filename: Filename,
    /// What the contents' digest has to be, where the sender said so.
    pub expected: Option<Digest>,
    pub contents: Contents,
}

impl Upload {
    /// The same upload in memory of its own.
    pub fn copy(&self, alloc: Global) -> Result<Upload, AllocError>
        ensures { IfOk result (λ upload. upload ≡ self.now) }
    {
        let contents = self.contents.copy(alloc)?;
        Ok(Upload {
            module_number: self.module_number,
            filename: self.filename,
            expected: self.expected,
            contents,
        })
    }
}

/// An artifact as it is shown.
#[derive(Clone, Copy)]
pub struct Artifact {
    pub number: ArtifactNo,
    pub filename: Filename,
    /// In bytes, from 0 to 4,194,304.
    pub size: u32,
    /// By SHA-256 (FIPS 180-4).
    pub digest: Digest,
}
