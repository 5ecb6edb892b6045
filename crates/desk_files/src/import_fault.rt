//! Why a file isn't read as an import.

ghost use Rattle.std.specs.Prelude.{◌≡◌};
ghost use Rattle.desk_files.specs.Imports.{refusal_of_import};
ghost use Rattle.desk_files.specs.declared.import_fault.ImportFault.TheVariants.{Memory};

use rollout_model::Refusal;
use std::alloc::{AllocError, AllocFailed};
use thiserror::Error;

#[derive(Clone, Copy, Debug, PartialEq, Eq, Error)]
pub enum ImportFault {
    /// The number of the first faulty record, the header being 1; 0 is the file as a whole.
    #[error("record {0} of the import breaks its rule")]
    Line(u64),
    #[error("out of memory")]
    Memory,
}

impl ImportFault {
    /// The refusal of a request that hands in such a file.
    pub fn refusal(&self) -> Refusal
        ensures { result ≡ refusal_of_import self.now }
    {
        match self {
            ImportFault::Line(line) => Refusal::BadImportLine(*line),
            ImportFault::Memory => Refusal::NoMemory,
        }
    }
}

impl From<AllocError> for ImportFault {
    ghost from_gives = { λ _ e. e ≡ Memory };

    fn from(_refused: AllocError) -> Self {
        ImportFault::Memory
    }
}

impl<T: Drop> From<AllocFailed<T>> for ImportFault {
    ghost from_gives = { λ _ e. e ≡ Memory };

    fn from(_refused: AllocFailed<T>) -> Self {
        ImportFault::Memory
    }
}
