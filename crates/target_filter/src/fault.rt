//! Why a text isn't read as a filter.

ghost use Rattle.std.specs.Prelude.{◌≡◌};
ghost use Rattle.target_filter.specs.declared.fault.FilterFault.TheVariants.{Memory};

use std::alloc::AllocError;
use thiserror::Error;

#[derive(Clone, Copy, Debug, PartialEq, Eq, Error)]
pub enum FilterFault {
    #[error("the filter is longer than 512 bytes")]
    TooLong,
    /// `at` is the length in bytes of the longest beginning of the text, in whole characters, that
    /// some continuation makes a filter.
    #[error("the filter can't go on behind {at} bytes")]
    Syntax { at: usize },
    #[error("the filter nests parentheses more than 16 deep")]
    TooDeep,
    #[error("out of memory")]
    Memory,
}

impl From<AllocError> for FilterFault {
    ghost from_gives = { λ _ e. e ≡ Memory };

    fn from(_: AllocError) -> Self {
        FilterFault::Memory
    }
}
