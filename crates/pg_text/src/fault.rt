//! Why a line or a text could not be read.
ghost use Rattle.std.specs.Prelude.{◌≡◌};
ghost use Rattle.pg_text.specs.declared.fault.LineFault.TheVariants as lines;
ghost use Rattle.pg_text.specs.declared.fault.FileFault.TheVariants as files;

use cpog_base::{Counted, Memory};
use std::alloc::{AllocError, AllocFailed};

/// Why a line could not be read.
#[derive(Clone, Copy, Debug, PartialEq, Eq)]
pub(crate) enum LineFault {
    Bad,
    Memory,
}

impl From<Memory> for LineFault {
    ghost from_gives = { λ _ e. e ≡ lines.Memory };

    fn from(_error: Memory) -> LineFault {
        LineFault::Memory
    }
}

impl<T: Drop> From<AllocFailed<T>> for LineFault {
    ghost from_gives = { λ _ e. e ≡ lines.Memory };

    fn from(_error: AllocFailed<T>) -> LineFault {
        LineFault::Memory
    }
}

impl From<AllocError> for LineFault {
    ghost from_gives = { λ _ e. e ≡ lines.Memory };

    fn from(_error: AllocError) -> LineFault {
        LineFault::Memory
    }
}

/// Why a text could not be read.
#[derive(Clone, Copy, Debug, PartialEq, Eq)]
pub enum FileFault {
    /// The number of the first line that is outside the grammar, from 1.
    BadLine(u32),
    /// More of a thing than the limit.
    Limit(Counted, u32),
    /// No memory was left.
    Memory,
}

impl From<Memory> for FileFault {
    ghost from_gives = { λ _ e. e ≡ files.Memory };

    fn from(_error: Memory) -> FileFault {
        FileFault::Memory
    }
}
