//! Why a reader was not opened.

use model_base::NoMemory;

/// Why a reader was not opened at a place of a log.
#[derive(Clone, Copy, Debug, PartialEq, Eq)]
pub enum OpenError {
    /// The disk failed, and this is its count of faults.
    Fault { count: u64 },
    /// There was no memory for a block.
    NoMemory,
}

impl From<NoMemory> for OpenError {
    ghost use Rattle.std.specs.Prelude.{◌≡◌};
    ghost use Rattle.log_reader.specs.declared.errors.OpenError.TheVariants.{NoMemory};

    ghost from_gives = { λ _ e. e ≡ NoMemory };

    fn from(_: NoMemory) -> OpenError {
        OpenError::NoMemory
    }
}
