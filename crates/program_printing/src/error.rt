//! Why a text wasn't printed whole.

use model_base::NoMemory;
use thiserror::Error;

/// Why a text wasn't printed whole.
#[derive(Clone, Copy, Debug, PartialEq, Eq, Error)]
pub enum PrintError {
    /// The sink failed, and has taken a prefix of the text.
    #[error("the sink failed")]
    Failed,
    /// There was no memory for the bytes that wait. Nothing was printed.
    #[error("no memory")]
    NoMemory,
}

impl From<NoMemory> for PrintError {
    ghost use Rattle.std.specs.Prelude.{◌≡◌};
    ghost use Rattle.program_printing.specs.declared.error.PrintError.TheVariants.{NoMemory};

    ghost from_gives = { λ _ e. e ≡ NoMemory };

    fn from(_: NoMemory) -> PrintError {
        PrintError::NoMemory
    }
}
