use std::alloc::AllocError;

/// Why no kernel is read.
#[derive(Clone, Copy, Debug, PartialEq, Eq)]
pub enum KernelTextError {
    /// Memory is wanting, or there are 2^32 names.
    NoMemory,

    /// The tokens are no kernel of the covered subset.
    Outside,
}

impl From<AllocError> for KernelTextError {
    ghost use Rattle.std.specs.Prelude.{◌≡◌};
    ghost use Rattle.kernel_text.specs.declared.error.KernelTextError.TheVariants.{NoMemory};

    ghost from_gives = { λ _ told. told ≡ NoMemory };

    fn from(_refused: AllocError) -> KernelTextError {
        KernelTextError::NoMemory
    }
}
