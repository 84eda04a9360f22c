//! Laws of the definitions: the contracts of these functions, which do nothing.

ghost use Rattle.to_llvm.specs.Laws.{BinariesAreModules, CanonicalModulesDiffer, FirstKernelIsFound, GuessIsRight, OneKernel};

/// The instructions of a canonical kernel's module are taken for that kernel.
pub fn guess_is_right()
    ensures { GuessIsRight }
{}

/// A module is that of one canonical kernel at most.
pub fn one_kernel()
    ensures { OneKernel }
{}

/// Canonical kernels whose modules have the same bytes are the same.
pub fn canonical_modules_differ()
    ensures { CanonicalModulesDiffer }
{}

/// The module that bytes spell is that of a canonical kernel exactly where they are the bytes of that kernel's module.
pub fn binaries_are_modules()
    ensures { BinariesAreModules }
{}

/// The module of a small kernel is found to be that kernel's.
pub fn first_kernel_is_found()
    ensures { FirstKernelIsFound }
{}
