ghost use Rattle.kernel_phrases.specs.Laws.{CanonicalKernelsAreWritten};

/// What the module of a canonical kernel is written as is the kernel's canonical text.
pub fn canonical_kernels_are_written()
    ensures { CanonicalKernelsAreWritten }
{}
