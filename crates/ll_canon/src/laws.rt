ghost use Rattle.ll_canon.specs.Laws.{CanonicalIsItsOwn, CanonicalIsNumbered, SameKernelsAreOne};

/// In the canonical form of a kernel of the covered subset the names are numbered in the order of their definitions.
pub fn canonical_is_numbered()
    ensures { CanonicalIsNumbered }
{}

/// The canonical form of a canonical form is that form.
pub fn canonical_is_its_own()
    ensures { CanonicalIsItsOwn }
{}

/// Kernels that differ in the numbers of their names alone have one canonical form, or none for the same reason.
pub fn same_kernels_are_one()
    ensures { SameKernelsAreOne }
{}
