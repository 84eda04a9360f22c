//! Runs of kernels of the covered subset: those of a kernel's module of text and those of a binary's module with the same instructions show the
//! same.
#![tactic(auto)]

ghost use Rattle.kernel_runs.specs.Canonical.{CanonicalRunsAreSame, CoveredHaveTypedForms, FormShowsImage, ImageSizesAreSame, RenamedAreTyped};
ghost use Rattle.kernel_runs.specs.FirstRuns.{FirstRuns};
ghost use Rattle.kernel_runs.specs.FirstImages.{FirstImages};
ghost use Rattle.kernel_runs.specs.Laws.{ImageRunsAreSame, RenamedImageRunsAreSame, RenamedRunsAreSame, RenamedSizesAreSame, SameRunsJoin, SameRunsTurnAround};

/// The meaning of text, run on small kernels whose events are known.
pub fn first_kernel_runs()
    ensures { FirstRuns }
{}

/// Other names, places and written alignments change nothing that a kernel shows.
pub fn renamed_runs_are_same()
    ensures { RenamedRunsAreSame }
{}

/// The module of a binary with a kernel's instructions shows what the kernel's module of text shows.
pub fn image_runs_are_same()
    ensures { ImageRunsAreSame }
{}

/// So does the module of a binary with the instructions of a renamed kernel.
pub fn renamed_image_runs_are_same()
    ensures { RenamedImageRunsAreSame }
{}

/// The facts that these laws ask for hold of small kernels: one as it is written, with numbers for names, and as a binary.
pub fn first_kernels_fit()
    ensures { FirstImages }
{}

/// A renamed kernel's module of text has as many instructions.
pub fn renamed_sizes_are_same()
    ensures { RenamedSizesAreSame }
{}

/// Runs that are the same are so in either order.
pub fn same_runs_turn_around()
    ensures { SameRunsTurnAround }
{}

/// Runs that show the same step by step are alike to the same runs.
pub fn same_runs_join()
    ensures { SameRunsJoin }
{}

/// Other names change no type.
pub fn renamed_are_typed()
    ensures { RenamedAreTyped }
{}

/// A kernel of the covered subset is typed, and its canonical form is the same kernel under other names.
pub fn covered_have_typed_forms()
    ensures { CoveredHaveTypedForms }
{}

/// The canonical form of a kernel of the covered subset shows what the kernel shows.
pub fn canonical_runs_are_same()
    ensures { CanonicalRunsAreSame }
{}

/// A binary with a kernel's instructions has as many of them as the kernel's module of text.
pub fn image_sizes_are_same()
    ensures { ImageSizesAreSame }
{}

/// The text of the canonical form shows what a binary with the kernel's instructions shows.
pub fn form_shows_image()
    ensures { FormShowsImage }
{}
