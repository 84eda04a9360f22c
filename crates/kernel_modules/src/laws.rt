ghost use Rattle.kernel_modules.specs.Laws.{KernelsAreOfModules, KernelsNestNoDeeper};

/// The tokens of a kernel are those of a module.
pub fn kernels_are_of_modules()
    ensures { KernelsAreOfModules }
{}

/// No bracket among the tokens of a kernel is nested too deep.
pub fn kernels_nest_no_deeper()
    ensures { KernelsNestNoDeeper }
{}
