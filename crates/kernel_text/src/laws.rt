ghost use Rattle.kernel_text.specs.Examples.{ExampleIsRead};
ghost use Rattle.kernel_text.specs.Laws.{OneKernel};

/// Tokens are those of one kernel at most, but for the numbers that its table gives to names.
pub fn one_kernel()
    ensures { OneKernel }
{}

/// `define spir_kernel void @k(i32 %a) { %1 = add i32 %a, %a ret void }` is a kernel, whose block has the number 0.
pub fn kernels_are_read()
    ensures { ExampleIsRead }
{}
