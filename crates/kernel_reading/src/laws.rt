ghost use Rattle.kernel_reading.specs.Examples.{ExampleIsPrinted};
ghost use Rattle.kernel_reading.specs.Laws.{CanonicalKernelsAreCanonical, CanonicalTextsAreRead, OwnNamesAreOwn, OwnNamesAreUtf8, PrintedKernelsAreRead, PrintedTextsAreOfOneKernel};

/// The canonical form of a kernel of the covered subset is a canonical kernel, where the kernel's own name is one of a text.
pub fn canonical_kernels_are_canonical()
    ensures { CanonicalKernelsAreCanonical }
{}

/// The own name of a kernel that is read from a text stands without quotes and is no number.
pub fn own_names_are_own()
    ensures { OwnNamesAreOwn }
{}

/// Such a name is UTF-8.
pub fn own_names_are_utf8()
    ensures { OwnNamesAreUtf8 }
{}

/// The text of a canonical kernel is UTF-8 and has tokens, and they are those of a kernel with this canonical form.
pub fn printed_kernels_are_read()
    ensures { PrintedKernelsAreRead }
{}

/// Whatever kernel is read from the text of a canonical kernel is of the covered subset, and its canonical form is that kernel.
pub fn printed_texts_are_of_one_kernel()
    ensures { PrintedTextsAreOfOneKernel }
{}

/// The text of the canonical form of a kernel that is read from a text can be read again, as a kernel with that canonical form.
pub fn canonical_texts_are_read()
    ensures { CanonicalTextsAreRead }
{}

/// `define spir_kernel void @k(i32 %a) { %1 = add i32 %a, %a ret void }` has a canonical kernel, whose text can be read.
pub fn example_is_printed()
    ensures { ExampleIsPrinted }
{}
