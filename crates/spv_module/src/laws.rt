//! Laws of the definitions: the contracts of these functions, which do nothing.

ghost use Rattle.spv_module.specs.Laws.{ExampleLosesItsPlaces, FirstKernelIsSpelled};

/// The erasing of places, run on a module that has a place in each list.
pub fn example_loses_its_places()
    ensures { ExampleLosesItsPlaces }
{}

/// What a module is spelled as, run on a small kernel whose words are known.
pub fn first_kernel_is_spelled()
    ensures { FirstKernelIsSpelled }
{}
