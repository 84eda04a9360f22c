//! What holds of every list of instructions: the contracts of these functions, which do nothing.

ghost use Rattle.spv_names.specs.Laws.{FunctionsAreListed, MisfitIsFirst, UnfinishedIsAtTheEnd};

/// The function section breaks no rule of its form exactly where it is a list of functions, each with its parameters, one block or more,
/// each of which begins with a label and ends with one terminator, and its end.
pub fn functions_are_listed()
    ensures { FunctionsAreListed }
{}

/// The place that is told of the function section is that of the first instruction with which it no longer begins a list of functions.
pub fn misfit_is_first()
    ensures { MisfitIsFirst }
{}

/// Where the function section begins a list of functions but is none, the place that is told is the number of words.
pub fn unfinished_is_at_the_end()
    ensures { UnfinishedIsAtTheEnd }
{}
