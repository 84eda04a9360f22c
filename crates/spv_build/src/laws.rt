//! What follows of the definitions: the contracts of these functions, which do nothing.

ghost use Rattle.spv_build.specs.Laws.{BuiltModulesAreOne, BuiltOrRefused, DecodedInstructionsAreSpelledAgain, FunctionsAreReadBack, InstructionsAreSpelledAgain, ItemsAreReadBack};

/// A binary has one module at most.
pub fn built_modules_are_one()
    ensures { BuiltModulesAreOne }
{}

/// No binary has a module and is refused.
pub fn built_or_refused()
    ensures { BuiltOrRefused }
{}

/// What an item is spelled as is read as that item.
pub fn items_are_read_back()
    ensures { ItemsAreReadBack }
{}

/// An instruction of a function body whose words have each operand of its form is spelled again as it was read.
pub fn instructions_are_spelled_again()
    ensures { InstructionsAreSpelledAgain }
{}

/// What functions without places, each with its body, are spelled as is read as these functions, where each instruction is one that stands
/// inside a block or ends it.
pub fn functions_are_read_back()
    ensures { FunctionsAreReadBack }
{}

/// An instruction of a decoded binary is spelled again as it was read, where its form has operands of one word each, but for the last.
pub fn decoded_instructions_are_spelled_again()
    ensures { DecodedInstructionsAreSpelledAgain }
{}
