//! What follows of the definitions: the contracts of these functions, which do nothing.

ghost use Rattle.spv_round_trip.specs.Laws.{BuildingGivesBack, EntriesAreBuiltAgain, FunctionsAreBuiltAgain, ListsAreBuiltAgain, ModulesAreBuiltAgain, NothingIsDropped, PartnerIsBuiltAgain, PartnerIsWritable, TextsAreReadBack, TypesAreBuiltAgain, VariablesAreBuiltAgain};

/// The text that an item is spelled with is read back: of an extension, of a set of instructions, of a string and of an entry point.
pub fn texts_are_read_back()
    ensures { TextsAreReadBack }
{}

/// Of the instructions of a module that is written, those of each kind say the items of that kind, in their order.
pub fn lists_are_built_again()
    ensures { ListsAreBuiltAgain }
{}

/// The function section of a module that is written says its functions and their bodies, places aside.
pub fn functions_are_built_again()
    ensures { FunctionsAreBuiltAgain }
{}

/// The instructions before the functions of a module that is written say its variables, places aside.
pub fn variables_are_built_again()
    ensures { VariablesAreBuiltAgain }
{}

/// No instruction of a module that is written is dropped, where the module has nothing that is.
pub fn nothing_is_dropped()
    ensures { NothingIsDropped }
{}

/// The instructions of a module that is written say its entry points with their modes, places aside.
pub fn entries_are_built_again()
    ensures { EntriesAreBuiltAgain }
{}

/// The instructions of a module that is written say its types with their names, places aside.
pub fn types_are_built_again()
    ensures { TypesAreBuiltAgain }
{}

/// A module that is written is built again, places and byte order aside.
pub fn modules_are_built_again()
    ensures { ModulesAreBuiltAgain }
{}

/// A module that is written is what building gives back, where its instructions break no rule of sections, ids and functions.
pub fn building_gives_back()
    ensures { BuildingGivesBack }
{}

/// The module of a kernel is one whose instructions say all of it.
pub fn partner_is_writable()
    ensures { PartnerIsWritable }
{}

/// The module of a kernel is built again from its instructions.
pub fn partner_is_built_again()
    ensures { PartnerIsBuiltAgain }
{}
