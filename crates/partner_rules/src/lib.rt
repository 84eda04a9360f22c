//! Rules of binaries that the module of a kernel keeps.
#![tactic(auto)]

ghost use Rattle.partner_rules.specs.Laws.{
  CoveredKernelsUseValues,
  DeclarationsUseEarlierIds,
  FunctionsAreListed,
  IdsAreDefinedOnce,
  IdsAreKnown,
  IdsAreWithinBound,
  IdsHaveTheirRoles,
  NamesBreakNoRule,
  SectionsAreInOrder,
};

/// The function section of a kernel's module is a list of functions: rule 25 is broken nowhere.
pub fn functions_are_listed()
    ensures { FunctionsAreListed }
{}

/// The sections of a kernel's module are in order, and it has one memory model: rule 14 is broken nowhere.
pub fn sections_are_in_order()
    ensures { SectionsAreInOrder }
{}

/// Each id of a kernel's module is one from 1 to below its bound: rule 20 is broken nowhere.
pub fn ids_are_within_bound()
    ensures { IdsAreWithinBound }
{}

/// No id is defined twice in a kernel's module: rule 21 is broken nowhere.
pub fn ids_are_defined_once()
    ensures { IdsAreDefinedOnce }
{}

/// Each id that a kernel's module uses is defined, and not in another function: rule 22 is broken nowhere.
pub fn ids_are_known()
    ensures { IdsAreKnown }
{}

/// The instructions of a kernel of the covered subset use values, and not the names of the kernel and of its block.
pub fn covered_kernels_use_values()
    ensures { CoveredKernelsUseValues }
{}

/// Each id of a kernel's module has the role that the instruction asks which uses it: rule 23 is broken nowhere.
pub fn ids_have_their_roles()
    ensures { IdsHaveTheirRoles }
{}

/// The types of a kernel's module use types that stand before them: rule 24 is broken nowhere.
pub fn declarations_use_earlier_ids()
    ensures { DeclarationsUseEarlierIds }
{}

/// The module of a kernel breaks no rule of section order, of ids or of the form of functions.
pub fn names_break_no_rule()
    ensures { NamesBreakNoRule }
{}
