//! What holds of all texts: the contracts of these functions, which do nothing.

ghost use Rattle.ll_fronts.specs.Laws.{RefusalsDependOnNothingBehind, RefusalsStay, ShorterListsGoOn, TextsDependOnNothingBehind};

/// Tokens that are refused at one of them are those of no module, whatever stands behind that one.
pub fn refusals_depend_on_nothing_behind()
    ensures { RefusalsDependOnNothingBehind }
{}

/// Tokens that are the same up to the one at the place of a refusal are refused there too, by the same rule.
pub fn refusals_stay()
    ensures { RefusalsStay }
{}

/// A text whose tokens are the same up to the one at the place of a refusal is no module's text.
pub fn texts_depend_on_nothing_behind()
    ensures { TextsDependOnNothingBehind }
{}

/// Tokens that end before the place of a refusal are a module's, or are refused at their end.
pub fn shorter_lists_go_on()
    ensures { ShorterListsGoOn }
{}
