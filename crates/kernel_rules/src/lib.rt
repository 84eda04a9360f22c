//! The rules that a kernel's text may break, as lists of all their places.
#![tactic(auto)]

ghost use Rattle.kernel_rules.specs.Laws.{FirstUndefinedIsFirst};

/// Of the names that a text uses and defines nowhere, the first in the order of the text is the one that is told: it is at the least place.
pub fn first_undefined_is_first()
    ensures { FirstUndefinedIsFirst }
{}
