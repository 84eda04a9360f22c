//! The meaning of a module of text (LLVM 14 Language Reference, with typed pointers): what the steps of a kernel show and where they lead.
#![tactic(auto)]

ghost use Rattle.ll_play.specs.KnownActs.{ActsAreKnown};
ghost use Rattle.ll_play.specs.Laws.{ModulesAreMachines, PlacesChangeNothing};

/// The runs of modules can be compared: what is over stays so, and between two terminators there are no more steps than the module has
/// instructions.
pub fn modules_are_machines()
    ensures { ModulesAreMachines }
{}

/// The places in a text don't matter to its meaning.
pub fn places_change_nothing()
    ensures { PlacesChangeNothing }
{}

/// The acts of some instructions, as they are known.
pub fn acts_are_known()
    ensures { ActsAreKnown }
{}
