//! The meaning of the module of a binary (SPIR-V 1.2 for kernels): what the steps of an entry point show and where they lead.
#![tactic(auto)]

ghost use Rattle.spv_play.specs.KnownActs.{ActsAreKnown};
ghost use Rattle.spv_play.specs.Laws.{ModulesAreMachines, PlacesChangeNothing};
ghost use Rattle.spv_play.specs.FirstRuns.{FirstRuns};

/// The runs of modules can be compared: what is over stays so, and between two terminators there are no more steps than the module has
/// instructions.
pub fn modules_are_machines()
    ensures { ModulesAreMachines }
{}

/// The meaning, run on a small kernel whose events are known.
pub fn first_kernel_runs()
    ensures { FirstRuns }
{}

/// Neither the places of instructions nor the byte order of a binary matter to its meaning.
pub fn places_change_nothing()
    ensures { PlacesChangeNothing }
{}

/// What opcodes stand for, and the acts of some instructions, as they are known.
pub fn acts_are_known()
    ensures { ActsAreKnown }
{}
