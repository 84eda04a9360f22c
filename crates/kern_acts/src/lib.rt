//! What instructions do, whichever format they are written in, and the steps and runs of one work-item: the part that the meanings of both
//! formats share. Each of them gives a program, which says what stands at a place of a module.
#![tactic(auto)]

ghost use Rattle.kern_acts.specs.KnownEffects.{EffectsAreKnown};
ghost use Rattle.kern_acts.specs.Laws.{ProgramsAreMachines};

/// Each program is a machine whose runs can be compared.
pub fn programs_are_machines()
    ensures { ProgramsAreMachines }
{}

/// What acts come to, on lanes and answers that are known.
pub fn effects_are_known()
    ensures { EffectsAreKnown }
{}
