//! What holds of all bytes and modules: the contracts of these functions, which do nothing.

ghost use Rattle.spv_codec.specs.Laws.{OneModule, ModuleOrFault, OneFault, SpellsItself, OperandsAreGroups};

use spv_layout::runs_stand_last;

/// Bytes spell one module at most.
pub fn one_module()
    ensures { OneModule }
{}

/// Bytes that spell a module break no rule of framing.
pub fn module_or_fault()
    ensures { ModuleOrFault }
{}

/// Bytes break one rule of framing first at most.
pub fn one_fault()
    ensures { OneFault }
{}

/// The bytes of a module that keeps the rules of framing, in either order, spell it.
pub fn spells_itself()
    ensures { SpellsItself }
{}

/// The operands of a form can be read exactly where their words are one group for each operand.
pub fn operands_are_groups()
    ensures { OperandsAreGroups }
{
    runs_stand_last();
}
