ghost use Rattle.ll_one_module.specs.Laws.{BlocksAreOne, ModulesAreOne, TypedValuesAreOne, ValuesAreOne};

/// Two values that tokens begin with, whatever their tables of names, are the same but for the numbers of names, and leave
/// the same tokens.
pub fn values_are_one()
    ensures value { ValuesAreOne }
    ensures typed { TypedValuesAreOne }
{}

/// The blocks that tokens begin with, up to the end of a function, are the same but for the numbers of names.
pub fn blocks_are_one()
    ensures { BlocksAreOne }
{}

/// Two modules that some tokens are, are the same but for the numbers of names.
pub fn modules_are_one()
    ensures { ModulesAreOne }
{}
