//! What follows of the definitions: the contract of this function, which does nothing.

ghost use Rattle.spv_types.specs.Laws.{TypesAreReadBack};

/// What a type is spelled as is read as that type, where the module tells of its parts what the type says.
pub fn types_are_read_back()
    ensures { TypesAreReadBack }
{}
