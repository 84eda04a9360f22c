//! What holds of all tokens: the contracts of these functions, which do nothing.

ghost use Rattle.ll_front_parts.specs.Laws.{OperandsStay, TypesStay};

/// Tokens that are the same up to the one at which a type is refused are refused there too, by the same rule.
pub fn types_stay()
    ensures { TypesStay }
{}

/// The same of an operand, a value with its type.
pub fn operands_stay()
    ensures { OperandsStay }
{}
