//! Rules that the tables keep: the contracts of these functions, which do nothing.

ghost use Rattle.spv_layout.specs.Laws.{FoundByNumber, FoundByName, NumbersRise, RunsStandLast, ValuesRise, BitsAreSingle, ExtraOperandsArePlain, OneBitHasExtraOperands};

/// An opcode is found by its number, so no two have one number.
pub fn found_by_number()
    ensures { FoundByNumber }
{}

/// An opcode is found by its name, so no two have one name.
pub fn found_by_name()
    ensures { FoundByName }
{}

/// The opcodes stand by rising number.
pub fn numbers_rise()
    ensures { NumbersRise }
{}

/// An operand that may be left out, or that stands for several, is the last one of its form.
pub fn runs_stand_last()
    ensures { RunsStandLast }
{}

/// The enumerants of each kind stand by rising value.
pub fn values_rise()
    ensures { ValuesRise }
{}

/// Each enumerant of a mask is one bit.
pub fn bits_are_single()
    ensures { BitsAreSingle }
{}

/// Nothing follows an enumerant that follows another one.
pub fn extra_operands_are_plain()
    ensures { ExtraOperandsArePlain }
{}

/// One bit of a mask at most is followed by anything.
pub fn one_bit_has_extra_operands()
    ensures { OneBitHasExtraOperands }
{}
