ghost use Rattle.kern_types.specs.Laws.{LayoutsAreAligned, LayoutsComeFromParts, LayoutsStay, StepsAddUp};

/// Alignments are powers of two, and sizes are multiples of them.
pub fn layouts_are_aligned()
    ensures { LayoutsAreAligned }
{}

/// The layout of a type is the one that its parts in the whole table give it.
pub fn layouts_come_from_parts()
    ensures { LayoutsComeFromParts }
{}

/// A type keeps its layout when types are added.
pub fn layouts_stay()
    ensures { LayoutsStay }
{}

/// The steps along a path add up to the sum of its offsets, modulo 2^64.
pub fn steps_add_up()
    ensures { StepsAddUp }
{}
