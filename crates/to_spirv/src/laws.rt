//! Laws of the definitions: the contracts of these functions, which do nothing.

ghost use Rattle.to_spirv.specs.Laws.{FirstKernelsHaveTheirWords, IdsAreInOrder, PartnerKeepsFraming, PartnerPairs, PartnerPairsWithOne, PartnersDiffer, TextHasItsWords};

/// The words of a text spell its bytes, a zero byte behind them, and zero bytes up to the end of a word.
pub fn text_has_its_words()
    ensures { TextHasItsWords }
{}

/// The words of a kernel's module keep the rules of framing.
pub fn partner_keeps_framing()
    ensures { PartnerKeepsFraming }
{}

/// The ids of a kernel's module count from 1 in the order of the instructions that define them.
pub fn ids_are_in_order()
    ensures { IdsAreInOrder }
{}

/// The modules of two small kernels, and their words.
pub fn first_kernels_have_their_words()
    ensures { FirstKernelsHaveTheirWords }
{}

/// A kernel's module of text and its module of a binary are a pair.
pub fn partner_pairs()
    ensures { PartnerPairs }
{}

/// Kernels whose modules have the same words are the same, but for places, the target lines and alignments that are left out.
pub fn partners_differ()
    ensures { PartnersDiffer }
{}

/// No other kernel makes a pair with the module of a kernel, but for places, the target lines and alignments that are left out.
pub fn partner_pairs_with_one()
    ensures { PartnerPairsWithOne }
{}
