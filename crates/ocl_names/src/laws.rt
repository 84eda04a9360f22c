ghost use Rattle.ocl_names.specs.Laws.{NumbersAndNamesAgree, AtomicsByGrammar, WordsAreRead, ReadingUndoesWriting, NumbersAreSums, ScopesComeBack, TablesAreDisjoint};

/// A text is the name of a work-item function exactly where its number has that name.
pub fn numbers_and_names_agree()
    ensures { NumbersAndNamesAgree }
{}

/// A text names an atomic exactly where the grammar of mangled names spells that atomic so.
pub fn atomics_by_grammar()
    ensures { AtomicsByGrammar }
{}

/// A text has a scope and storage bits exactly where it is their word.
pub fn words_are_read()
    ensures { WordsAreRead }
{}

/// A word is written but for scope 0 with both storage bits or without an order bit, and reads as its scope
/// and its storage bits. Of the words that are read, `all_svm_devices` alone is written for no number.
pub fn reading_undoes_writing()
    ensures { ReadingUndoesWriting }
{}

/// A number has an order and storage bits exactly where it is their sum, and none exactly where it has the bits
/// of two orders, or another bit. One that is made of an order and storage bits has these.
pub fn numbers_are_sums()
    ensures { NumbersAreSums }
{}

/// An instruction that is written with the word of its scope and number, or without one where there is none, and
/// with its order, is read with the same scope and number.
pub fn scopes_come_back()
    ensures { ScopesComeBack }
{}

/// No text is the name of two among work-item functions, barriers and fences, and atomics.
pub fn tables_are_disjoint()
    ensures { TablesAreDisjoint }
{}
