ghost use Rattle.spv_words.specs.Laws.{OneString, OneWordList, PiecesJoin, StringReadsBack};

/// A feed gives the same words, however its bytes are cut into pieces.
pub fn pieces_join()
    ensures { PiecesJoin }
{}

/// Bytes are those of one list of words at most, in either order.
pub fn one_word_list()
    ensures { OneWordList }
{}

/// Words begin one string at most.
pub fn one_string()
    ensures { OneString }
{}

/// What `string_words` gives for a text without a zero byte, `words_string` reads back.
pub fn string_reads_back()
    ensures { StringReadsBack }
{}
