ghost use Rattle.ll_phrases.specs.Laws.{TextsAreReadAsTheirPhrases};

/// The text of a phrase that is laid out rightly is read as the tokens of the phrase.
pub fn texts_are_read_as_their_phrases()
    ensures { TextsAreReadAsTheirPhrases }
{}
