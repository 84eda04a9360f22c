//! What holds of every input: the contracts of these functions, which do nothing.

ghost use Rattle.std.specs.Prelude.{◌≡◌, ℕ, List};
ghost use Rattle.spv_words.specs.declared.words.Order.{Order};
ghost use Rattle.kernel_translation.specs.Translations.{IsTranslation, IsUndefinedIn};
ghost use Rattle.kernel_translation.specs.TextTranslations.{IsTextTranslation, IsTextTranslationAndBack, IsTranslationAndBack};

/// An input has one translation in an order at most.
pub fn one_translation()
    ensures { (order : Order) (input first second : List ℕ) → IsTranslation order input first → IsTranslation order input second → first ≡ second }
{}

/// One name at most is the first that an input uses and defines nowhere.
pub fn one_undefined_name()
    ensures { (input : List ℕ) (first second : ℕ) → IsUndefinedIn input first → IsUndefinedIn input second → first ≡ second }
{}

/// The text of a binary is one at most.
pub fn one_text()
    ensures { (input first second : List ℕ) → IsTextTranslation input first → IsTextTranslation input second → first ≡ second }
{}

/// A text that is translated to a binary is translated back to the text of its canonical form.
pub fn translations_lead_back()
    ensures { (order : Order) (input bytes : List ℕ) → IsTranslation order input bytes → IsTranslationAndBack order input bytes }
{}

/// A binary that is translated to a text is translated back to its own bytes, in either byte order.
pub fn texts_lead_back()
    ensures { (input bytes : List ℕ) → IsTextTranslation input bytes → IsTextTranslationAndBack input bytes }
{}
