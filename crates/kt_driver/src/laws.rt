//! What holds of every input: the contracts of these functions, which do nothing.

ghost use Rattle.std.specs.Prelude.{◌≡◌, ℕ, List, None, Some};
ghost use Rattle.ports.specs.declared.faults.LlFault.{LlFault};
ghost use Rattle.ports.specs.declared.faults.SpvFault.{SpvFault};
ghost use Rattle.spv_codec.specs.Framing.{IsFramingFault};
ghost use Rattle.kt_driver.specs.BinaryListings.{IsBinaryListing};
ghost use Rattle.kt_driver.specs.Listings.{IsListing, IsListingFault};
ghost use Rattle.kt_driver.specs.Runs.{IsUntranslatable, IsUntranslatableBinary};
ghost use Rattle.kt_driver.specs.Refusals.{fault_of};
ghost use Rattle.kt_driver.specs.RuleGroups.{AreRules, break_of};
ghost use Rattle.kt_driver.specs.declared.refusals.Fault.{Fault};
ghost use Rattle.rule_order.specs.Breaks.{RulePlaces, first_in_groups};
ghost use Rattle.kernel_translation.specs.TextTranslations.{IsTextTranslation};
ghost use Rattle.kernel_translation.specs.Translations.{IsTranslation};
ghost use Rattle.kt_driver.specs.declared.refusals.Refusal.{Refusal};
ghost use Rattle.spv_words.specs.declared.words.Order.{Order};

/// An input has one listing at most.
pub fn one_listing()
    ensures { (input first second : List ℕ) → IsListing input first → IsListing input second → first ≡ second }
{}

/// An input that has a listing is not refused for its tokens.
pub fn listing_or_fault()
    ensures { (input lines : List ℕ) (fault : LlFault) → IsListing input lines → IsListingFault input fault → ⊥ }
{}

/// An input has one listing as a binary at most.
pub fn one_binary_listing()
    ensures { (input first second : List ℕ) → IsBinaryListing input first → IsBinaryListing input second → first ≡ second }
{}

/// An input that has a listing as a binary is not refused for its framing.
pub fn binary_listing_or_fault()
    ensures { (input lines : List ℕ) (fault : SpvFault) → IsBinaryListing input lines → IsFramingFault input fault → ⊥ }
{}

/// An input that has a translation is not refused.
pub fn translation_or_refusal()
    ensures { (order : Order) (input bytes : List ℕ) (refusal : Refusal) → IsTranslation order input bytes → IsUntranslatable order input refusal → ⊥ }
{}

/// What is told of a text that isn't translated is the first break of its rules: of the first group that has one, at the least place.
pub fn refusal_is_first()
    ensures { (order : Order) (input : List ℕ) (groups : List (List RulePlaces)) → AreRules order input groups → (refusal : Refusal) (fault : LlFault) →
        IsUntranslatable order input refusal → fault_of refusal ≡ Fault.Text fault → first_in_groups groups ≡ Some (break_of fault) }
{}

/// A text that has a translation breaks no rule.
pub fn translation_breaks_no_rule()
    ensures { (order : Order) (input : List ℕ) (groups : List (List RulePlaces)) → AreRules order input groups → (bytes : List ℕ) →
        IsTranslation order input bytes → first_in_groups groups ≡ None }
{}

/// A binary that has a text is not refused.
pub fn text_or_refusal()
    ensures { (input bytes : List ℕ) (refusal : Refusal) → IsTextTranslation input bytes → IsUntranslatableBinary input refusal → ⊥ }
{}
