ghost use Rattle.std.specs.Prelude.{◌≡◌, IfOk, MatchOption, length, drop, take, ◌-◌};
ghost use Rattle.ll_tree.specs.declared.name.Spelling.TheVariants.{Number};
ghost use Rattle.ll_parser.specs.Spellings.{IsInReach, decimal_value, spelling_of};

use crate::escapes::unescaped;
use crate::numbers::{are_digits, capped_decimal};
use ll_tree::Spelling;
use sqlite_items::Items;
use std::alloc::{AllocError, Global};

/// One more than the greatest number that a name can be.
const END_OF_NAMES: u64 = 1 << 31;

/// The spelling of a name, from the text behind its `%` or `@`: digits, a name without quotes, or one in quotes
/// (LLVM 14, Identifiers). None exactly where it is digits whose number is 2^31 or more.
pub fn spelling(alloc: Global, text: &[u8]) -> Result<Option<Spelling>, AllocError>
    ensures { IfOk result (λ found. MatchOption found
        (IsInReach (spelling_of text.now) → ⊥)
        (λ s. (s ≡ spelling_of text.now) × IsInReach (spelling_of text.now))) }
{
    match text {
        [b'"', ..] => Ok(Some(Spelling::Text(unescaped(alloc, between_ends(text))?))),
        [_, ..] if are_digits(text) => Ok(numbered(text)),
        _ => Ok(Some(Spelling::Text(Items::from_slice(alloc, text)?))),
    }
}

/// The digits of a name as its number, where that is below 2^31.
fn numbered(digits: &[u8]) -> Option<Spelling>
    ensures { MatchOption result
        (IsInReach (Number (decimal_value digits.now)) → ⊥)
        (λ s. (s ≡ Number (decimal_value digits.now)) × IsInReach (Number (decimal_value digits.now))) }
{
    let number = capped_decimal(digits);
    if number < END_OF_NAMES {
        Some(Spelling::Number(number as u32))
    } else {
        None
    }
}

/// A text without its first and its last byte.
fn between_ends(text: &[u8]) -> &[u8]
    ensures { result.now ≡ drop 1 (take (length text.now - 1) text.now) }
{
    match text {
        [_, inside @ .., _] => inside,
        _ => &[],
    }
}
