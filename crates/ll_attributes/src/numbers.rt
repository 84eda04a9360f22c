ghost use Rattle.std.specs.Prelude.{◌≡◌, ◌<◌, ◌^◌, drop, length, MatchOption};
ghost use Rattle.ll_parser.specs.Spellings.{decimal_value};

use ll_parser::{OUT_OF_RANGE, Refusal, capped_decimal};
use ll_tokens::Token;

/// One more than the greatest number of a node or a group.
const END_OF_NUMBERS: u64 = 1 << 31;

/// The number that the digits behind a sign spell. None exactly where it is 2^31 or more.
pub fn number_behind_sign(text: &[u8]) -> Option<u32>
    ensures { MatchOption result
        (decimal_value (drop 1 text.now) < 2 ^ 31 → ⊥)
        (λ number. (decimal_value (drop 1 text.now) ≡ number) × (number < 2 ^ 31)) }
{
    let number = capped_decimal(behind_sign(text));
    if number < END_OF_NUMBERS {
        Some(number as u32)
    } else {
        None
    }
}

/// A text without its first byte.
pub fn behind_sign(text: &[u8]) -> &[u8]
    ensures { result.now ≡ drop 1 text.now }
{
    match text {
        [_, behind @ ..] => behind,
        [] => &[],
    }
}

/// The refusal of the first of these tokens, whose number is too great.
pub fn out_of_range(tokens: &[Token<'_>]) -> Refusal
    ensures { result ≡ record { rule = 4; left = length tokens.now } }
{
    Refusal {
        rule: OUT_OF_RANGE,
        left: tokens.len(),
    }
}
