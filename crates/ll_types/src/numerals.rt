ghost use Rattle.std.specs.Prelude.{◌≡◌, ℕ, ◌+◌, ◌*◌, ◌-◌, ◌<◌, ◌≤◌, ◌^◌, ℤ, pos, neg_ℤ, min, length, MatchOption, MatchResult, IfErr};
ghost use Rattle.ll_tokens.specs.Tokens.{lexemes_of};
ghost use Rattle.ll_tree.specs.Types.{int_width};
ghost use Rattle.ll_parser.specs.GrammarValues.{IsInRange, bits_of_numbers, integer};
ghost use Rattle.ll_parser.specs.Reading.{DerivesNone, number_rule};
ghost use Rattle.ll_parser.specs.Spellings.{decimal_value, integer_value};
ghost use Rattle.ll_types.specs.Numerals.{greatest_of, least_of};

use ll_parser::{OUT_OF_RANGE, Refusal, split_first, unexpected};
use ll_tokens::{Token, TokenKind};
use ll_tree::LlType;

/// The number of this type with which the tokens begin, and the tokens behind it (LLVM 14, Simple Constants). One of an
/// integer type of 1 to 64 bits may be a signed or an unsigned number of so many bits, one of another type lies from -2^63
/// to 2^64 - 1. It fails at the first token: by rule 4 where it is another number, else by rule 3.
pub fn typed_number<'t, 'a>(
    tokens: &'t [Token<'a>],
    ty: &LlType,
) -> Result<(i128, &'t [Token<'a>]), Refusal>
    ensures read { MatchResult result
        (λ r. integer ty.now r.0 (lexemes_of tokens.now) (lexemes_of r.1.now))
        (λ refusal. DerivesNone (integer ty.now) (lexemes_of tokens.now)) }
    ensures place { IfErr result (λ refusal.
        refusal ≡ record { rule = number_rule (lexemes_of tokens.now); left = length tokens.now }) }
{
    match split_first(tokens) {
        Some((first, rest)) if first.kind == TokenKind::Int => {
            match number_in_range(first.text.as_bytes(), ty.int_width()) {
                Some(number) => Ok((number, rest)),
                None => Err(Refusal {
                    rule: OUT_OF_RANGE,
                    left: tokens.len(),
                }),
            }
        }
        _ => Err(unexpected(tokens)),
    }
}

/// The number that a text spells, digits or a `-` and digits, as a value of an integer type of this width or of another
/// type. None exactly where it is out of its range.
fn number_in_range(text: &[u8], width: Option<u64>) -> Option<i128>
    ensures { MatchOption result
        (IsInRange (bits_of_numbers width) (integer_value text.now) → ⊥)
        (λ number. (integer_value text.now ≡ number) × IsInRange (bits_of_numbers width) number) }
{
    match text {
        [] => positive(0, greatest(width)),
        [b'-', digits @ ..] => negative(wide_decimal(digits), least(width)),
        digits => positive(wide_decimal(digits), greatest(width)),
    }
}

/// How far below 0 the numbers of a type go.
fn least(width: Option<u64>) -> u128
    ensures value { result ≡ least_of (bits_of_numbers width) }
    ensures bound { result ≤ 2 ^ 63 }
{
    match width {
        Some(bits) if bits > 0 && bits < 65 => 1 << (bits - 1),
        _ => 1 << 63,
    }
}

/// How far above 0 the numbers of a type go.
fn greatest(width: Option<u64>) -> u128
    ensures value { result ≡ greatest_of (bits_of_numbers width) }
    ensures bound { result < 2 ^ 64 }
{
    match width {
        Some(bits) if bits > 0 && bits < 65 => (1 << bits) - 1,
        _ => (1 << 64) - 1,
    }
}

fn negative(value: u128, least: u128) -> Option<i128>
    requires { least ≤ 2 ^ 63 }
    ensures { MatchOption result (least < value) (λ number. (number ≡ neg_ℤ (pos value)) × (value ≤ least)) }
{
    if value <= least {
        Some(-(value as i128))
    } else {
        None
    }
}

fn positive(value: u128, greatest: u128) -> Option<i128>
    requires { greatest < 2 ^ 64 }
    ensures { MatchOption result (greatest < value) (λ number. (number ≡ pos value) × (value ≤ greatest)) }
{
    if value <= greatest {
        Some(value as i128)
    } else {
        None
    }
}

/// The number that decimal digits spell, the highest first, or 2^128 - 1 where it is greater.
fn wide_decimal(digits: &[u8]) -> u128
    ensures { result ≡ min (decimal_value digits.now) (2 ^ 128 - 1) }
{
    let mut sum: u128 = 0;
    for digit in digits {
        sum = with_digit(sum, *digit);
    }
    sum
}

/// The number with one digit more behind it, or 2^128 - 1 where it is greater.
fn with_digit(sum: u128, digit: u8) -> u128
    ensures { result ≡ min (10 * sum + (digit - 48)) (2 ^ 128 - 1) }
{
    sum.saturating_mul(10)
        .saturating_add(u128::from(digit.saturating_sub(b'0')))
}
