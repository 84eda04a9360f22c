ghost use Rattle.std.specs.Prelude.{◌≡◌, ℕ, ◌+◌, ◌*◌, ◌-◌, ◌<◌, ◌^◌, ◌∷◌, [], ◌==◌, ◌↔◌, pos, min, length, List, IsTrue, MatchOption, MatchResult, IfErr};
ghost use Rattle.std.specs.List.{list_all};
ghost use Rattle.std.specs.Char.{is_ascii_digit};
ghost use Rattle.ll_tokens.specs.Tokens.{lexeme_of, lexemes_of};
ghost use Rattle.ll_parser.specs.GrammarTypes.{integer_type, number};
ghost use Rattle.ll_parser.specs.Reading.{DerivesNone, IsBits, number_rule};
ghost use Rattle.ll_parser.specs.Spellings.{decimal_value, integer_value};

use crate::cursor::{split_first, unexpected};
use crate::refusal::{OUT_OF_RANGE, Refusal};
use ll_tokens::{Token, TokenKind};

/// One more than the greatest number.
const END_OF_NUMBERS: u64 = 1 << 63;

/// The number that decimal digits spell, the highest first, or 2^64 - 1 where it is greater.
pub fn capped_decimal(digits: &[u8]) -> u64
    ensures { result ≡ min (decimal_value digits.now) (2 ^ 64 - 1) }
{
    let mut sum: u64 = 0;
    for digit in digits {
        sum = with_digit(sum, *digit);
    }
    sum
}

/// The number with one digit more behind it, or 2^64 - 1 where it is greater.
fn with_digit(sum: u64, digit: u8) -> u64
    ensures { result ≡ min (10 * sum + (digit - 48)) (2 ^ 64 - 1) }
{
    sum.saturating_mul(10)
        .saturating_add(u64::from(digit.saturating_sub(b'0')))
}

/// The number from 0 to 2^63 - 1 that a text spells, digits or a `-` and digits (LLVM 14, Simple Constants).
/// None exactly where it spells none of these.
fn whole_number(text: &[u8]) -> Option<u64>
    ensures { MatchOption result
        ((value : ℕ) → integer_value text.now ≡ pos value → value < 2 ^ 63 → ⊥)
        (λ value. (integer_value text.now ≡ pos value) × (value < 2 ^ 63)) }
{
    match text {
        [] => Some(0),
        [b'-', digits @ ..] => Some(0).filter(|zero| capped_decimal(digits) == *zero),
        digits => Some(capped_decimal(digits)).filter(|value| *value < END_OF_NUMBERS),
    }
}

/// The number from 0 to 2^63 - 1 with which the tokens begin, and the tokens behind it (LLVM 14, Simple
/// Constants). It fails at the first token: by rule 4 where it is another number, else by rule 3.
pub fn number<'t, 'a>(tokens: &'t [Token<'a>]) -> Result<(u64, &'t [Token<'a>]), Refusal>
    ensures read { MatchResult result
        (λ r. number r.0 (lexemes_of tokens.now) (lexemes_of r.1.now))
        (λ refusal. DerivesNone number (lexemes_of tokens.now)) }
    ensures place { IfErr result (λ refusal.
        refusal ≡ record { rule = number_rule (lexemes_of tokens.now); left = length tokens.now }) }
{
    match split_first(tokens) {
        Some((first, rest)) if first.kind == TokenKind::Int => {
            match whole_number(first.text.as_bytes()) {
                Some(value) => Ok((value, rest)),
                None => Err(Refusal {
                    rule: OUT_OF_RANGE,
                    left: tokens.len(),
                }),
            }
        }
        _ => Err(unexpected(tokens)),
    }
}

/// The bits of the integer type that a word names, `i` and digits, or 2^64 - 1 where there are more (LLVM 14,
/// Integer Type). None exactly where it names none.
pub fn integer_bits(word: &[u8]) -> Option<u64>
    ensures { MatchOption result
        ((bits : ℕ) → IsBits word.now bits → ⊥)
        (λ bits. IsBits word.now bits) }
{
    match word {
        [b'i', digits @ ..] if !digits.is_empty() && are_digits(digits) => Some(capped_decimal(
            digits,
        )),
        _ => None,
    }
}

/// Whether each of these bytes is a digit.
pub fn are_digits(bytes: &[u8]) -> bool
    ensures { result ≡ list_all is_ascii_digit bytes.now }
{
    bytes.iter().all(|byte| byte.is_ascii_digit())
}

/// The bits of the integer type with which the tokens begin, 2^64 - 1 where there are more, and the tokens
/// behind it (LLVM 14, Integer Type). It fails by rule 3 at the first token.
pub fn integer_type<'t, 'a>(tokens: &'t [Token<'a>]) -> Result<(u64, &'t [Token<'a>]), Refusal>
    ensures read { MatchResult result
        (λ r. integer_type r.0 (lexemes_of tokens.now) (lexemes_of r.1.now))
        (λ refusal. DerivesNone integer_type (lexemes_of tokens.now)) }
    ensures place { IfErr result (λ refusal. refusal ≡ record { rule = 3; left = length tokens.now }) }
{
    match split_first(tokens) {
        Some((first, rest)) if first.kind == TokenKind::Word => {
            match integer_bits(first.text.as_bytes()) {
                Some(bits) => Ok((bits, rest)),
                None => Err(unexpected(tokens)),
            }
        }
        _ => Err(unexpected(tokens)),
    }
}
