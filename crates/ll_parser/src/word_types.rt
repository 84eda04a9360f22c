ghost use Rattle.std.specs.Prelude.{◌≡◌, length, MatchOption, MatchResult, IfErr};
ghost use Rattle.ll_tokens.specs.Tokens.{lexemes_of};
ghost use Rattle.ll_tree.specs.declared.ty.TypeBase.{TypeBase};
ghost use Rattle.ll_parser.specs.WordTypes.{IsWordFor, NoWordType, word_type};

use crate::cursor::{split_first, unexpected};
use crate::numbers::integer_bits;
use crate::refusal::Refusal;
use ll_tokens::{Token, TokenKind};
use ll_tree::TypeBase;

/// The type of one word with which the tokens begin, as `void`, `i32` or `float`, and the tokens behind it
/// (LLVM 14, Type System). It fails by rule 3 at the first token.
pub fn word_type<'t, 'a>(tokens: &'t [Token<'a>]) -> Result<(TypeBase, &'t [Token<'a>]), Refusal>
    ensures read { MatchResult result
        (λ r. word_type r.0 (lexemes_of tokens.now) (lexemes_of r.1.now))
        (λ refusal. NoWordType (lexemes_of tokens.now)) }
    ensures place { IfErr result (λ refusal. refusal ≡ record { rule = 3; left = length tokens.now }) }
{
    match split_first(tokens) {
        Some((first, rest)) if first.kind == TokenKind::Word => match type_of_word(first.text) {
            Some(base) => Ok((base, rest)),
            None => Err(unexpected(tokens)),
        },
        _ => Err(unexpected(tokens)),
    }
}

/// The type that a word names. None exactly where it names none.
fn type_of_word(word: &str) -> Option<TypeBase>
    ensures { MatchOption result
        ((base : TypeBase) → IsWordFor base word.now → ⊥)
        (λ base. IsWordFor base word.now) }
{
    match word {
        "void" => Some(TypeBase::Void),
        "half" => Some(TypeBase::Half),
        "float" => Some(TypeBase::Float),
        "double" => Some(TypeBase::Double),
        _ => match integer_bits(word.as_bytes()) {
            Some(bits) => Some(TypeBase::Int(bits)),
            None => None,
        },
    }
}
