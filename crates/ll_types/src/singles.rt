ghost use Rattle.std.specs.Prelude.{◌≡◌, ℕ, ◌-◌, List, [], drop, take, length, MatchOption, MatchResult, IfErr, IfOk};
ghost use Rattle.ll_tokens.specs.declared.kinds.TokenKind.TheVariants.{Word, CStr};
ghost use Rattle.ll_tokens.specs.Tokens.{Lexeme, lexemes_of};
ghost use Rattle.ll_tree.specs.declared.value.Value.{Value};
ghost use Rattle.ll_parser.specs.declared.refusal.ReadError.TheVariants.{NoMemory};
ghost use Rattle.ll_parser.specs.NameReading.{ReadsWith, any_of};
ghost use Rattle.ll_parser.specs.Productions.{token};
ghost use Rattle.ll_parser.specs.Reading.{EndsNowhere};
ghost use Rattle.ll_parser.specs.Spellings.{between_quotes};
ghost use Rattle.ll_types.specs.SingleValues.{IsWordValue, SingleRefused, bytes_token, single, single_rule};

use crate::numerals::typed_number;
use ll_parser::{NameTable, ReadError, Refusal, global, local, split_first, unescaped, unexpected};
use ll_tokens::{Token, TokenKind};
use ll_tree::{LlType, Value};
use sqlite_items::Items;
use std::alloc::{AllocError, Global};

/// The value of one token with which the tokens begin, behind its type, and the tokens behind it (LLVM 14, Simple
/// Constants). Names are numbered by the table. It fails for want of memory, and at the first token: by rule 4 where that is
/// a number out of its type's range or a name of digits whose number is 2^31 or more, else by rule 3.
pub fn single_value<'t, 'a>(
    alloc: Global,
    tokens: &'t [Token<'a>],
    ty: &LlType,
    names: &mut NameTable,
) -> Result<(Value, &'t [Token<'a>]), ReadError>
    ensures { MatchResult result
        (λ r. ReadsWith (single ty.now) names.old names.new r.0 (lexemes_of tokens.now) (lexemes_of r.1.now))
        (SingleRefused ty.now (lexemes_of tokens.now)) }
{
    match first_kind(tokens) {
        Some(TokenKind::Local) => {
            let (name, rest) = local(alloc, tokens, names)?;
            Ok((Value::Local(name), rest))
        }
        Some(TokenKind::Global) => {
            let (name, rest) = global(alloc, tokens, names)?;
            Ok((Value::Global(name), rest))
        }
        Some(TokenKind::Int) => {
            let (number, rest) = typed_number(tokens, ty)?;
            Ok((Value::Int(number), rest))
        }
        Some(TokenKind::CStr) => {
            let (bytes, rest) = bytes_value(alloc, tokens)?;
            Ok((Value::Bytes(bytes), rest))
        }
        Some(TokenKind::Word) => {
            let (value, rest) = word_value(tokens)?;
            Ok((value, rest))
        }
        _ => Err(ReadError::Refused(unexpected(tokens))),
    }
}

/// The kind of the first token.
fn first_kind(tokens: &[Token<'_>]) -> Option<TokenKind>
    ensures { MatchOption result (lexemes_of tokens.now ≡ [])
        (λ kind. (rest : List Lexeme) × any_of kind (lexemes_of tokens.now) rest) }
{
    match split_first(tokens) {
        Some((first, _rest)) => Some(first.kind),
        None => None,
    }
}

/// What `c` and a text between quotes stand for, with which the tokens begin, and the tokens behind it.
fn bytes_value<'t, 'a>(
    alloc: Global,
    tokens: &'t [Token<'a>],
) -> Result<(Items<u8>, &'t [Token<'a>]), ReadError>
    requires { (rest : List Lexeme) × any_of CStr (lexemes_of tokens.now) rest }
    ensures read { IfOk result (λ r. bytes_token r.0 (lexemes_of tokens.now) (lexemes_of r.1.now)) }
    ensures memory { IfErr result (λ error. error ≡ NoMemory) }
{
    match split_first(tokens) {
        Some((first, rest)) => Ok((quoted(alloc, first.text.as_bytes())?, rest)),
        None => Err(ReadError::NoMemory),
    }
}

/// What a text between quotes stands for, with a `c` before it.
fn quoted(alloc: Global, text: &[u8]) -> Result<Items<u8>, AllocError>
    ensures { IfOk result (λ bytes. between_quotes (drop 1 text.now) ≡ bytes) }
{
    unescaped(alloc, between_ends(behind_first(text)))
}

fn behind_first(text: &[u8]) -> &[u8]
    ensures { result.now ≡ drop 1 text.now }
{
    match text {
        [_, behind @ ..] => behind,
        [] => &[],
    }
}

/// A text without its first and its last byte.
fn between_ends(text: &[u8]) -> &[u8]
    ensures { result.now ≡ drop 1 (take (length text.now - 1) text.now) }
{
    match text {
        [_, inside @ .., _] => inside,
        _ => &[],
    }
}

/// The value of one word with which the tokens begin, and the tokens behind it. It fails by rule 3 at the first token.
fn word_value<'t, 'a>(tokens: &'t [Token<'a>]) -> Result<(Value, &'t [Token<'a>]), Refusal>
    ensures read { MatchResult result
        (λ r. token Word (λ lexeme. IsWordValue r.0 lexeme.text) (lexemes_of tokens.now) (lexemes_of r.1.now))
        (λ refusal. (value : Value) → EndsNowhere (token Word (λ lexeme. IsWordValue value lexeme.text)) (lexemes_of tokens.now)) }
    ensures place { IfErr result (λ refusal. refusal ≡ record { rule = 3; left = length tokens.now }) }
{
    match split_first(tokens) {
        Some((first, rest)) if first.kind == TokenKind::Word => match value_of_word(first.text) {
            Some(value) => Ok((value, rest)),
            None => Err(unexpected(tokens)),
        },
        _ => Err(unexpected(tokens)),
    }
}

/// The value that a word spells. None exactly where it spells none.
fn value_of_word(word: &str) -> Option<Value>
    ensures { MatchOption result
        ((value : Value) → IsWordValue value word.now → ⊥)
        (λ value. IsWordValue value word.now) }
{
    match word {
        "true" => Some(Value::Bool(true)),
        "false" => Some(Value::Bool(false)),
        "null" => Some(Value::Null),
        "zeroinitializer" => Some(Value::Zero),
        "undef" => Some(Value::Undef),
        "poison" => Some(Value::Poison),
        _ => None,
    }
}
