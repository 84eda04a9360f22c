ghost use Rattle.std.specs.Prelude.{◌≡◌, ◌↔◌, MatchOption, MatchResult, IfErr};
ghost use Rattle.ll_tokens.specs.Tokens.{lexemes_of};
ghost use Rattle.ll_tree.specs.declared.module.AttributeKind.{AttributeKind};
ghost use Rattle.ll_parser.specs.GrammarAttributes.{attribute_word};
ghost use Rattle.ll_parser.specs.NameReading.{ReadsWith};
ghost use Rattle.ll_parser.specs.Reading.{DerivesNone};
ghost use Rattle.ll_parser.specs.Spaces.{IsNoBracketed, bracketed_number};
ghost use Rattle.ll_types.specs.ValueRefusals.{Unless};
ghost use Rattle.ll_attributes.specs.AttributeParts.{IsBare, behind_word_here, brackets_here, in_brackets};
ghost use Rattle.ll_attributes.specs.AttributeRefusals.{BracketsFail, KindFails};

use ll_parser::{NameTable, ReadError, Refusal, number, take_mark};
use ll_tokens::Token;
use ll_tree::{AttributeKind, LlType};
use ll_types::read_type;
use std::alloc::Global;

/// What an attribute of this word says, with what belongs to it of the tokens behind the word, and the tokens behind that.
/// None exactly where it is no attribute's word.
pub fn kind_behind<'t, 'a>(
    alloc: Global,
    word: &str,
    tokens: &'t [Token<'a>],
    names: &mut NameTable,
) -> Result<Option<(AttributeKind, &'t [Token<'a>])>, ReadError>
    ensures { MatchResult result
        (λ found. MatchOption found
        ((names.new ≡ names.old) × ((kind : AttributeKind) → attribute_word kind ≡ word.now → ⊥))
        (λ r. (attribute_word r.0 ≡ word.now) × ReadsWith behind_word_here names.old names.new r.0 (lexemes_of tokens.now) (lexemes_of r.1.now)))
        (Unless (KindFails word.now (lexemes_of tokens.now))) }
{
    match word {
        "byval" => {
            let (ty, rest) = type_if_there(alloc, tokens, names)?;
            Ok(Some((AttributeKind::ByVal(ty), rest)))
        }
        "sret" => {
            let (ty, rest) = type_if_there(alloc, tokens, names)?;
            Ok(Some((AttributeKind::SRet(ty), rest)))
        }
        "align" => {
            let (bytes, rest) = number(tokens)?;
            Ok(Some((AttributeKind::Align(bytes), rest)))
        }
        "dereferenceable" => {
            let (bytes, rest) = number_in_brackets(tokens)?;
            Ok(Some((AttributeKind::Dereferenceable(bytes), rest)))
        }
        "dereferenceable_or_null" => {
            let (bytes, rest) = number_in_brackets(tokens)?;
            Ok(Some((AttributeKind::DereferenceableOrNull(bytes), rest)))
        }
        _ => match bare_kind(word) {
            Some(kind) => Ok(Some((kind, tokens))),
            None => Ok(None),
        },
    }
}

/// The attribute that this word is alone. None exactly where it is none of these.
fn bare_kind(word: &str) -> Option<AttributeKind>
    ensures { MatchOption result
        ((kind : AttributeKind) → IsBare kind → attribute_word kind ≡ word.now → ⊥)
        (λ kind. IsBare kind × (attribute_word kind ≡ word.now)) }
{
    match word {
        "zeroext" => Some(AttributeKind::ZeroExt),
        "signext" => Some(AttributeKind::SignExt),
        "noalias" => Some(AttributeKind::NoAlias),
        "nocapture" => Some(AttributeKind::NoCapture),
        "readonly" => Some(AttributeKind::ReadOnly),
        "readnone" => Some(AttributeKind::ReadNone),
        "writeonly" => Some(AttributeKind::WriteOnly),
        "noundef" => Some(AttributeKind::NoUndef),
        "nonnull" => Some(AttributeKind::NonNull),
        "inreg" => Some(AttributeKind::InReg),
        "returned" => Some(AttributeKind::Returned),
        "nofree" => Some(AttributeKind::NoFree),
        "immarg" => Some(AttributeKind::ImmArg),
        _ => None,
    }
}

/// The type between `(` and `)` where a `(` begins the tokens, and the tokens behind it.
fn type_if_there<'t, 'a>(
    alloc: Global,
    tokens: &'t [Token<'a>],
    names: &mut NameTable,
) -> Result<(Option<LlType>, &'t [Token<'a>]), ReadError>
    ensures { MatchResult result
        (λ r. ReadsWith brackets_here names.old names.new r.0 (lexemes_of tokens.now) (lexemes_of r.1.now))
        (Unless (BracketsFail (lexemes_of tokens.now))) }
{
    match take_mark(tokens, b'(') {
        Ok(inside) => {
            let (ty, end) = read_type(alloc, inside, names)?;
            let rest = take_mark(end, b')')?;
            Ok((Some(ty), rest))
        }
        Err(_no_bracket) => Ok((None, tokens)),
    }
}

/// The number between `(` and `)` with which the tokens begin, and the tokens behind it. It fails at the first of these
/// three that isn't where it is to stand, by rule 4 at another number, else by rule 3.
fn number_in_brackets<'t, 'a>(tokens: &'t [Token<'a>]) -> Result<(u64, &'t [Token<'a>]), Refusal>
    ensures read { MatchResult result
        (λ r. bracketed_number r.0 (lexemes_of tokens.now) (lexemes_of r.1.now))
        (λ refusal. DerivesNone bracketed_number (lexemes_of tokens.now)) }
    ensures place { IfErr result (IsNoBracketed (lexemes_of tokens.now)) }
{
    let inside = take_mark(tokens, b'(')?;
    let (value, behind) = number(inside)?;
    let rest = take_mark(behind, b')')?;
    Ok((value, rest))
}
