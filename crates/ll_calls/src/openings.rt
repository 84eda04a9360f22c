ghost use Rattle.std.specs.Prelude.{◌≡◌, MatchOption};
ghost use Rattle.ll_tokens.specs.Tokens.{lexemes_of};
ghost use Rattle.ll_parser.specs.Productions.{word};
ghost use Rattle.ll_parser.specs.Reading.{EndsNowhere};
ghost use Rattle.ll_calls.specs.declared.openings.CallOpening.{CallOpening};
ghost use Rattle.ll_calls.specs.CallOpenings.{call_word, opening_word};

use ll_parser::split_first;
use ll_tokens::{Token, TokenKind};

/// The words with which calls begin (LLVM 14, `call`). Behind each but the last stands `call`.
#[derive(Clone, Copy, Debug, PartialEq, Eq)]
pub enum CallOpening {
    Tail,
    NoTail,
    Call,
}

/// The first word of a call with which the tokens begin, and the tokens behind it. None exactly where they begin with no such
/// word.
pub fn take_opening<'t, 'a>(tokens: &'t [Token<'a>]) -> Option<(CallOpening, &'t [Token<'a>])>
    ensures { MatchOption result (EndsNowhere call_word (lexemes_of tokens.now))
        (λ r. word (opening_word r.0) (lexemes_of tokens.now) (lexemes_of r.1.now)) }
{
    match split_first(tokens) {
        Some((first, rest)) if first.kind == TokenKind::Word => match opening_of_word(first.text) {
            Some(opening) => Some((opening, rest)),
            None => None,
        },
        _ => None,
    }
}

/// The beginning of calls that a word is. None exactly where none begins with it.
fn opening_of_word(word: &str) -> Option<CallOpening>
    ensures { MatchOption result
        ((opening : CallOpening) → word.now ≡ opening_word opening → ⊥)
        (λ opening. word.now ≡ opening_word opening) }
{
    match word {
        "tail" => Some(CallOpening::Tail),
        "notail" => Some(CallOpening::NoTail),
        "call" => Some(CallOpening::Call),
        _ => None,
    }
}
