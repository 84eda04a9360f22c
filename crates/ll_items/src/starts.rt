ghost use Rattle.std.specs.Prelude.{◌≡◌};
ghost use Rattle.ll_tokens.specs.Tokens.{lexeme_of, lexemes_of};
ghost use Rattle.ll_items.specs.Starts.{start_of, token_start, word_start};

use ll_parser::split_first;
use ll_tokens::{Token, TokenKind};

/// Which item begins, by its first token.
#[derive(Clone, Copy, Debug, PartialEq, Eq)]
pub enum Start {
    Target,
    Source,
    Group,
    Struct,
    Variable,
    Node,
    Named,
}

/// The item that the first token begins. None where it begins none but a function.
pub fn start_of(tokens: &[Token<'_>]) -> Option<Start>
    ensures { result ≡ start_of (lexemes_of tokens.now) }
{
    match split_first(tokens) {
        Some((first, _behind)) => token_start(&first),
        None => None,
    }
}

/// The item that a token begins.
fn token_start(first: &Token<'_>) -> Option<Start>
    ensures { result ≡ token_start (lexeme_of first.now).kind (lexeme_of first.now).text }
{
    match first.kind {
        TokenKind::Word => word_start(first.text),
        TokenKind::Local => Some(Start::Struct),
        TokenKind::Global => Some(Start::Variable),
        TokenKind::Mdn => Some(Start::Node),
        TokenKind::MdName => Some(Start::Named),
        _ => None,
    }
}

/// The item that a word begins.
fn word_start(word: &str) -> Option<Start>
    ensures { result ≡ word_start word.now }
{
    match word {
        "target" => Some(Start::Target),
        "source_filename" => Some(Start::Source),
        "attributes" => Some(Start::Group),
        _ => None,
    }
}
