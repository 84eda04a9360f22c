ghost use Rattle.std.specs.Prelude.{◌≡◌, ◌↔◌, false, true, IsTrue};
ghost use Rattle.ll_tokens.specs.Tokens.{lexemes_of};
ghost use Rattle.ll_parser.specs.Reading.{EndsNowhere};
ghost use Rattle.ll_operands.specs.Parts.{Begins};
ghost use Rattle.ll_bodies.specs.BodyWords.{is_word_of, terminator_word, terminator_words, unnamed_word, unnamed_words};

use ll_parser::split_first;
use ll_tokens::{Token, TokenKind};

const TERMINATOR_WORDS: [&str; 4] = ["ret", "br", "switch", "unreachable"];

const UNNAMED_WORDS: [&str; 6] = ["store", "fence", "ret", "br", "switch", "unreachable"];

/// Whether the tokens begin with the word of an instruction that ends its block (LLVM 14, Terminator Instructions).
pub fn begins_terminator(tokens: &[Token<'_>]) -> bool
    ensures there { IsTrue result → Begins terminator_word (lexemes_of tokens.now) }
    ensures absent { result ≡ false → EndsNowhere terminator_word (lexemes_of tokens.now) }
{
    match split_first(tokens) {
        Some((first, _behind)) => first.kind == TokenKind::Word && is_terminator_word(first.text),
        None => false,
    }
}

/// Whether the tokens begin with the word of an instruction that is never given a name.
pub fn begins_unnamed(tokens: &[Token<'_>]) -> bool
    ensures there { IsTrue result → Begins unnamed_word (lexemes_of tokens.now) }
    ensures absent { result ≡ false → EndsNowhere unnamed_word (lexemes_of tokens.now) }
{
    match split_first(tokens) {
        Some((first, _behind)) => first.kind == TokenKind::Word && is_unnamed_word(first.text),
        None => false,
    }
}

fn is_terminator_word(word: &str) -> bool
    ensures { result ≡ is_word_of terminator_words word.now }
{
    TERMINATOR_WORDS.contains(&word)
}

fn is_unnamed_word(word: &str) -> bool
    ensures { result ≡ is_word_of unnamed_words word.now }
{
    UNNAMED_WORDS.contains(&word)
}
