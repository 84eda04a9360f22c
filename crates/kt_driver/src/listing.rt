ghost use Rattle.std.specs.Prelude.{◌≡◌, ◌++◌, IfOk, IfErr, OnOk, string_bytes};
ghost use Rattle.ll_tokens.specs.Tokens.{lexeme_of, lexemes_of};
ghost use Rattle.kt_driver.specs.Listings.{IsListing, IsListingError, token_line, token_lines};

use ll_tokens::{Token, tokens, utf8};
use ports::LlError;
use std::alloc::{AllocError, Global};

/// The lines that list the tokens of a text: of each the byte where it begins, and its text as it stands.
///
/// It fails by rule 1 where the bytes are no UTF-8, and by rule 2 where something stands that begins no token.
pub fn listing(alloc: Global, input: &[u8]) -> Result<String, LlError>
    ensures lines { IfOk result (λ lines. IsListing input.now (string_bytes lines)) }
    ensures fault { IfErr result (IsListingError input.now) }
{
    let text = utf8(input)?;
    let tokens = tokens(alloc, text)?;
    Ok(token_lines(alloc, &tokens)?)
}

/// A line for each token.
fn token_lines(alloc: Global, tokens: &[Token<'_>]) -> Result<String, AllocError>
    ensures { IfOk result (λ lines. string_bytes lines ≡ token_lines (lexemes_of tokens.now)) }
{
    let mut lines = String::new(alloc);
    for token in tokens {
        push_line(alloc, &mut lines, *token)?;
    }
    Ok(lines)
}

/// Appends the line of a token.
fn push_line(alloc: Global, lines: &mut String, token: Token<'_>) -> Result<(), AllocError>
    ensures { OnOk result (string_bytes lines.new ≡ string_bytes lines.old ++ token_line (lexeme_of token.entry)) }
{
    let Token { text, byte, .. } = token;
    let line = format!(in alloc; "{byte}: {text}\n")?;
    lines.push_str(&line)
}
