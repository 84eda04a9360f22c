ghost use Rattle.std.specs.Prelude.{◌≡◌, false, IsTrue, MatchResult};
ghost use Rattle.ll_tokens.specs.Tokens.{lexemes_of};
ghost use Rattle.ll_parser.specs.GrammarInsts.{alignment};
ghost use Rattle.ll_parser.specs.Reading.{EndsNowhere};
ghost use Rattle.ll_operands.specs.Parts.{Begins, Refuses};
ghost use Rattle.ll_operands.specs.Whole.{align_comma};
ghost use Rattle.ll_memory_ops.specs.AccessParts.{align_here, align_part, alignment_part};

use ll_parser::{ReadError, number, take_mark, take_word};
use ll_tokens::Token;

/// The alignment behind a comma with which the tokens begin, in bytes, and the tokens behind it. It is None, and the tokens are
/// the same, where no `align` stands behind a comma.
pub fn read_align<'t, 'a>(
    tokens: &'t [Token<'a>],
) -> Result<(Option<u64>, &'t [Token<'a>]), ReadError>
    ensures { MatchResult result
        (λ r. align_here r.0 (lexemes_of tokens.now) (lexemes_of r.1.now))
        (Refuses align_part (lexemes_of tokens.now)) }
{
    if begins_with_align(tokens) {
        let (bytes, rest) = read_alignment(tokens)?;
        return Ok((Some(bytes), rest));
    }
    Ok((None, tokens))
}

/// Whether the tokens begin with a comma before `align`.
fn begins_with_align(tokens: &[Token<'_>]) -> bool
    ensures there { IsTrue result → Begins align_comma (lexemes_of tokens.now) }
    ensures absent { result ≡ false → EndsNowhere align_comma (lexemes_of tokens.now) }
{
    match take_mark(tokens, b',') {
        Ok(behind) => match take_word(behind, "align") {
            Ok(_inside) => true,
            Err(_no_align) => false,
        },
        Err(_no_comma) => false,
    }
}

/// The alignment behind a comma with which the tokens begin, in bytes, and the tokens behind it. It fails at the first token that
/// can't stand where it does: by rule 4 where that is a number out of its range, else by rule 3.
pub fn read_alignment<'t, 'a>(tokens: &'t [Token<'a>]) -> Result<(u64, &'t [Token<'a>]), ReadError>
    ensures { MatchResult result
        (λ r. alignment r.0 (lexemes_of tokens.now) (lexemes_of r.1.now))
        (Refuses alignment_part (lexemes_of tokens.now)) }
{
    let behind = take_mark(tokens, b',')?;
    let inside = take_word(behind, "align")?;
    let (bytes, rest) = number(inside)?;
    Ok((bytes, rest))
}
