ghost use Rattle.std.specs.Prelude.{◌≡◌, ◌<◌, [], ◌∷◌, map, length, ◌↔◌, IsTrue, IfSome, MatchOption};
ghost use Rattle.ll_tokens.specs.Tokens.{lexeme_of, lexemes_of};
ghost use Rattle.ll_parser.specs.Reading.{EndsNowhere};
ghost use Rattle.kernel_text.specs.Phrases.{wanted_of, wanted_token, exactly};

use ll_parser::{is_of_kind, split_first};
use ll_tokens::{Token, TokenKind};

/// A token as it is written: its kind and its text.
pub type Piece = (TokenKind, &'static str);

/// What is left behind these pieces, with which the tokens begin. None exactly where they don't.
pub fn behind_pieces<'t, 'a>(tokens: &'t [Token<'a>], pieces: &[Piece]) -> Option<&'t [Token<'a>]>
    ensures { MatchOption result
        (EndsNowhere (exactly (map wanted_of pieces.now)) (lexemes_of tokens.now))
        (λ rest. exactly (map wanted_of pieces.now) (lexemes_of tokens.now) (lexemes_of rest.now)) }
{
    match split_piece(pieces) {
        Some((piece, more)) => match behind_piece(tokens, &piece) {
            Some(behind) => behind_pieces(behind, more),
            None => None,
        },
        None => Some(tokens),
    }
}

/// The first piece and those behind it. None exactly where there is none.
fn split_piece(pieces: &[Piece]) -> Option<(Piece, &[Piece])>
    ensures parts { MatchOption result (map wanted_of pieces.now ≡ [])
        (λ r. map wanted_of pieces.now ≡ wanted_of r.0 ∷ map wanted_of r.1.now) }
    ensures shorter { IfSome result (λ r. length r.1.now < length pieces.now) }
{
    match pieces {
        [] => None,
        [first, more @ ..] => Some((*first, more)),
    }
}

/// What is left behind this piece, with which the tokens begin. None exactly where they don't.
fn behind_piece<'t, 'a>(tokens: &'t [Token<'a>], piece: &Piece) -> Option<&'t [Token<'a>]>
    ensures { MatchOption result
        (EndsNowhere (wanted_token (wanted_of piece.now)) (lexemes_of tokens.now))
        (λ rest. wanted_token (wanted_of piece.now) (lexemes_of tokens.now) (lexemes_of rest.now)) }
{
    match split_first(tokens) {
        Some((first, rest)) if is_piece(&first, piece) => Some(rest),
        _ => None,
    }
}

/// Whether the token is this piece.
fn is_piece(token: &Token<'_>, piece: &Piece) -> bool
    ensures { IsTrue result ↔ ((lexeme_of token.now).kind ≡ (wanted_of piece.now).0) × ((lexeme_of token.now).text ≡ (wanted_of piece.now).1) }
{
    is_of_kind(token, piece.0) && token.text == piece.1
}
