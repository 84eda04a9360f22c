//! What holds of every text: the contracts of these functions, which do nothing.

ghost use Rattle.std.specs.Prelude.{◌≡◌, ℕ, ◌+◌, List, ◌∷◌, ◌++◌, length, IsTrue};
ghost use Rattle.ll_tokens.specs.declared.kinds.TokenKind.{TokenKind};
ghost use Rattle.ll_tokens.specs.Breaks.{begins_with_break};
ghost use Rattle.ll_tokens.specs.Forms.{in_class};
ghost use Rattle.ll_tokens.specs.Gap.{IsLeftOf};
ghost use Rattle.ll_tokens.specs.Tokens.{behind_gap, has_kind, Lexeme, IsLongestFront, Reads, IsTokens, IsStuckAt, IsTokenFault};

use crate::bytes::ByteClass;

/// What is skipped before a token is blanks and comments, and all of them.
pub fn gap_is_blanks_and_comments()
    ensures { (text : List ℕ) → IsLeftOf text (behind_gap text) }
{}

/// No text is a token of two kinds.
pub fn one_kind()
    ensures { (a b : TokenKind) (text : List ℕ) →
        IsTrue (has_kind a text) → IsTrue (has_kind b text) → a ≡ b }
{}

/// A text has at most one list of tokens.
pub fn one_token_list()
    ensures { (text : List ℕ) (a b : List Lexeme) → IsTokens text a → IsTokens text b → a ≡ b }
{}

/// No token begins at one first place at most, and there is one list of tokens before it.
pub fn one_fault()
    ensures { (text : List ℕ) (a b : List Lexeme) (p q : ℕ) →
        IsStuckAt text a p → IsStuckAt text b q → (a ≡ b) × (p ≡ q) }
{}

/// A text has no tokens where it has such a place.
pub fn tokens_or_fault()
    ensures { (text : List ℕ) (tokens : List Lexeme) (byte : ℕ) →
        IsTokens text tokens → IsTokenFault text byte → ⊥ }
{}

/// A token is the longest that begins at its place where a blank, a comment or punctuation stands
/// behind it, or nothing.
pub fn token_before_break()
    ensures { (kind : TokenKind) (token rest : List ℕ) →
        IsTrue (has_kind kind token) → IsTrue (begins_with_break rest) →
        IsLongestFront kind (length token) (token ++ rest) }
{}

/// Punctuation is a token whatever stands behind it.
pub fn punctuation_before_anything()
    ensures { (byte : ℕ) (rest : List ℕ) → IsTrue (in_class ByteClass.Punctuation byte) →
        IsLongestFront TokenKind.Punct 1 (byte ∷ rest) }
{}

/// A token before a text is the first of its tokens.
pub fn token_then_text()
    ensures { (total : ℕ) (token : Lexeme) (rest after : List ℕ) (tokens : List Lexeme) →
        IsLongestFront token.kind (length token.text) (token.text ++ rest) →
        token.byte + length (token.text ++ rest) ≡ total →
        Reads total tokens rest after →
        Reads total (token ∷ tokens) (token.text ++ rest) after }
{}

/// A blank before a text leaves its tokens as they are.
pub fn blank_then_text()
    ensures { (total byte : ℕ) (rest after : List ℕ) (tokens : List Lexeme) →
        IsTrue (in_class ByteClass.Blank byte) →
        Reads total tokens rest after →
        Reads total tokens (byte ∷ rest) after }
{}
