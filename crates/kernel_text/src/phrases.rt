ghost use Rattle.std.specs.Prelude.{◌≡◌, map, MatchResult};
ghost use Rattle.ll_tokens.specs.Tokens.{lexemes_of};
ghost use Rattle.kernel_text.specs.Phrases.{words_of, pieces_of, wanted_of};
ghost use Rattle.kernel_text.specs.Reading.{PhraseFails};

use crate::error::KernelTextError;
use crate::pieces::{Piece, behind_pieces};
use ll_tokens::Token;
use ll_tokens::TokenKind::{Int, Punct, Str, Word};

/// Tokens that stand as they are written, each as its blanks show.
#[derive(Clone, Copy, Debug, PartialEq, Eq)]
pub enum Phrase {
    /// The two target lines.
    TargetLines,
    /// `define spir_kernel void`
    KernelWords,
    /// `(`
    ParamsStart,
    /// `) {`
    BodyStart,
    /// `ret`
    Return,
    /// `ret void }`
    BodyEnd,
    /// `i32`
    IntType,
    /// `addrspace(1)*`
    PointerSuffix,
    /// `,`
    Comma,
    /// `, i32 addrspace(1)*`
    PointerOperand,
    /// `, align 4`
    Align,
    /// `= add i32`
    AddWords,
    /// `= load i32, i32 addrspace(1)*`
    LoadWords,
    /// `store i32`
    StoreWords,
}

impl Phrase {
    /// The tokens of the phrase.
    #[tactic(auto, unfolding(crate::specs::Phrases::pieces_of))]
    fn pieces(self) -> &'static [Piece]
        ensures { map wanted_of result.now ≡ pieces_of self }
    {
        match self {
            Phrase::TargetLines => &[
                (Word, "target"),
                (Word, "datalayout"),
                (Punct, "="),
                (
                    Str,
                    "\"e-i64:64-v16:16-v24:32-v32:32-v48:64-v96:128-v192:256-v256:256-v512:512-v1024:1024\"",
                ),
                (Word, "target"),
                (Word, "triple"),
                (Punct, "="),
                (Str, "\"spir64-unknown-unknown\""),
            ],
            Phrase::KernelWords => &[(Word, "define"), (Word, "spir_kernel"), (Word, "void")],
            Phrase::ParamsStart => &[(Punct, "(")],
            Phrase::BodyStart => &[(Punct, ")"), (Punct, "{")],
            Phrase::Return => &[(Word, "ret")],
            Phrase::BodyEnd => &[(Word, "ret"), (Word, "void"), (Punct, "}")],
            Phrase::IntType => &[(Word, "i32")],
            Phrase::PointerSuffix => &[
                (Word, "addrspace"),
                (Punct, "("),
                (Int, "1"),
                (Punct, ")"),
                (Punct, "*"),
            ],
            Phrase::Comma => &[(Punct, ",")],
            Phrase::PointerOperand => &[
                (Punct, ","),
                (Word, "i32"),
                (Word, "addrspace"),
                (Punct, "("),
                (Int, "1"),
                (Punct, ")"),
                (Punct, "*"),
            ],
            Phrase::Align => &[(Punct, ","), (Word, "align"), (Int, "4")],
            Phrase::AddWords => &[(Punct, "="), (Word, "add"), (Word, "i32")],
            Phrase::LoadWords => &[
                (Punct, "="),
                (Word, "load"),
                (Word, "i32"),
                (Punct, ","),
                (Word, "i32"),
                (Word, "addrspace"),
                (Punct, "("),
                (Int, "1"),
                (Punct, ")"),
                (Punct, "*"),
            ],
            Phrase::StoreWords => &[(Word, "store"), (Word, "i32")],
        }
    }
}

/// What is left behind the phrase, with which the tokens begin.
pub fn take<'t, 'a>(
    tokens: &'t [Token<'a>],
    phrase: Phrase,
) -> Result<&'t [Token<'a>], KernelTextError>
    ensures { MatchResult result
        (λ rest. words_of phrase (lexemes_of tokens.now) (lexemes_of rest.now))
        (PhraseFails phrase (lexemes_of tokens.now)) }
{
    match behind_pieces(tokens, phrase.pieces()) {
        Some(rest) => Ok(rest),
        None => Err(KernelTextError::Outside),
    }
}
