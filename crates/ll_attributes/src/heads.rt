ghost use Rattle.std.specs.Prelude.{◌≡◌};
ghost use Rattle.ll_tokens.specs.Tokens.{lexemes_of};
ghost use Rattle.ll_parser.specs.GrammarItems.{unnamed};
ghost use Rattle.ll_parser.specs.Productions.{word};
ghost use Rattle.ll_attributes.specs.Heads.{call_convention, convention_here, linkage_here};
ghost use Rattle.ll_attributes.specs.Lists.{maybe_here};

use ll_parser::take_word;
use ll_tokens::Token;
use ll_tree::Linkage;

/// What is left behind this word of the language, where the tokens begin with it.
pub fn skip_word_if_there<'t, 'a>(tokens: &'t [Token<'a>], text: &str) -> &'t [Token<'a>]
    ensures { maybe_here (word text.now) (lexemes_of tokens.now) (lexemes_of result.now) }
{
    if let Ok(rest) = take_word(tokens, text) {
        return rest;
    }
    tokens
}

/// The linkage with which the tokens begin, and the tokens behind it (LLVM 14, Linkage Types). It is the external one where
/// no word of another begins them.
pub fn read_linkage<'t, 'a>(tokens: &'t [Token<'a>]) -> (Linkage, &'t [Token<'a>])
    ensures { linkage_here result.0 (lexemes_of tokens.now) (lexemes_of result.1.now) }
{
    if let Ok(rest) = take_word(tokens, "internal") {
        return (Linkage::Internal, rest);
    }
    if let Ok(rest) = take_word(tokens, "private") {
        return (Linkage::Private, rest);
    }
    (Linkage::External, tokens)
}

/// What is left behind `unnamed_addr` or `local_unnamed_addr`, where the tokens begin with it (LLVM 14, Global Variables).
pub fn skip_unnamed<'t, 'a>(tokens: &'t [Token<'a>]) -> &'t [Token<'a>]
    ensures { maybe_here unnamed (lexemes_of tokens.now) (lexemes_of result.now) }
{
    if let Ok(rest) = take_word(tokens, "unnamed_addr") {
        return rest;
    }
    if let Ok(rest) = take_word(tokens, "local_unnamed_addr") {
        return rest;
    }
    tokens
}

/// Whether the tokens begin with the calling convention of kernels, `spir_kernel`, and the tokens behind the convention
/// (LLVM 14, Calling Conventions). That of another function is `spir_func`, which may be left out.
pub fn is_kernel<'t, 'a>(tokens: &'t [Token<'a>]) -> (bool, &'t [Token<'a>])
    ensures { convention_here result.0 (lexemes_of tokens.now) (lexemes_of result.1.now) }
{
    if let Ok(rest) = take_word(tokens, "spir_kernel") {
        return (true, rest);
    }
    (false, skip_word_if_there(tokens, "spir_func"))
}

/// What is left behind a call's calling convention, `spir_kernel` or `spir_func`, where the tokens begin with it (LLVM 14,
/// call Instruction).
pub fn skip_convention<'t, 'a>(tokens: &'t [Token<'a>]) -> &'t [Token<'a>]
    ensures { maybe_here call_convention (lexemes_of tokens.now) (lexemes_of result.now) }
{
    if let Ok(rest) = take_word(tokens, "spir_kernel") {
        return rest;
    }
    if let Ok(rest) = take_word(tokens, "spir_func") {
        return rest;
    }
    tokens
}
