ghost use Rattle.std.specs.Prelude.{IfOk, IsUtf8, MatchResult};
ghost use Rattle.ll_texts.specs.TextFaults.{IsChecked, IsParseError};
ghost use Rattle.ll_texts.specs.TextRules.{IsModuleText};

use crate::rules::{first_fault, refused_fault};
use ll_modules::parse_tokens;
use ll_parser::ReadError;
use ll_tokens::{Tokenized, tokenize, utf8};
use ll_tree::LlModule;
use ll_types::too_deep;
use ports::{LlError, LlFault, OutOfMemory};
use std::alloc::Global;

/// The module that a text has (LLVM 14, Module Structure). It fails for want of memory, and by the first rule that the text
/// breaks, that at the least byte and of those the one with the least number: rule 2 where no token begins, rule 3 where a token
/// stands that can't, or the text ends too early, rule 4 where a number is out of its range or a name's digits are 2^31 or more,
/// and rule 5 where a bracket is nested deeper than 100.
pub fn parse(alloc: Global, text: &str) -> Result<LlModule, LlError>
    ensures { MatchResult result (IsModuleText text.now) (IsParseError text.now) }
{
    let Tokenized {
        tokens,
        fault: stuck,
    } = tokenize(alloc, text)?;
    let found = tokens.as_slice();
    let nested = match too_deep(alloc, found) {
        Ok(nested) => nested,
        Err(_no_memory) => return Err(LlError::NoMemory),
    };
    let end = text.len() as u64;
    match parse_tokens(alloc, found) {
        Ok(module) => match first_fault(end, found, stuck, None, nested) {
            Some(fault) => Err(LlError::Fault(fault)),
            None => Ok(module),
        },
        Err(ReadError::Refused(refusal)) => {
            let fault = refused_fault(end, found, stuck, refusal, nested);
            Err(LlError::Fault(fault))
        }
        Err(ReadError::NoMemory) => Err(LlError::NoMemory),
    }
}

/// The first rule that an input breaks which is to be a module's text: rule 1 where it is no UTF-8, else as `parse` tells. None
/// exactly where it is the text of a module. It fails only for want of memory.
pub fn text_fault(alloc: Global, input: &[u8]) -> Result<Option<LlFault>, OutOfMemory>
    ensures { IfOk result (IsChecked input.now) }
{
    let text = match utf8(input) {
        Ok(text) => text,
        Err(fault) => return Ok(Some(fault)),
    };
    match parse(alloc, text) {
        Ok(_module) => Ok(None),
        Err(LlError::Fault(fault)) => Ok(Some(fault)),
        Err(LlError::NoMemory) => Err(OutOfMemory),
    }
}
