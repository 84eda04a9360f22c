ghost use Rattle.std.specs.Prelude.{MatchResult};
ghost use Rattle.kernel_translation.specs.Translations.{IsTextOf, IsUnread};

use crate::error::TranslateError;
use kernel_text::{KernelTextError, read_kernel};
use kernel_tree::Kernel;
use ll_tokens::{tokens, utf8};
use ports::LlError;
use std::alloc::Global;

/// The kernel that a text is, as it stands.
pub fn kernel_of(alloc: Global, input: &[u8]) -> Result<Kernel, TranslateError>
    ensures { MatchResult result (IsTextOf input.now) (IsUnread input.now) }
{
    let Ok(text) = utf8(input) else {
        return Err(TranslateError::Outside);
    };
    let tokens = match tokens(alloc, text) {
        Ok(tokens) => tokens,
        Err(LlError::Fault(_)) => return Err(TranslateError::Outside),
        Err(LlError::NoMemory) => return Err(TranslateError::NoMemory),
    };
    match read_kernel(alloc, &tokens) {
        Ok(kernel) => Ok(kernel),
        Err(KernelTextError::Outside) => Err(TranslateError::Outside),
        Err(KernelTextError::NoMemory) => Err(TranslateError::NoMemory),
    }
}
