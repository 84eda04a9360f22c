ghost use Rattle.std.specs.Prelude.{◌≡◌, ◌≤◌, None, length, IfOk, MatchOption, MatchResult};
ghost use Rattle.spv_names.specs.NameRules.{names_fault};
ghost use Rattle.kernel_translation.specs.TextTranslations.{HasNoText, IsModuleText, IsNamesBreak, IsTextTranslationAndBack, IsUntranslatedBinary};

use crate::decoded::module_of;
use crate::error::BinaryError;
use crate::translation::MAX_BYTES;
use kernel_printer::print_kernel;
use ports::{OutOfMemory, SpvError};
use spv_codec::RawModule;
use spv_names::names_fault;
use std::alloc::Global;
use to_llvm::to_llvm;

/// The text of the canonical kernel whose module a binary is, in either byte order.
///
/// `Misframed` comes exactly where the bytes break a rule of framing; `Invalid` exactly where they keep these rules and their module breaks one of
/// section order, or else of ids and functions (SPIR-V 1.2, 2.4 and 2.16.1); and `Outside` exactly where they keep all these and are no canonical
/// kernel's binary, or that of one whose text is longer than an input may be.
pub fn translate_binary(alloc: Global, input: &[u8]) -> Result<Vec<u8>, BinaryError>
    requires { length input.now ≤ 16777216 }
    ensures { MatchResult result
        (λ text. IsTextTranslationAndBack input.now text.items)
        (IsUntranslatedBinary input.now) }
{
    let raw = match module_of(alloc, input) {
        Ok(raw) => raw,
        Err(SpvError::Fault(fault)) => return Err(BinaryError::Misframed(fault)),
        Err(SpvError::NoMemory) => return Err(BinaryError::NoMemory),
    };
    keep_rules(alloc, &raw)?;
    match text_of(alloc, &raw)? {
        Some(text) => Ok(text),
        None => Err(BinaryError::Outside),
    }
}

/// Fails, but for want of memory, exactly where the module breaks a rule of section order or of ids and functions, by the first break.
fn keep_rules(alloc: Global, raw: &RawModule) -> Result<(), BinaryError>
    ensures { MatchResult result (λ _. names_fault raw.now ≡ None) (IsNamesBreak raw.now) }
{
    match names_fault(alloc, raw)? {
        Some(fault) => Err(BinaryError::Invalid(fault)),
        None => Ok(()),
    }
}

/// The text of the canonical kernel whose module this is. None exactly where it is no canonical kernel's, or the text is too long.
fn text_of(alloc: Global, raw: &RawModule) -> Result<Option<Vec<u8>>, OutOfMemory>
    ensures { IfOk result (λ found. MatchOption found (HasNoText raw.now) (λ text. IsModuleText raw.now text.items)) }
{
    let Some(kernel) = to_llvm(alloc, raw)? else {
        return Ok(None);
    };
    let text = print_kernel(alloc, &kernel)?;
    if text.len() as u64 > MAX_BYTES {
        return Ok(None);
    }
    Ok(Some(text))
}
