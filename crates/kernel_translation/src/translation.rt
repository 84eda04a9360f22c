ghost use Rattle.std.specs.Prelude.{◌≡◌, IfOk, MatchOption, MatchResult};
ghost use Rattle.kernel_tree.specs.Numbered.{IsNumbered};
ghost use Rattle.kernel_translation.specs.Translations.{IsUntranslated, KeepsLimits, binary_of};
ghost use Rattle.kernel_translation.specs.TextTranslations.{IsTranslationAndBack};

use crate::binary::binary;
use crate::canonical::canonical_of;
use crate::error::TranslateError;
use crate::limits::{has_short_text, is_translatable};
use kernel_tree::Kernel;
use ports::OutOfMemory;
use spv_words::Order;
use std::alloc::Global;

/// How many bytes an input, its canonical form and its translation may have.
pub const MAX_BYTES: u64 = 16_777_216;

/// The SPIR-V binary of the kernel that a text has, in this byte order.
pub fn translate(alloc: Global, text: &[u8], order: Order) -> Result<Vec<u8>, TranslateError>
    ensures { MatchResult result
        (λ bytes. IsTranslationAndBack order text.now bytes.items)
        (IsUntranslated order text.now) }
{
    let kernel = canonical_of(alloc, text)?;
    match binary_within_limits(alloc, &kernel, order)? {
        Some(bytes) => Ok(bytes),
        None => Err(TranslateError::Outside),
    }
}

/// The binary of a canonical form. None exactly where the form breaks a limit.
fn binary_within_limits(
    alloc: Global,
    kernel: &Kernel,
    order: Order,
) -> Result<Option<Vec<u8>>, OutOfMemory>
    requires { IsNumbered kernel.now }
    ensures { IfOk result (λ found. MatchOption found (KeepsLimits order kernel.now → ⊥)
        (λ bytes. KeepsLimits order kernel.now × (bytes.items ≡ binary_of order kernel.now))) }
{
    if !is_translatable(kernel) {
        return Ok(None);
    }
    if !has_short_text(alloc, kernel)? {
        return Ok(None);
    }
    let bytes = binary(alloc, kernel, order)?;
    if bytes.len() as u64 > MAX_BYTES {
        return Ok(None);
    }
    Ok(Some(bytes))
}
