ghost use Rattle.std.specs.Prelude.{◌≡◌, IfOk};
ghost use Rattle.spv_build.specs.Entries.{behind_text};
ghost use Rattle.spv_build.specs.Items.{text_of};

use ports::OutOfMemory;
use spv_words::{StringError, words_string};
use sqlite_items::Items;
use std::alloc::Global;

/// The bytes of the literal string that words begin with (SPIR-V 1.2, 2.2.1), none where they begin no string.
///
/// `OutOfMemory` comes for want of memory alone.
pub(crate) fn text_of(alloc: Global, words: &[u32]) -> Result<Items<u8>, OutOfMemory>
    ensures { IfOk result (λ text. text ≡ text_of words.now) }
{
    if words.is_empty() {
        return Ok(Items::new(alloc));
    }
    match words_string(alloc, words) {
        Ok((text, _)) => Ok(Items::from_slice(alloc, text.as_bytes())?),
        Err(StringError::Bad) => Ok(Items::new(alloc)),
        Err(StringError::NoMemory) => Err(OutOfMemory),
    }
}

/// The words behind the literal string that words begin with, none where they begin no string.
///
/// `OutOfMemory` comes for want of memory alone.
pub(crate) fn behind_text(alloc: Global, words: &[u32]) -> Result<&[u32], OutOfMemory>
    ensures { IfOk result (λ rest. rest.now ≡ behind_text words.now) }
{
    if words.is_empty() {
        return Ok(&[]);
    }
    match words_string(alloc, words) {
        Ok((_, used)) => Ok(&words[used..]),
        Err(StringError::Bad) => Ok(&[]),
        Err(StringError::NoMemory) => Err(OutOfMemory),
    }
}
