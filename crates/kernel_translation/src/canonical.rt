ghost use Rattle.std.specs.Prelude.{MatchResult};
ghost use Rattle.kernel_translation.specs.Translations.{IsCanonicalOf, IsUncovered};

use crate::error::TranslateError;
use crate::text::kernel_of;
use kernel_tree::Kernel;
use ll_canon::{CanonError, canon};
use std::alloc::Global;

/// The canonical form of the kernel that a text is.
pub fn canonical_of(alloc: Global, input: &[u8]) -> Result<Kernel, TranslateError>
    ensures { MatchResult result (IsCanonicalOf input.now) (IsUncovered input.now) }
{
    let kernel = kernel_of(alloc, input)?;
    match canon(alloc, &kernel) {
        Ok(form) => Ok(form),
        Err(CanonError::Undefined { byte }) => Err(TranslateError::UndefinedName { byte }),
        Err(CanonError::Outside) => Err(TranslateError::Outside),
        Err(CanonError::NoMemory) => Err(TranslateError::NoMemory),
    }
}
