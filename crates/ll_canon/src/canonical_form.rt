ghost use Rattle.std.specs.Prelude.{◌≡◌, MatchResult};
ghost use Rattle.ll_canon.specs.Canon.{IsCanonized, IsUncovered};
ghost use Rattle.kernel_tree.specs.Canonical.{numbers_defined};
ghost use Rattle.kernel_tree.specs.Covered.{is_covered};
ghost use Rattle.kernel_tree.specs.Names.{definitions};

use crate::definitions::{definitions, numbers};
use crate::distinct::are_distinct;
use crate::numbered::numbered;
use crate::sequence::is_in_sequence;
use crate::undefined::first_undefined;
use crate::uses::uses_fit;
use inst_walk::Places;
use kernel_tree::{Definition, Kernel};
use ports::OutOfMemory;
use std::alloc::{AllocError, Global};

/// How many parameters a kernel may have.
const MAX_PARAMS: usize = 255;

/// Why a kernel has no canonical form.
#[derive(Clone, Copy, Debug, PartialEq, Eq)]
pub enum CanonError {
    NoMemory,
    /// The name at this byte is used and defined nowhere, and none that is used before it is.
    Undefined { byte: u64 },
    /// The kernel is outside the covered subset in another way.
    Outside,
}

impl From<OutOfMemory> for CanonError {
    ghost use Rattle.std.specs.Prelude.{◌≡◌};
    ghost use Rattle.ll_canon.specs.declared.canonical_form.CanonError.TheVariants.{NoMemory};

    ghost from_gives = { λ _ told. told ≡ NoMemory };

    fn from(_refused: OutOfMemory) -> CanonError {
        CanonError::NoMemory
    }
}

/// The canonical form of a kernel: with the target lines, an alignment at each access to memory, and the numbers of the definitions for
/// names.
///
/// A kernel in which a name is used that is defined nowhere is told as `Undefined`. Of the others, `Outside` comes exactly for those in
/// which a name is defined twice or only below a use, a use asks for another type, a number is out of sequence, or there are more than
/// 255 parameters.
pub fn canon(alloc: Global, kernel: &Kernel) -> Result<Kernel, CanonError>
    ensures { MatchResult result (IsCanonized kernel.now) (IsUncovered kernel.now) }
{
    let defined = definitions(alloc, kernel)?;
    let places = Places::new(alloc, numbers(alloc, &defined)?)?;
    if let Some(byte) = first_undefined(&places, kernel.insts.as_slice()) {
        return Err(CanonError::Undefined { byte });
    }
    if !is_covered(kernel, &defined, &places) {
        return Err(CanonError::Outside);
    }
    Ok(numbered(alloc, kernel, &places)?)
}

/// Whether the kernel, which has these definitions, is in the covered subset.
fn is_covered(kernel: &Kernel, defined: &[Definition], places: &Places<u32>) -> bool
    requires defined { defined.now ≡ definitions kernel.now }
    requires places { places.now ≡ numbers_defined kernel.now }
    ensures { result ≡ is_covered kernel.now }
{
    kernel.params.len() <= MAX_PARAMS
        && are_distinct(places, defined)
        && is_in_sequence(kernel.names.as_slice(), defined)
        && uses_fit(kernel, defined, places)
}
