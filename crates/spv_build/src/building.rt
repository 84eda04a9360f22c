ghost use Rattle.std.specs.Prelude.{◌≡◌};
ghost use Rattle.spv_build.specs.Answers.{IsBuildAnswer, built_by};

use crate::modules::module_of;
use ports::{OutOfMemory, SpvError};
use spv_codec::RawModule;
use spv_module::SpvModule;
use spv_names::names_fault;
use std::alloc::Global;

/// The module that a decoded binary says, section by section, its functions with their blocks (SPIR-V 1.2, 2.4). Instructions that are
/// dropped leave nothing behind. A type that a table of types can't hold stands in it as `Ty::Other`.
///
/// A fault comes exactly where the binary breaks the rule of section order, 14, or one of those of ids and functions, 20 to 25: of the
/// latter that at the least place, and of those there the one of the least number. `NoMemory` comes for want of memory alone: also where
/// there are more words or types than memory can have.
pub fn build(alloc: Global, raw: RawModule) -> Result<SpvModule, SpvError>
    ensures { IsBuildAnswer raw result }
{
    match names_fault(alloc, &raw) {
        Ok(None) => built(module_of(alloc, &raw)),
        Ok(Some(fault)) => Err(SpvError::Fault(fault)),
        Err(OutOfMemory) => Err(SpvError::NoMemory),
    }
}

/// The module that was made.
fn built(made: Result<SpvModule, OutOfMemory>) -> Result<SpvModule, SpvError>
    ensures { result ≡ built_by made }
{
    match made {
        Ok(m) => Ok(m),
        Err(OutOfMemory) => Err(SpvError::NoMemory),
    }
}
