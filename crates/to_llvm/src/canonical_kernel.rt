ghost use Rattle.std.specs.Prelude.{◌≡◌, ◌↔◌, IfOk, IsTrue, MatchOption};
ghost use Rattle.kernel_tree.specs.Canonical.{canonical};
ghost use Rattle.kernel_tree.specs.Numbered.{IsNumbered};
ghost use Rattle.spv_module.specs.Sections.{flattened};
ghost use Rattle.to_spirv.specs.Limits.{IsWithinLimits};
ghost use Rattle.to_spirv.specs.Partner.{partner};
ghost use Rattle.kernel_reading.specs.CanonicalKernels.{IsCanonicalKernel};
ghost use Rattle.to_llvm.specs.ModulesOf.{IsModuleOf};
ghost use Rattle.to_llvm.specs.NamedForms.{HasForm};

use crate::guess::guess;
use crate::own_name::has_own_name;
use crate::same::is_same_module;
use kernel_tree::Kernel;
use ll_canon::{CanonError, canon};
use ports::OutOfMemory;
use spv_codec::RawModule;
use spv_module::flatten;
use std::alloc::Global;
use to_spirv::{has_plain_name, is_within_limits, to_spirv};

/// The canonical kernel whose module this is, in either order of the bytes. None exactly where it is no canonical kernel's module.
///
/// `OutOfMemory` comes for want of memory alone.
pub fn to_llvm(alloc: Global, raw: &RawModule) -> Result<Option<Kernel>, OutOfMemory>
    ensures { IfOk result (λ found. MatchOption found ((kernel : Kernel) → IsCanonicalKernel kernel → IsModuleOf raw.now kernel → ⊥) (λ kernel. IsCanonicalKernel kernel × IsModuleOf raw.now kernel)) }
{
    let guess = guess(alloc, raw.insts.as_slice())?;
    match form_of(alloc, &guess)? {
        Some(form) => confirmed(alloc, raw, form),
        None => Ok(None),
    }
}

/// The canonical form of a kernel that has a name of its own. None exactly where the kernel has no such name or no canonical form.
fn form_of(alloc: Global, kernel: &Kernel) -> Result<Option<Kernel>, OutOfMemory>
    ensures { IfOk result (λ found. MatchOption found (HasForm kernel.now → ⊥) (λ form. HasForm kernel.now × (form ≡ canonical kernel.now))) }
{
    if !has_own_name(kernel) {
        return Ok(None);
    }
    match canon(alloc, kernel) {
        Ok(form) => Ok(Some(form)),
        Err(CanonError::NoMemory) => Err(OutOfMemory),
        Err(CanonError::Undefined { .. } | CanonError::Outside) => Ok(None),
    }
}

/// A kernel, if this is its module, in either order of the bytes.
fn confirmed(alloc: Global, raw: &RawModule, kernel: Kernel) -> Result<Option<Kernel>, OutOfMemory>
    requires { IsNumbered kernel }
    ensures { IfOk result (λ found. MatchOption found (IsModuleOf raw.now kernel → ⊥) (λ it. (it ≡ kernel) × IsModuleOf raw.now kernel)) }
{
    if is_module_of(alloc, raw, &kernel)? {
        Ok(Some(kernel))
    } else {
        Ok(None)
    }
}

/// Whether a module is that of a kernel, in either order of the bytes.
fn is_module_of(alloc: Global, raw: &RawModule, kernel: &Kernel) -> Result<bool, OutOfMemory>
    requires { IsNumbered kernel.now }
    ensures { IfOk result (λ is. IsTrue is ↔ IsModuleOf raw.now kernel.now) }
{
    if !is_within_limits(kernel) {
        return Ok(false);
    }
    if !has_plain_name(kernel) {
        return Ok(false);
    }
    let made = module_of(alloc, kernel)?;
    Ok(is_same_module(raw, &made))
}

/// The module of a kernel as its words spell it.
fn module_of(alloc: Global, kernel: &Kernel) -> Result<RawModule, OutOfMemory>
    requires numbered { IsNumbered kernel.now }
    requires within { IsWithinLimits kernel.now }
    ensures { IfOk result (λ raw. raw ≡ flattened (partner kernel.now)) }
{
    let module = to_spirv(alloc, kernel)?;
    flatten(alloc, &module)
}
