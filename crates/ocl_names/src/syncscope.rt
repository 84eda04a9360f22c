ghost use Rattle.std.specs.Prelude.{◌≡◌, ◌↔◌, ℕ, IsNone, IfSome};
ghost use Rattle.std.specs.Option.{option_map};
ghost use Rattle.kern_lanes.specs.declared.scope.Scope.{Scope};
ghost use Rattle.ocl_names.specs.Orders.{IsStorage};
ghost use Rattle.ocl_names.specs.Syncscopes.{scope_name, scope_word, written_scope, IsDefault, IsScopeWord, scope_at, storage_at, scope_word_parts, read_syncscope};

use crate::storage::{STORAGES, Storage};
use kern_lanes::Scope;

/// The bits of the orders (SPIR-V 1.2, 3.25).
const ORDER: u32 = 0x1E;

static SCOPES: [Scope; 5] = [
    Scope::CrossDevice,
    Scope::Device,
    Scope::Workgroup,
    Scope::Subgroup,
    Scope::Invocation,
];

/// What the words of a scope begin with.
fn name(scope: Scope) -> &'static str
    ensures { result.now ≡ scope_name scope }
{
    match scope {
        Scope::CrossDevice => "all_svm_devices",
        Scope::Device => "device",
        Scope::Workgroup => "workgroup",
        Scope::Subgroup => "subgroup",
        Scope::Invocation => "singlethread",
    }
}

/// The word of a scope and its storage.
fn word(scope: Scope, storage: Storage) -> &'static str
    ensures { result.now ≡ scope_word scope storage }
{
    match (scope, storage) {
        (_, Storage::Both) => name(scope),
        (Scope::CrossDevice, Storage::Local) => "all_svm_devices-local",
        (Scope::CrossDevice, Storage::Global) => "all_svm_devices-global",
        (Scope::CrossDevice, Storage::Neither) => "all_svm_devices-none",
        (Scope::Device, Storage::Local) => "device-local",
        (Scope::Device, Storage::Global) => "device-global",
        (Scope::Device, Storage::Neither) => "device-none",
        (Scope::Workgroup, Storage::Local) => "workgroup-local",
        (Scope::Workgroup, Storage::Global) => "workgroup-global",
        (Scope::Workgroup, Storage::Neither) => "workgroup-none",
        (Scope::Subgroup, Storage::Local) => "subgroup-local",
        (Scope::Subgroup, Storage::Global) => "subgroup-global",
        (Scope::Subgroup, Storage::Neither) => "subgroup-none",
        (Scope::Invocation, Storage::Local) => "singlethread-local",
        (Scope::Invocation, Storage::Global) => "singlethread-global",
        (Scope::Invocation, Storage::Neither) => "singlethread-none",
    }
}

/// The syncscope word of a scope (SPIR-V 1.2, 3.27) and a memory semantics number (3.25); None where an
/// instruction is written without one, which is so for scope 0 with both storage bits, or without an order bit.
/// LLVM 14 leaves the words to the target ("Atomic Memory Ordering Constraints"); these are the profile's.
#[tactic(auto, unfolding(crate::specs::Syncscopes::written_scope))]
pub fn scope_text(scope: Scope, mask: u32) -> Option<&'static str>
    ensures value { option_map (λ word. word.now) result ≡ written_scope scope mask }
    ensures none { IsNone result ↔ IsDefault scope mask }
{
    let storage = if mask & ORDER == 0 {
        Storage::Both
    } else {
        Storage::of(mask)
    };
    match (scope, storage) {
        (Scope::CrossDevice, Storage::Both) => None,
        _ => Some(word(scope, storage)),
    }
}

/// The scope of a syncscope word, and its storage bits, 0x100 for local and 0x200 for global; None where the
/// text is no such word.
#[tactic(auto, unfolding(crate::specs::Syncscopes::read_syncscope))]
pub fn read_scope(text: &str) -> Option<(Scope, u32)>
    ensures exact { (scope : Scope) (bits : ℕ) → (result ≡ Some (scope, bits)) ↔ IsScopeWord text.now scope bits }
    ensures value { result ≡ read_syncscope text.now }
    ensures storage { IfSome result (λ parts. IsStorage parts.1) }
{
    word_parts(text.as_bytes()).map(|(scope, storage)| (scope, storage.bits()))
}

/// The scope and the storage whose word the text is.
fn word_parts(text: &[u8]) -> Option<(Scope, Storage)>
    ensures { result ≡ scope_word_parts text.now }
{
    let scope = scope_of(text)?;
    let (_, suffix) = text.split_at(name(scope).len());
    let storage = storage_of(suffix)?;
    Some((scope, storage))
}

/// The scope with whose name the text begins.
fn scope_of(text: &[u8]) -> Option<Scope>
    ensures { result ≡ scope_at text.now }
{
    SCOPES
        .iter()
        .copied()
        .find(|scope| text.starts_with(name(*scope).as_bytes()))
}

/// The storage of this suffix.
fn storage_of(suffix: &[u8]) -> Option<Storage>
    ensures { result ≡ storage_at suffix.now }
{
    STORAGES
        .iter()
        .copied()
        .find(|storage| storage.suffix().as_bytes() == suffix)
}
