ghost use Rattle.std.specs.Prelude.{◌≡◌, slice_get};
ghost use Rattle.std.specs.List.{list_all};
ghost use Rattle.to_llvm.specs.OwnNames.{begins_name, continues_name, is_global, is_own_entry, is_own_name, is_own_spelling, is_own_text, is_sign, is_word};

use kernel_tree::Kernel;
use ll_tree::{NameKind, NameText, Spelling};

/// Whether a kernel has a name of its own: a global name that stands without quotes, no number, and not as built-in functions' are
/// (LLVM 14, Identifiers).
pub(crate) fn has_own_name(kernel: &Kernel) -> bool
    ensures { result ≡ is_own_name (slice_get kernel.now.names kernel.now.name.number) }
{
    match kernel.names.get(kernel.name.number as usize) {
        Some(entry) => is_own_entry(entry),
        None => false,
    }
}

fn is_own_entry(entry: &NameText) -> bool
    ensures { result ≡ is_own_entry entry.now }
{
    is_global(entry.kind) && is_own_spelling(&entry.spelling)
}

fn is_global(kind: NameKind) -> bool
    ensures { result ≡ is_global kind }
{
    match kind {
        NameKind::Global => true,
        NameKind::Local | NameKind::Struct => false,
    }
}

fn is_own_spelling(spelling: &Spelling) -> bool
    ensures { result ≡ is_own_spelling spelling.now }
{
    match spelling {
        Spelling::Number(_) => false,
        Spelling::Text(bytes) => is_own_text(bytes.as_slice()),
    }
}

fn is_own_text(text: &[u8]) -> bool
    ensures { result ≡ is_own_text text.now }
{
    is_word(text) && !text.starts_with(b"_Z")
}

/// Whether a name stands without quotes and is no number.
fn is_word(text: &[u8]) -> bool
    ensures { result ≡ is_word text.now }
{
    match text {
        [first, behind @ ..] => begins_name(*first) && continue_name(behind),
        [] => false,
    }
}

fn continue_name(bytes: &[u8]) -> bool
    ensures { result ≡ list_all continues_name bytes.now }
{
    bytes.iter().all(|byte| continues_name(*byte))
}

fn begins_name(byte: u8) -> bool
    ensures { result ≡ begins_name byte }
{
    byte.is_ascii_alphabetic() || is_sign(byte)
}

fn continues_name(byte: u8) -> bool
    ensures { result ≡ continues_name byte }
{
    byte.is_ascii_alphanumeric() || is_sign(byte)
}

fn is_sign(byte: u8) -> bool
    ensures { result ≡ is_sign byte }
{
    b"-$._".contains(&byte)
}
