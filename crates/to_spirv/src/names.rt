ghost use Rattle.std.specs.Prelude.{◌≡◌, ◌≢◌, ◌↔◌, All, IsTrue, IsUtf8};
ghost use Rattle.kernel_tree.specs.Numbered.{name_bytes, bytes_of_spelling};
ghost use Rattle.to_spirv.specs.Limits.{HasPlainName};

use kernel_tree::Kernel;
use ll_tree::Spelling;

/// The bytes of a kernel's name, none where it has no text.
pub(crate) fn name_bytes(kernel: &Kernel) -> &[u8]
    ensures { result.now ≡ name_bytes kernel.now }
{
    match kernel.names.get(kernel.name.number as usize) {
        Some(entry) => spelling_bytes(&entry.spelling),
        None => &[],
    }
}

fn spelling_bytes(spelling: &Spelling) -> &[u8]
    ensures { result.now ≡ bytes_of_spelling spelling.now }
{
    match spelling {
        Spelling::Number(_) => &[],
        Spelling::Text(bytes) => bytes.as_slice(),
    }
}

/// Whether the name of a kernel can stand in a literal string (SPIR-V 1.2, 2.2.1): it is UTF-8, and no byte of it is zero.
pub fn has_plain_name(kernel: &Kernel) -> bool
    ensures { IsTrue result ↔ HasPlainName kernel.now }
{
    let bytes = name_bytes(kernel);
    if !has_no_zero(bytes) {
        return false;
    }
    is_utf8(bytes)
}

fn has_no_zero(bytes: &[u8]) -> bool
    ensures { IsTrue result ↔ All (λ byte. byte ≢ 0) bytes.now }
{
    bytes.iter().all(|byte| *byte != 0)
}

fn is_utf8(bytes: &[u8]) -> bool
    ensures { IsTrue result ↔ IsUtf8 bytes.now }
{
    match str::from_utf8(bytes) {
        Ok(_) => true,
        Err(_) => false,
    }
}
