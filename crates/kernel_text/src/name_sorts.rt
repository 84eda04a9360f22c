ghost use Rattle.std.specs.Prelude.{◌≡◌, ◌-◌, drop, take, length};
ghost use Rattle.kernel_text.specs.NameSorts.{token_kind, name_kind, is_allowed, is_plain, is_kernel_name, spelled_text};

use ll_parser::are_digits;
use ll_tokens::TokenKind;
use ll_tree::NameKind;

/// The names of a kernel's text, each of which is one token.
#[derive(Clone, Copy, Debug, PartialEq, Eq)]
pub enum NameSort {
    /// `@` and the name of the kernel.
    Kernel,
    /// `%` and the name of a value.
    Value,
    /// The name of a block, and `:`.
    Label,
}

impl NameSort {
    pub fn token_kind(self) -> TokenKind
        ensures { result ≡ token_kind self }
    {
        match self {
            NameSort::Kernel => TokenKind::Global,
            NameSort::Value => TokenKind::Local,
            NameSort::Label => TokenKind::Label,
        }
    }

    pub fn name_kind(self) -> NameKind
        ensures { result ≡ name_kind self }
    {
        match self {
            NameSort::Kernel => NameKind::Global,
            NameSort::Value | NameSort::Label => NameKind::Local,
        }
    }

    /// The part of a token's text that spells the name.
    pub fn spelled_text(self, text: &[u8]) -> &[u8]
        ensures { result.now ≡ spelled_text self text.now }
    {
        match self {
            NameSort::Kernel | NameSort::Value => without_first(text),
            NameSort::Label => without_last(text),
        }
    }

    /// Whether a name may be spelled so.
    pub fn allows(self, text: &[u8]) -> bool
        ensures { result ≡ is_allowed self text.now }
    {
        match self {
            NameSort::Kernel => is_kernel_name(text),
            NameSort::Value | NameSort::Label => is_plain(text),
        }
    }
}

fn without_first(text: &[u8]) -> &[u8]
    ensures { result.now ≡ drop 1 text.now }
{
    match text {
        [_, behind @ ..] => behind,
        [] => &[],
    }
}

fn without_last(text: &[u8]) -> &[u8]
    ensures { result.now ≡ take (length text.now - 1) text.now }
{
    match text {
        [before @ .., _] => before,
        [] => &[],
    }
}

/// Whether a name stands without quotes.
fn is_plain(text: &[u8]) -> bool
    ensures { result ≡ is_plain text.now }
{
    match text {
        [first, ..] => *first != b'"',
        [] => true,
    }
}

/// Whether a kernel may have this name: without quotes, no number, and not as the built-in functions' are.
fn is_kernel_name(text: &[u8]) -> bool
    ensures { result ≡ is_kernel_name text.now }
{
    is_plain(text) && !are_digits(text) && !text.starts_with(b"_Z")
}
