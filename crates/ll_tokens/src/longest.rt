ghost use Rattle.std.specs.Prelude.{◌≡◌};
ghost use Rattle.std.specs.List.{prefix_len};
ghost use Rattle.ll_tokens.specs.Forms.{in_class};
ghost use Rattle.ll_tokens.specs.Longest.{keep_longer, IsLongestOf};

use crate::bytes::ByteClass;
use crate::kinds::TokenKind;
use crate::lengths::token_len;

const KINDS: [TokenKind; 13] = [
    TokenKind::Label,
    TokenKind::Local,
    TokenKind::Global,
    TokenKind::Mdn,
    TokenKind::MdName,
    TokenKind::MdStr,
    TokenKind::Bang,
    TokenKind::Attr,
    TokenKind::Str,
    TokenKind::CStr,
    TokenKind::Int,
    TokenKind::Word,
    TokenKind::Punct,
];

/// A front of a text that is a token: its kind, and how many bytes it has.
#[derive(Clone, Copy)]
pub struct Front {
    pub kind: TokenKind,
    pub len: usize,
}

/// The longest front of the text that is a token, where `label_run` bytes that a label may have stand
/// at its front.
pub fn longest(bytes: &[u8], label_run: usize) -> Option<Front>
    requires { label_run ≡ prefix_len (in_class ByteClass.Name) bytes.now }
    ensures { IsLongestOf bytes.now result }
{
    let mut best = None;
    for kind in KINDS {
        best = keep_longer(best, kind, token_len(kind, bytes, label_run));
    }
    best
}

fn keep_longer(best: Option<Front>, kind: TokenKind, len: Option<usize>) -> Option<Front>
    ensures { result ≡ keep_longer best kind len }
{
    let Some(len) = len else {
        return best;
    };
    match best {
        Some(front) if len <= front.len => best,
        _ => Some(Front { kind, len }),
    }
}
