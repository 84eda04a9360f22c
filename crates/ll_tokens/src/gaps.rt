ghost use Rattle.std.specs.Prelude.{◌≡◌, ◌≤◌, length, drop};
ghost use Rattle.ll_tokens.specs.Tokens.{behind_gap};

use crate::bytes::ByteClass;

/// What is left of the text behind the blanks and comments at its front.
pub fn behind_gap(text: &str) -> &str
    ensures { result.now ≡ behind_gap text.now }
{
    &text[gap_len(text.as_bytes())..]
}

/// How many bytes the blanks and comments at the front have. A comment runs from `;` to the line feed,
/// or to the end of the text.
fn gap_len(bytes: &[u8]) -> usize
    ensures in_range { result ≤ length bytes.now }
    ensures behind { drop result bytes.now ≡ behind_gap bytes.now }
{
    let mut in_comment = false;
    for (at, byte) in bytes.iter().enumerate() {
        if in_comment {
            in_comment = *byte != b'\n';
        } else if *byte == b';' {
            in_comment = true;
        } else if !ByteClass::Blank.contains(*byte) {
            return at;
        }
    }
    bytes.len()
}
