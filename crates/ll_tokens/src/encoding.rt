ghost use Rattle.std.specs.Prelude.{◌≡◌, IsUtf8, MatchResult};
ghost use Rattle.std.specs.Str.{IsValidUpTo};
ghost use Rattle.ll_tokens.specs.Encoding.{IsEncodingFault};

use ports::LlFault;

/// The rule that bytes break which are no UTF-8.
const NO_UTF8: u16 = 1;

/// The text that the bytes are in UTF-8 (Unicode 14, section 3.9). It fails by rule 1, at the first byte
/// of the first sequence that is no character's. It takes no memory.
pub fn utf8(bytes: &[u8]) -> Result<&str, LlFault>
    ensures { MatchResult result
        (λ text. (text.now ≡ bytes.now) × IsUtf8 bytes.now)
        (λ fault. IsEncodingFault bytes.now fault) }
{
    std::str::from_utf8(bytes).map_err(|error| LlFault {
        rule: NO_UTF8,
        byte: error.valid_up_to() as u64,
    })
}
