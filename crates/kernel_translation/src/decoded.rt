ghost use Rattle.std.specs.Prelude.{◌<◌, ◌^◌, length, IfErr, IfOk};
ghost use Rattle.spv_codec.specs.Framing.{IsFramingError, IsSpirv};

use ports::SpvError;
use spv_codec::{RawModule, SpvDecoder};
use std::alloc::Global;

/// The module that bytes spell, in either byte order (SPIR-V 1.2, 2.3 "Physical Layout of a SPIR-V Module and Instruction"). It fails by the
/// rule of framing that the bytes break first.
pub fn module_of(alloc: Global, input: &[u8]) -> Result<RawModule, SpvError>
    requires { length input.now < 2 ^ 63 }
    ensures spirv { IfOk result (λ raw. IsSpirv input.now raw) }
    ensures fault { IfErr result (IsFramingError input.now) }
{
    let mut decoder = SpvDecoder::new(alloc);
    decoder.feed(input)?;
    decoder.finish()
}
