ghost use Rattle.std.specs.Prelude.{◌≡◌, ◌+◌, ◌<◌, ◌^◌, ◌++◌, [], length, false, true, IsTrue, IfOk, IfErr, OnOk, OnErr, Err};
ghost use Rattle.spv_codec.specs.Framing.{IsSpirv, IsFramingError};

use crate::decode::decode;
use crate::module::RawModule;
use ports::SpvError;
use std::alloc::Global;
use std::marker::Model;

/// Decodes a module whose bytes come in pieces of any length.
#[derive(Drop)]
pub struct SpvDecoder {
    alloc: Global,
    bytes: Vec<u8>,
    failed: bool,
}

impl Model for SpvDecoder {
    ghost use Rattle.spv_codec.specs.Decoding.{DecoderState};

    ghost Value = { DecoderState };

    ghost view = { λ d. record { fed = d.bytes.items; failed = d.failed } };
}

impl SpvDecoder {
    /// A decoder that has been fed no bytes.
    pub fn new(alloc: Global) -> SpvDecoder
        ensures fed { result.fed ≡ [] }
        ensures failed { result.failed ≡ false }
    {
        SpvDecoder {
            alloc,
            bytes: Vec::new(alloc),
            failed: false,
        }
    }

    /// Takes a piece.
    ///
    /// Only `NoMemory` is answered, and then again at each later call.
    pub fn feed(&mut self, piece: &[u8]) -> Result<(), SpvError>
        ensures fed { OnOk result (self.new.fed ≡ self.old.fed ++ piece.now) }
        ensures going { OnOk result ((self.old.failed ≡ false) × (self.new.failed ≡ false)) }
        ensures no_memory { OnErr result (result ≡ Err SpvError.NoMemory) }
        ensures failing { OnErr result (self.new.failed ≡ true) }
    {
        if self.failed {
            return Err(SpvError::NoMemory);
        }
        match self.bytes.extend_from_slice(piece) {
            Ok(()) => Ok(()),
            Err(_) => {
                self.failed = true;
                Err(SpvError::NoMemory)
            }
        }
    }

    /// The module that all bytes spell, however they were cut.
    ///
    /// The fault is the rule of framing that the bytes break first: at the least place, and of those there the one with the least number.
    /// A decoder that wanted memory before answers that.
    pub fn finish(self) -> Result<RawModule, SpvError>
        requires { length self.fed < 2 ^ 63 }
        ensures module { IfOk result (IsSpirv self.fed) }
        ensures fault { IfErr result (IsFramingError self.fed) }
        ensures failed { self.failed ≡ true → result ≡ Err SpvError.NoMemory }
    {
        if self.failed {
            return Err(SpvError::NoMemory);
        }
        decode(self.alloc, &self.bytes)
    }
}
