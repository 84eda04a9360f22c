ghost use Rattle.std.specs.Prelude.{◌≡◌, ◌<◌, ◌≤◌, ◌^◌, ◌∷◌, length, IfOk, IfErr, All, slice_index};
ghost use Rattle.spv_codec.specs.Framing.{IsSpirv, IsFramingError, IsStrangeError, HasWords, fault_at, short_fault, header_fault};

use crate::instructions::read_instructions;
use crate::module::RawModule;
use ports::{SpvError, SpvFault};
use spv_words::{Order, WordError, WordFeed};
use std::alloc::Global;

/// How many bytes a module's header has.
const HEADER_BYTES: usize = 20;

/// The greatest bound that the ids of a module may have (SPIR-V 1.2, 2.17 "Universal Limits").
const MAX_BOUND: u32 = 0x3F_FFFF;

/// Decodes the bytes of a whole module.
pub fn decode(alloc: Global, bytes: &[u8]) -> Result<RawModule, SpvError>
    requires { length bytes.now < 2 ^ 63 }
    ensures module { IfOk result (IsSpirv bytes.now) }
    ensures fault { IfErr result (IsFramingError bytes.now) }
{
    if bytes.len() < HEADER_BYTES {
        return Err(SpvError::Fault(fault_of_short(bytes.len())));
    }
    let (order, words) = read_words(alloc, bytes)?;
    let (header, body) = split_header(&words);
    if let Some(fault) = header.fault() {
        return Err(SpvError::Fault(fault));
    }
    let insts = read_instructions(alloc, body)?;
    if bytes.len() % 4 != 0 {
        return Err(SpvError::Fault(SpvFault {
            rule: 1,
            word: words.len() as u64,
        }));
    }
    Ok(RawModule {
        order,
        version: header.version,
        generator: header.generator,
        bound: header.bound,
        insts,
    })
}

/// The fault of bytes that are fewer than a header has.
fn fault_of_short(count: usize) -> SpvFault
    ensures { result ≡ short_fault count }
{
    let rule = if 0 < count && count < 4 { 1 } else { 2 };
    SpvFault { rule, word: 0 }
}

/// The byte order and the whole words of bytes.
fn read_words(alloc: Global, bytes: &[u8]) -> Result<(Order, Vec<u32>), SpvError>
    requires { 20 ≤ length bytes.now }
    ensures words { IfOk result (λ read. HasWords bytes.now read.0 read.1.items) }
    ensures fault { IfErr result (IsStrangeError bytes.now) }
{
    let strange = SpvError::Fault(SpvFault { rule: 3, word: 0 });
    let mut words = Vec::new(alloc);
    let mut feed = WordFeed::new();
    match feed.feed(bytes, &mut words) {
        Ok(()) => {}
        Err(WordError::Magic) => return Err(strange),
        Err(WordError::NoMemory) => return Err(SpvError::NoMemory),
    }
    match feed.order() {
        Some(order) => Ok((order, words)),
        None => Err(strange),
    }
}

/// The words of a header behind the magic number.
#[derive(Clone, Copy)]
struct Header {
    version: u32,
    generator: u32,
    bound: u32,
    schema: u32,
}

impl Header {
    /// The first rule of framing that the header breaks.
    fn fault(&self) -> Option<SpvFault>
        ensures { result ≡ header_fault self.now.version self.now.bound self.now.schema }
    {
        if !matches!(self.version, 0x1_0000 | 0x1_0100 | 0x1_0200) {
            return Some(SpvFault { rule: 4, word: 1 });
        }
        if self.bound == 0 || self.bound > MAX_BOUND {
            return Some(SpvFault { rule: 6, word: 3 });
        }
        if self.schema != 0 {
            return Some(SpvFault { rule: 5, word: 4 });
        }
        None
    }
}

/// The header of a module's words, and the words behind it.
fn split_header(words: &[u32]) -> (Header, &[u32])
    requires { 5 ≤ length words.now }
    ensures in_range { All (λ word. word < 2 ^ 32) words.now }
    ensures split { words.now ≡ slice_index words.now 0 ∷ result.0.version ∷ result.0.generator ∷ result.0.bound ∷ result.0.schema ∷ result.1.now }
{
    let header = Header {
        version: words[1],
        generator: words[2],
        bound: words[3],
        schema: words[4],
    };
    (header, &words[5..])
}
