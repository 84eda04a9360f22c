ghost use Rattle.std.specs.Prelude.{◌≡◌, IfOk, string_bytes};
ghost use Rattle.kt_driver.specs.Refusals.{fault_of, fault_line, outside_fault, refusal_line, too_long_fault};

use crate::request::Format;
use ports::{LlFault, OutOfMemory, SpvFault};
use std::alloc::Global;

/// Why an input is refused.
#[derive(Clone, Copy, Debug, PartialEq, Eq, Hash)]
pub enum Refusal {
    /// The input, which has this format, is longer than an input may be.
    TooLong(Format),
    /// The name at this byte is used and defined nowhere.
    UndefinedName { byte: u64 },
    /// The input, which has this format, is outside the covered subset in another way.
    Outside(Format),
    /// The text isn't of the grammar, or can't be cut into tokens where only these are asked for.
    Unreadable(LlFault),
    /// The bytes break a rule of a binary's framing.
    Misframed(SpvFault),
    /// The module that the bytes spell breaks a rule of its sections, ids or functions.
    Invalid(SpvFault),
}

/// A rule that an input breaks, and where.
#[derive(Clone, Copy, Debug, PartialEq, Eq, Hash)]
pub enum Fault {
    /// A rule of text, at a byte.
    Text(LlFault),
    /// A rule of binaries, at a word.
    Binary(SpvFault),
}

impl Refusal {
    /// The rule that is broken, and where.
    pub fn fault(self) -> Fault
        ensures { result ≡ fault_of self }
    {
        match self {
            Refusal::TooLong(format) => too_long(format),
            Refusal::UndefinedName { byte } => Fault::Text(LlFault { rule: 20, byte }),
            Refusal::Outside(format) => outside(format),
            Refusal::Unreadable(fault) => Fault::Text(fault),
            Refusal::Misframed(fault) | Refusal::Invalid(fault) => Fault::Binary(fault),
        }
    }

    /// The line that tells it, with its line feed.
    pub fn line(self, alloc: Global) -> Result<String, OutOfMemory>
        ensures { IfOk result (λ line. string_bytes line ≡ refusal_line self) }
    {
        self.fault().line(alloc)
    }
}

/// The fault of an input that is too long, at its first byte or word beyond the limit.
fn too_long(format: Format) -> Fault
    ensures { result ≡ too_long_fault format }
{
    match format {
        Format::Llvm => Fault::Text(LlFault {
            rule: 15,
            byte: 16_777_216,
        }),
        Format::Spirv => Fault::Binary(SpvFault {
            rule: 15,
            word: 4_194_304,
        }),
    }
}

/// The fault of an input that is outside the covered subset.
fn outside(format: Format) -> Fault
    ensures { result ≡ outside_fault format }
{
    match format {
        Format::Llvm => Fault::Text(LlFault { rule: 90, byte: 0 }),
        Format::Spirv => Fault::Binary(SpvFault { rule: 90, word: 0 }),
    }
}

impl Fault {
    /// The line that tells it, with its line feed.
    fn line(self, alloc: Global) -> Result<String, OutOfMemory>
        ensures { IfOk result (λ line. string_bytes line ≡ fault_line self) }
    {
        match self {
            Fault::Text(fault) => text_line(alloc, fault),
            Fault::Binary(fault) => binary_line(alloc, fault),
        }
    }
}

fn text_line(alloc: Global, fault: LlFault) -> Result<String, OutOfMemory>
    ensures { IfOk result (λ line. string_bytes line ≡ fault_line (Fault.Text fault)) }
{
    let LlFault { rule, byte } = fault;
    Ok(format!(in alloc; "refused: rule L{rule} at byte {byte}\n")?)
}

fn binary_line(alloc: Global, fault: SpvFault) -> Result<String, OutOfMemory>
    ensures { IfOk result (λ line. string_bytes line ≡ fault_line (Fault.Binary fault)) }
{
    let SpvFault { rule, word } = fault;
    Ok(format!(in alloc; "refused: rule S{rule} at word {word}\n")?)
}
