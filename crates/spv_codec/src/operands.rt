ghost use Rattle.std.specs.Prelude.{◌≡◌, []};
ghost use Rattle.spv_codec.specs.Operands.{IsRead, shown_reading, read_word, read_string, read_number, read_plain, read_extra, read_extras, read_enumerant, read_id_and_string, read_pairs, read_cases, read_operand, read_operands, fits_width, is_wide};

use spv_layout::{EnumKind, ExtraOperand, OperandKind, known};
use spv_words::{StringError, words_string};
use std::alloc::Global;

/// Why the operands of an instruction can't be read.
#[derive(Clone, Copy, Debug, PartialEq, Eq, Hash)]
pub enum OperandFault {
    /// There are too few words for the operands of the form, or too many.
    Misfit,
    /// A word is no value of its enumeration, or has a bit that its mask doesn't have.
    Unknown,
    /// The words begin no literal string.
    BadString,
    /// A literal number has bits above the width of its type.
    HighBits,
}

/// Why operands weren't read.
#[derive(Clone, Copy, Debug, PartialEq, Eq, Hash)]
pub enum OperandError {
    NoMemory,
    Fault(OperandFault),
}

impl From<OperandFault> for OperandError {
    ghost use Rattle.std.specs.Prelude.{◌≡◌};
    ghost use Rattle.spv_codec.specs.declared.operands.OperandError.TheVariants.{Fault};

    ghost from_gives = { λ fault error. error ≡ Fault fault };

    fn from(fault: OperandFault) -> OperandError {
        OperandError::Fault(fault)
    }
}

/// Reads the operands of a form from the words of an instruction, from left to right. The first that can't be read gives the fault,
/// and words that are left over are one. A literal number has the width of its integer type, where that is known.
pub fn check_operands(
    alloc: Global,
    kinds: &[OperandKind],
    width: Option<u32>,
    words: &[u32],
) -> Result<(), OperandError>
    ensures { IsRead (λ _. []) result (read_operands width kinds.now words.now) }
{
    let mut rest = words;
    for kind in kinds {
        rest = read_operand(alloc, *kind, width, rest)?;
    }
    if rest.is_empty() {
        Ok(())
    } else {
        Err(OperandError::Fault(OperandFault::Misfit))
    }
}

/// Reads one operand, and gives the words behind it.
fn read_operand(
    alloc: Global,
    kind: OperandKind,
    width: Option<u32>,
    words: &[u32],
) -> Result<&[u32], OperandError>
    ensures { IsRead (λ rest. rest.now) result (read_operand width kind words.now) }
{
    match kind {
        OperandKind::T | OperandKind::R | OperandKind::I | OperandKind::W => Ok(read_word(words)?),
        OperandKind::S => read_string(alloc, words),
        OperandKind::N => Ok(read_number(width, words)?),
        OperandKind::E(kind) => read_enumerant(alloc, kind, words),
        OperandKind::ManyI | OperandKind::ManyW => Ok(&[]),
        OperandKind::ManyII => Ok(read_pairs(words)?),
        OperandKind::ManyNI => Ok(read_cases(width, words)?),
        _ if words.is_empty() => Ok(words),
        OperandKind::OptI => Ok(read_word(words)?),
        OperandKind::OptIS => read_id_and_string(alloc, words),
        OperandKind::OptWW => Ok(read_word(read_word(words)?)?),
        OperandKind::OptE(kind) => read_enumerant(alloc, kind, words),
    }
}

fn read_word(words: &[u32]) -> Result<&[u32], OperandFault>
    ensures { shown_reading result ≡ read_word words.now }
{
    match words {
        [_, rest @ ..] => Ok(rest),
        [] => Err(OperandFault::Misfit),
    }
}

/// Reads a literal string.
fn read_string(alloc: Global, words: &[u32]) -> Result<&[u32], OperandError>
    ensures { IsRead (λ rest. rest.now) result (read_string words.now) }
{
    if words.is_empty() {
        return Err(OperandError::Fault(OperandFault::Misfit));
    }
    match words_string(alloc, words) {
        Ok((_, used)) => Ok(&words[used..]),
        Err(StringError::Bad) => Err(OperandError::Fault(OperandFault::BadString)),
        Err(StringError::NoMemory) => Err(OperandError::NoMemory),
    }
}

/// Reads an id, and a literal string behind it where there is one.
fn read_id_and_string(alloc: Global, words: &[u32]) -> Result<&[u32], OperandError>
    ensures { IsRead (λ rest. rest.now) result (read_id_and_string words.now) }
{
    match words {
        [] => Err(OperandError::Fault(OperandFault::Misfit)),
        [_] => Ok(&[]),
        [_, string @ ..] => read_string(alloc, string),
    }
}

/// Reads a literal number: two words where it has 64 bits, else one.
fn read_number(width: Option<u32>, words: &[u32]) -> Result<&[u32], OperandFault>
    ensures { shown_reading result ≡ read_number width words.now }
{
    let [low, rest @ ..] = words else {
        return Err(OperandFault::Misfit);
    };
    if is_wide(width) {
        return read_word(rest);
    }
    if fits_width(width, *low) {
        Ok(rest)
    } else {
        Err(OperandFault::HighBits)
    }
}

/// Whether a number of this width takes two words.
fn is_wide(width: Option<u32>) -> bool
    ensures { result ≡ is_wide width }
{
    match width {
        Some(width) => width == 64,
        None => false,
    }
}

/// Whether a word has no bits above a width of 8 or 16.
fn fits_width(width: Option<u32>, word: u32) -> bool
    ensures { result ≡ fits_width width word }
{
    match width {
        Some(8) => word < 256,
        Some(16) => word < 65536,
        _ => true,
    }
}

/// Reads an enumerant or a mask, and what follows it.
fn read_enumerant(alloc: Global, kind: EnumKind, words: &[u32]) -> Result<&[u32], OperandError>
    ensures { IsRead (λ rest. rest.now) result (read_enumerant kind words.now) }
{
    let [word, rest @ ..] = words else {
        return Err(OperandError::Fault(OperandFault::Misfit));
    };
    if !known(kind, *word) {
        return Err(OperandError::Fault(OperandFault::Unknown));
    }
    read_extras(alloc, kind.extra_operands(*word), rest)
}

fn read_extras<'a>(
    alloc: Global,
    extras: &[ExtraOperand],
    words: &'a [u32],
) -> Result<&'a [u32], OperandError>
    ensures { IsRead (λ rest. rest.now) result (read_extras extras.now words.now) }
{
    let mut rest = words;
    for extra in extras {
        rest = read_extra(alloc, *extra, rest)?;
    }
    Ok(rest)
}

fn read_extra(alloc: Global, extra: ExtraOperand, words: &[u32]) -> Result<&[u32], OperandError>
    ensures { IsRead (λ rest. rest.now) result (read_extra extra words.now) }
{
    match extra {
        ExtraOperand::W => Ok(read_word(words)?),
        ExtraOperand::S => read_string(alloc, words),
        ExtraOperand::E(kind) => Ok(read_plain(kind, words)?),
    }
}

/// Reads an enumerant that nothing follows.
fn read_plain(kind: EnumKind, words: &[u32]) -> Result<&[u32], OperandFault>
    ensures { shown_reading result ≡ read_plain kind words.now }
{
    let [word, rest @ ..] = words else {
        return Err(OperandFault::Misfit);
    };
    if known(kind, *word) {
        Ok(rest)
    } else {
        Err(OperandFault::Unknown)
    }
}

/// Reads pairs of words up to the end.
fn read_pairs(words: &[u32]) -> Result<&[u32], OperandFault>
    ensures { shown_reading result ≡ read_pairs words.now }
{
    if words.len() % 2 == 0 {
        Ok(&[])
    } else {
        Err(OperandFault::Misfit)
    }
}

/// Reads pairs of a literal number and an id up to the end.
fn read_cases(width: Option<u32>, words: &[u32]) -> Result<&[u32], OperandFault>
    ensures { shown_reading result ≡ read_cases width words.now }
{
    let mut rest = words;
    while !rest.is_empty() {
        rest = read_word(read_number(width, rest)?)?;
    }
    Ok(rest)
}
