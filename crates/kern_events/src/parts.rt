ghost use Rattle.std.specs.Prelude.{◌≡◌, ◌==◌, [], if◌then◌else◌, codes, IfOk};
ghost use Rattle.std.specs.List.{flat_map, list_all};
ghost use Rattle.std.specs.String.{string_bytes};
ghost use Rattle.kern_events.specs.Texts.{init_text, bytes_text, numbers_text, hex_byte, place_text, access_text, order_text, orders_text};

use crate::bytes::Init;
use crate::lanes::Lanes;
use crate::words::{class_word, volatile_word};
use kern_lanes::{Scope, Width};
use kern_types::Class;
use ports::OutOfMemory;
use std::alloc::Global;

/// Where memory is read or written.
#[derive(Clone, Copy)]
pub(crate) struct Target {
    pub(crate) class: Class,
    pub(crate) address: u64,
    pub(crate) width: Width,
}

/// An address space, an address, and the width of what stands there.
#[tactic(auto, unfolding(crate::specs::Texts::place_text))]
pub(crate) fn target_text(alloc: Global, target: Target) -> Result<String, OutOfMemory>
    ensures { IfOk result (λ text. string_bytes text ≡ place_text target.class target.address target.width) }
{
    let (class, address, bits) = (
        class_word(target.class),
        target.address,
        target.width.bits(),
    );
    Ok(format!(in alloc; "{class} {address} i{bits}")?)
}

/// How many lanes there are, and their alignment.
#[tactic(auto, unfolding(crate::specs::Texts::access_text))]
pub(crate) fn access_text(
    alloc: Global,
    lanes: &Lanes,
    align: u64,
    volatile: bool,
) -> Result<String, OutOfMemory>
    ensures { IfOk result (λ text. string_bytes text ≡ access_text lanes.now align volatile) }
{
    let (count, volatile) = (lanes.count(), volatile_word(volatile));
    Ok(format!(in alloc; "{count} align {align}{volatile}")?)
}

/// A scope and a mask.
#[tactic(auto, unfolding(crate::specs::Texts::order_text))]
pub(crate) fn order_text(alloc: Global, scope: Scope, mask: u32) -> Result<String, OutOfMemory>
    ensures { IfOk result (λ text. string_bytes text ≡ order_text scope mask) }
{
    let scope = scope.number();
    Ok(format!(in alloc; "scope {scope} mask {mask}")?)
}

/// A scope and the masks of a compare exchange.
#[tactic(auto, unfolding(crate::specs::Texts::orders_text))]
pub(crate) fn orders_text(
    alloc: Global,
    scope: Scope,
    equal: u32,
    unequal: u32,
) -> Result<String, OutOfMemory>
    ensures { IfOk result (λ text. string_bytes text ≡ orders_text scope equal unequal) }
{
    let scope = scope.number();
    Ok(format!(in alloc; "scope {scope} equal {equal} unequal {unequal}")?)
}

/// The numbers of lanes in decimal, a comma between each two.
pub(crate) fn numbers_text(alloc: Global, lanes: &Lanes) -> Result<String, OutOfMemory>
    ensures { IfOk result (λ text. string_bytes text ≡ numbers_text lanes.now) }
{
    let mut text = String::new(alloc);
    for i in 0..lanes.count() {
        let (comma, number) = (comma_before(i), lanes.at(i));
        let piece = format!(in alloc; "{comma}{number}")?;
        text.push_str(piece.as_str())?;
    }
    Ok(text)
}

/// What stands before a number in a list.
fn comma_before(i: usize) -> &'static str
    ensures { result.now ≡ (if i == 0 then [] else codes ",") }
{
    if i == 0 { "" } else { "," }
}

/// What a variable holds at first: a word, or its bytes in hexadecimal.
#[tactic(auto, unfolding(crate::specs::Texts::bytes_text))]
pub(crate) fn init_text(alloc: Global, init: &Init) -> Result<String, OutOfMemory>
    ensures { IfOk result (λ text. string_bytes text ≡ init_text init.now) }
{
    match init {
        Init::Nothing => Ok(String::from_str(alloc, "none")?),
        Init::Bytes(bytes) => bytes_text(alloc, bytes.as_slice()),
    }
}

/// Bytes in hexadecimal, or a word where all of them are 0.
#[tactic(auto, unfolding(crate::specs::Texts::bytes_text))]
fn bytes_text(alloc: Global, bytes: &[u8]) -> Result<String, OutOfMemory>
    ensures { IfOk result (λ text. string_bytes text ≡ bytes_text bytes.now) }
{
    if are_all_zero(bytes) {
        return Ok(String::from_str(alloc, "zero")?);
    }
    hex_text(alloc, bytes)
}

fn are_all_zero(bytes: &[u8]) -> bool
    ensures { result ≡ list_all (λ byte. byte == 0) bytes.now }
{
    bytes.iter().all(|byte| *byte == 0)
}

/// Bytes in hexadecimal, by two lower-case digits each.
///
/// `OutOfMemory` comes for want of memory alone.
pub fn hex_text(alloc: Global, bytes: &[u8]) -> Result<String, OutOfMemory>
    ensures { IfOk result (λ text. string_bytes text ≡ flat_map hex_byte bytes.now) }
{
    let mut text = String::new(alloc);
    for byte in bytes {
        let digits = byte_text(alloc, *byte)?;
        text.push_str(digits.as_str())?;
    }
    Ok(text)
}

/// A byte in hexadecimal.
fn byte_text(alloc: Global, byte: u8) -> Result<String, OutOfMemory>
    ensures { IfOk result (λ text. string_bytes text ≡ hex_byte byte) }
{
    Ok(format!(in alloc; "{byte:02x}")?)
}
