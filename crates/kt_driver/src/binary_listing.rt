ghost use Rattle.std.specs.Prelude.{◌≡◌, ◌<◌, ◌^◌, [], length, IfOk, IfErr, string_bytes, unwrap_or};
ghost use Rattle.spv_codec.specs.Framing.{IsFramingError};
ghost use Rattle.spv_layout.specs.Forms.{name_at};
ghost use Rattle.kt_driver.specs.BinaryListings.{IsBinaryListing, binary_lines, order_line, header_line, inst_line, words_text, word_text};

use kern_events::hex_text;
use kernel_translation::module_of;
use ports::{OutOfMemory, SpvError};
use spv_codec::{RawInst, RawModule};
use spv_layout::name_of;
use spv_words::Order;
use std::alloc::Global;

/// The lines that list a binary: its byte order, the words of its header, and of each instruction the word where it begins, its name
/// and its operand words.
///
/// It fails by the rule of framing that the bytes break first.
pub fn binary_listing(alloc: Global, input: &[u8]) -> Result<String, SpvError>
    requires { length input.now < 2 ^ 63 }
    ensures lines { IfOk result (λ lines. IsBinaryListing input.now (string_bytes lines)) }
    ensures fault { IfErr result (IsFramingError input.now) }
{
    let raw = module_of(alloc, input)?;
    Ok(raw_lines(alloc, &raw)?)
}

/// The lines of a module.
fn raw_lines(alloc: Global, raw: &RawModule) -> Result<String, OutOfMemory>
    ensures { IfOk result (λ lines. string_bytes lines ≡ binary_lines raw.now) }
{
    let mut lines = String::from_str(alloc, order_line(raw.order))?;
    lines.push_str(&header_line(alloc, raw)?)?;
    for inst in raw.insts.as_slice() {
        lines.push_str(&inst_line(alloc, inst)?)?;
    }
    Ok(lines)
}

fn order_line(order: Order) -> &'static str
    ensures { result.now ≡ order_line order }
{
    match order {
        Order::Little => "order little\n",
        Order::Big => "order big\n",
    }
}

/// The line of a module's header.
fn header_line(alloc: Global, raw: &RawModule) -> Result<String, OutOfMemory>
    ensures { IfOk result (λ line. string_bytes line ≡ header_line raw.now) }
{
    let words = words_text(alloc, &[raw.version, raw.generator, raw.bound, 0])?;
    Ok(format!(in alloc; "header{words}\n")?)
}

/// The line of an instruction.
fn inst_line(alloc: Global, inst: &RawInst) -> Result<String, OutOfMemory>
    ensures { IfOk result (λ line. string_bytes line ≡ inst_line inst.now) }
{
    let place = inst.place;
    let name = name_text(inst.op);
    let words = words_text(alloc, inst.operands.as_slice())?;
    Ok(format!(in alloc; "{place}: {name}{words}\n")?)
}

/// The name of an opcode that has one.
fn name_text(op: u16) -> &'static str
    ensures { result.now ≡ unwrap_or (name_at op) [] }
{
    match name_of(op) {
        Some(name) => name,
        None => "",
    }
}

/// Words, a blank before each.
#[tactic(auto, unfolding(crate::specs::BinaryListings::words_text))]
fn words_text(alloc: Global, words: &[u32]) -> Result<String, OutOfMemory>
    ensures { IfOk result (λ text. string_bytes text ≡ words_text words.now) }
{
    let mut text = String::new(alloc);
    for word in words {
        text.push_str(&word_text(alloc, *word)?)?;
    }
    Ok(text)
}

/// A word behind a blank, by eight lower-case hexadecimal digits.
#[tactic(auto, unfolding(crate::specs::BinaryListings::word_text))]
fn word_text(alloc: Global, word: u32) -> Result<String, OutOfMemory>
    ensures { IfOk result (λ text. string_bytes text ≡ word_text word) }
{
    let digits = hex_text(alloc, &word.to_be_bytes())?;
    Ok(format!(in alloc; " {digits}")?)
}
