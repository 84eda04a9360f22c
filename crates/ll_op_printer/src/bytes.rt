ghost use Rattle.std.specs.Prelude.{◌≡◌, ◌++◌, ◌∷◌, ◌<◌, [], OnOk, decimal, flat_map};
ghost use Rattle.std.specs.Fmt.{signed_decimal};
ghost use Rattle.ll_phrases.specs.Texts.{escaped_byte, hex_digit, is_escaped, quoted};
ghost use Rattle.ll_op_printer.specs.Parts.{separator};

use itoa::Buffer;
use ports::OutOfMemory;

/// Writes the bytes.
pub fn push_bytes(text: &mut Vec<u8>, bytes: &[u8]) -> Result<(), OutOfMemory>
    ensures { OnOk result (text.new.items ≡ text.old.items ++ bytes.now) }
{
    text.extend_from_slice(bytes)?;
    Ok(())
}

/// Writes the text.
pub fn push_str(text: &mut Vec<u8>, word: &str) -> Result<(), OutOfMemory>
    ensures { OnOk result (text.new.items ≡ text.old.items ++ word.now) }
{
    push_bytes(text, word.as_bytes())
}

/// Writes the number in digits.
pub fn push_number(text: &mut Vec<u8>, number: u64) -> Result<(), OutOfMemory>
    ensures { OnOk result (text.new.items ≡ text.old.items ++ decimal number) }
{
    let mut buffer = Buffer::new();
    push_bytes(text, buffer.format(number).as_bytes())
}

/// Writes the number in digits, behind `-` where it is below 0.
pub fn push_signed(text: &mut Vec<u8>, number: i128) -> Result<(), OutOfMemory>
    ensures { OnOk result (text.new.items ≡ text.old.items ++ signed_decimal number) }
{
    let mut buffer = Buffer::new();
    push_bytes(text, buffer.format(number).as_bytes())
}

/// Writes a comma and a blank before each item of a list but the first.
pub fn push_separator(text: &mut Vec<u8>, place: usize) -> Result<(), OutOfMemory>
    ensures { OnOk result (text.new.items ≡ text.old.items ++ separator place) }
{
    if place == 0 {
        Ok(())
    } else {
        push_bytes(text, b", ")
    }
}

/// Writes the bytes between quotes, with `\` and two hexadecimal digits where one can't stand there as it is.
pub fn push_quoted(text: &mut Vec<u8>, bytes: &[u8]) -> Result<(), OutOfMemory>
    ensures { OnOk result (text.new.items ≡ text.old.items ++ quoted bytes.now) }
{
    push_bytes(text, b"\"")?;
    push_escaped(text, bytes)?;
    push_bytes(text, b"\"")
}

fn push_escaped(text: &mut Vec<u8>, bytes: &[u8]) -> Result<(), OutOfMemory>
    ensures { OnOk result (text.new.items ≡ text.old.items ++ flat_map escaped_byte bytes.now) }
{
    for byte in bytes {
        push_byte(text, *byte)?;
    }
    Ok(())
}

fn push_byte(text: &mut Vec<u8>, byte: u8) -> Result<(), OutOfMemory>
    ensures { OnOk result (text.new.items ≡ text.old.items ++ escaped_byte byte) }
{
    if is_escaped(byte) {
        push_bytes(text, &[b'\\', hex_digit(byte / 16), hex_digit(byte % 16)])
    } else {
        push_bytes(text, &[byte])
    }
}

fn is_escaped(byte: u8) -> bool
    ensures { result ≡ is_escaped byte }
{
    byte < b' ' || byte > b'~' || byte == b'"' || byte == b'\\'
}

fn hex_digit(number: u8) -> u8
    requires { number < 16 }
    ensures { result ≡ hex_digit number }
{
    if number < 10 {
        b'0' + number
    } else {
        b'A' - 10 + number
    }
}
