ghost use Rattle.std.specs.Prelude.{◌≡◌, ◌++◌, ◌∷◌, [], OnOk, nat_lt, slice_get, ◌^◌, true};
ghost use Rattle.std.specs.List.{list_all};
ghost use Rattle.ll_tokens.specs.Forms.{has_form, in_class};
ghost use Rattle.ll_tokens.specs.declared.bytes.ByteClass.TheVariants.{Name as NameByte, NameStart};
ghost use Rattle.ll_tokens.specs.Tokens.{name};
ghost use Rattle.ll_printed.specs.FunctionPhrases.{can_be_written};
ghost use Rattle.ll_phrases.specs.Phrases.{written};
ghost use Rattle.ll_phrases.specs.Texts.{entry_text, global_phrase, label_phrase, local_phrase, name_text, number_text, spelling_text};

use crate::bytes::{push_bytes, push_number, push_quoted};
use ll_tree::{Name, NameText, Spelling};
use ports::OutOfMemory;

/// Writes a name of a value, a block or a struct type.
pub fn push_local(text: &mut Vec<u8>, names: &[NameText], name: Name) -> Result<(), OutOfMemory>
    ensures { OnOk result (text.new.items ≡ text.old.items ++ written (local_phrase names.now name)) }
{
    push_bytes(text, b"%")?;
    push_name(text, names, name.number)
}

/// Writes a name of a function or a variable.
pub fn push_global(text: &mut Vec<u8>, names: &[NameText], name: Name) -> Result<(), OutOfMemory>
    ensures { OnOk result (text.new.items ≡ text.old.items ++ written (global_phrase names.now name)) }
{
    push_bytes(text, b"@")?;
    push_name(text, names, name.number)
}

/// Writes a block's name as a label.
pub fn push_label(text: &mut Vec<u8>, names: &[NameText], number: u32) -> Result<(), OutOfMemory>
    ensures { OnOk result (text.new.items ≡ text.old.items ++ written (label_phrase names.now number)) }
{
    push_name(text, names, number)?;
    push_bytes(text, b":")
}

/// Whether the name has a number in the table, which may be written.
pub fn can_be_written(names: &[NameText], number: u32) -> bool
    ensures { result ≡ can_be_written (slice_get names.now number) }
{
    match names.get(number as usize) {
        Some(entry) => is_in_range(&entry.spelling),
        None => false,
    }
}

fn is_in_range(spelling: &Spelling) -> bool
    ensures { result ≡ elim spelling.now [ Spelling.Number number ↦ nat_lt number (2 ^ 31) | Spelling.Text bytes ↦ true ] }
{
    match spelling {
        Spelling::Number(number) => *number < 1 << 31,
        Spelling::Text(_) => true,
    }
}

fn push_name(text: &mut Vec<u8>, names: &[NameText], number: u32) -> Result<(), OutOfMemory>
    ensures { OnOk result (text.new.items ≡ text.old.items ++ number_text names.now number) }
{
    match names.get(number as usize) {
        Some(entry) => push_spelling(text, &entry.spelling),
        None => Ok(()),
    }
}

fn push_spelling(text: &mut Vec<u8>, spelling: &Spelling) -> Result<(), OutOfMemory>
    ensures { OnOk result (text.new.items ≡ text.old.items ++ spelling_text spelling.now) }
{
    match spelling {
        Spelling::Number(number) => push_number(text, u64::from(*number)),
        Spelling::Text(bytes) => push_name_text(text, bytes.as_slice()),
    }
}

fn push_name_text(text: &mut Vec<u8>, bytes: &[u8]) -> Result<(), OutOfMemory>
    ensures { OnOk result (text.new.items ≡ text.old.items ++ name_text bytes.now) }
{
    if stands_unquoted(bytes) {
        push_bytes(text, bytes)
    } else {
        push_quoted(text, bytes)
    }
}

/// Whether a name may stand without quotes.
#[tactic(auto, unfolding(ll_tokens::specs::Forms::has_form))]
fn stands_unquoted(bytes: &[u8]) -> bool
    ensures { result ≡ has_form name bytes.now }
{
    match bytes {
        [first, rest @ ..] => begins_name(*first) && continue_name(rest),
        [] => false,
    }
}

fn begins_name(byte: u8) -> bool
    ensures { result ≡ in_class NameStart byte }
{
    byte.is_ascii_alphabetic() || b"-$._".contains(&byte)
}

fn continue_name(bytes: &[u8]) -> bool
    ensures { result ≡ list_all (in_class NameByte) bytes.now }
{
    bytes.iter().all(|byte| continues_name(*byte))
}

fn continues_name(byte: u8) -> bool
    ensures { result ≡ in_class NameByte byte }
{
    byte.is_ascii_alphanumeric() || b"-$._".contains(&byte)
}
