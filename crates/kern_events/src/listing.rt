ghost use Rattle.std.specs.Prelude.{◌≡◌, IfOk, IfErr, Some};
ghost use Rattle.kern_events.specs.NumberLists.{numbers_in, IsFaultOf};

use crate::numbers::{NumbersError, with_digit};
use std::alloc::Global;

/// The numbers that a text lists: one or more decimal numbers below 2^64, with one comma between.
/// `Number` comes exactly where the text is no such list.
pub fn read_numbers(alloc: Global, text: &str) -> Result<Vec<u64>, NumbersError>
    ensures numbers { IfOk result (λ numbers. numbers_in text.now ≡ Some numbers.items) }
    ensures fault { IfErr result (IsFaultOf text.now) }
{
    let bytes = text.as_bytes();
    let mut numbers = Vec::new(alloc);
    let mut begun = None;
    for (place, byte) in bytes.iter().enumerate() {
        if *byte == b',' {
            let Some(number) = begun else {
                return Err(NumbersError::Number { place });
            };
            numbers.push(number)?;
            begun = None;
        } else {
            let Some(number) = with_digit(begun, *byte) else {
                return Err(NumbersError::Number { place });
            };
            begun = Some(number);
        }
    }
    let Some(number) = begun else {
        return Err(NumbersError::Number { place: bytes.len() });
    };
    numbers.push(number)?;
    Ok(numbers)
}
