mod compiled;
mod functions;
mod items;
mod large;
mod operations;
mod values;

use ll_printer::print;
use ll_texts::parse;
use ports::LlError;
use std::alloc::Global;
use std::test::Fail;

/// The bytes that a module's text is printed as, or none where it is no module's.
fn printed(alloc: Global, text: &str) -> Result<Vec<u8>, Fail> {
    match parse(alloc, text) {
        Ok(module) => Ok(print(alloc, &module)?),
        Err(LlError::Fault(_)) => Ok(Vec::new(alloc)),
        Err(LlError::NoMemory) => Ok(Vec::new(alloc)),
    }
}

/// The first text of a table that isn't printed as it should be, if there is one. A row has a text, and what its module is printed as,
/// which is printed as itself.
fn misprinted(alloc: Global, rows: &[(&str, &str)]) -> Result<Option<String>, Fail> {
    for (text, wanted) in rows {
        let first = printed(alloc, text)?;
        let again = printed(alloc, wanted)?;
        if first.as_slice() != wanted.as_bytes() || again.as_slice() != wanted.as_bytes() {
            return Ok(Some(String::from_utf8_lossy(alloc, first.as_slice())?));
        }
    }
    Ok(None)
}
