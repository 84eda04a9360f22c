mod pairs_of_rules;
mod sections;

use ports::{SpvError, SpvFault};
use spv_build::build;
use spv_codec::SpvDecoder;
use spv_words::{Order, put_words};
use std::alloc::Global;

/// The rule that is told of a binary whose words stand behind one another, and the word where, or nothing where it is a module's.
fn told(alloc: Global, words: &[u32]) -> Result<Option<(u16, u64)>, SpvError> {
    let bytes = put_words(alloc, Order::Little, words)?;
    let mut decoder = SpvDecoder::new(alloc);
    decoder.feed(&bytes)?;
    match build(alloc, decoder.finish()?) {
        Ok(_module) => Ok(None),
        Err(SpvError::Fault(SpvFault { rule, word })) => Ok(Some((rule, word))),
        Err(SpvError::NoMemory) => Err(SpvError::NoMemory),
    }
}
