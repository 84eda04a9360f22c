ghost use Rattle.std.specs.Prelude.{◌≡◌, IfOk};
ghost use Rattle.spv_words.specs.Words.{word_bytes, words_bytes};

use ports::OutOfMemory;
use std::alloc::Global;

/// The first word of each module, which tells its byte order (SPIR-V 1.2, 3.1, "Magic Number").
pub const MAGIC: u32 = 0x0723_0203;

/// The order in which the bytes of a word follow one another.
#[derive(Clone, Copy, Debug, PartialEq, Eq, Hash)]
pub enum Order {
    /// The lowest byte first.
    Little,
    /// The highest byte first.
    Big,
}

/// The four bytes of a word, in this order (SPIR-V 1.2, 2.3).
pub fn put_word(order: Order, word: u32) -> [u8; 4]
    ensures { result ≡ word_bytes order word }
{
    match order {
        Order::Little => word.to_le_bytes(),
        Order::Big => word.to_be_bytes(),
    }
}

/// The word of four bytes, in this order.
pub fn get_word(order: Order, bytes: [u8; 4]) -> u32
    ensures { word_bytes order result ≡ bytes }
{
    match order {
        Order::Little => u32::from_le_bytes(bytes),
        Order::Big => u32::from_be_bytes(bytes),
    }
}

/// The bytes of words that follow one another, in this order.
pub fn put_words(alloc: Global, order: Order, words: &[u32]) -> Result<Vec<u8>, OutOfMemory>
    ensures { IfOk result (λ bytes. bytes.items ≡ words_bytes order words.now) }
{
    let mut bytes = Vec::new(alloc);
    for word in words {
        bytes.extend_from_slice(&put_word(order, *word))?;
    }
    Ok(bytes)
}
