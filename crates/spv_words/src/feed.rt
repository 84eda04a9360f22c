ghost use Rattle.std.specs.Prelude.{◌≡◌, ◌+◌, ◌*◌, ◌/◌, ◌^◌, ◌<◌, ◌≤◌, ◌↔◌, ◌++◌, [], ◌∷◌, length, take, vec_len, vec_capacity, Some, None, IfOk, OnOk, OnErr, Err};
ghost use Rattle.spv_words.specs.Feeds.{FeedsInto, IsNotMagic, Pushed, Takes, magic_order, order_after};

use crate::words::{MAGIC, Order, get_word, put_word};
use std::alloc::AllocError;
use std::error::Error;
use std::fmt;
use std::marker::Model;

/// Why bytes gave no words.
#[derive(Clone, Copy, Debug, PartialEq, Eq, Hash)]
pub enum WordError {
    NoMemory,
    /// The first four bytes are the magic number in neither order.
    Magic,
}

impl fmt::Display for WordError {
    fn fmt<W: fmt::Write>(&self, f: &mut fmt::Formatter<W>) -> fmt::Result {
        f.write_str(match self {
            WordError::NoMemory => "out of memory",
            WordError::Magic => "the first word is the magic number in neither order",
        })
    }
}

impl Error for WordError {}

impl From<AllocError> for WordError {
    ghost use Rattle.spv_words.specs.declared.feed.WordError.TheVariants.{NoMemory};

    ghost from_gives = { λ _ error. error ≡ NoMemory };

    fn from(_refused: AllocError) -> WordError {
        WordError::NoMemory
    }
}

/// Makes words of bytes that come in pieces of any length. It learns the byte order from the first four bytes, and holds the
/// bytes of a word that isn't whole, three at most.
#[derive(Drop)]
pub struct WordFeed {
    order: Option<Order>,
    count: u64,
    held: [u8; 4],
    held_len: usize,
}

impl Model for WordFeed {
    ghost use Rattle.std.specs.Prelude.{◌<◌, take};
    ghost use Rattle.spv_words.specs.Feeds.{FeedState};

    ghost Value = { FeedState };

    ghost view = { λ f. record { order = f.order; count = f.count; rest = take f.held_len f.held } };

    ghost invariant = { λ f. f.held_len < 4 };
}

impl WordFeed {
    /// A feed that has been given no bytes.
    pub fn new() -> WordFeed
        ensures order { result.order ≡ None }
        ensures count { result.count ≡ 0 }
        ensures rest { result.rest ≡ [] }
    {
        WordFeed {
            order: None,
            count: 0,
            held: [0; 4],
            held_len: 0,
        }
    }

    /// The byte order, once four bytes have come.
    pub fn order(&self) -> Option<Order>
        ensures { result ≡ self.now.order }
    {
        self.order
    }

    /// Takes a piece, and appends the words that are whole with it. All pieces together have fewer than 2^64 bytes.
    ///
    /// `Magic` comes exactly where the first four bytes are the magic number in neither order. An error changes nothing.
    pub fn feed(&mut self, piece: &[u8], out: &mut Vec<u32>) -> Result<(), WordError>
        requires { 4 * self.old.count + length self.old.rest + length piece.now < 2 ^ 64 }
        ensures fed { OnOk result (FeedsInto self.old piece.now self.new out.old.items out.new.items) }
        ensures bytes { OnOk result (4 * self.new.count + length self.new.rest
            ≡ 4 * self.old.count + length self.old.rest + length piece.now) }
        ensures magic { (result ≡ Err WordError.Magic) ↔ IsNotMagic self.old piece.now }
        ensures feed_stays { OnErr result (self.new ≡ self.old) }
        ensures out_stays { OnErr result (out.new.items ≡ out.old.items) }
    {
        let order = order_with(self.order, &self.held, self.held_len, piece)?;
        let words = (self.held_len + piece.len()) / 4;
        out.reserve(words)?;
        self.held_len = take_bytes(order, &mut self.held, self.held_len, piece, out);
        self.order = order;
        self.count += words as u64;
        Ok(())
    }

    /// The number of the word that the bytes behind the last whole word begin, if there are such bytes.
    pub fn finish(&self) -> Option<u64>
        ensures whole { self.now.rest ≡ [] → result ≡ None }
        ensures incomplete { 0 < length self.now.rest → result ≡ Some self.now.count }
    {
        if self.held_len == 0 {
            None
        } else {
            Some(self.count)
        }
    }
}

/// The order in which four bytes are the magic number.
fn order_of_magic(bytes: [u8; 4]) -> Option<Order>
    ensures { result ≡ magic_order bytes }
{
    if bytes == put_word(Order::Little, MAGIC) {
        Some(Order::Little)
    } else if bytes == put_word(Order::Big, MAGIC) {
        Some(Order::Big)
    } else {
        None
    }
}

/// Takes the bytes of a piece behind those that are held, and answers how many are held then. No order is known only where they
/// make no word whole.
fn take_bytes(
    order: Option<Order>,
    held: &mut [u8; 4],
    held_len: usize,
    piece: &[u8],
    out: &mut Vec<u32>,
) -> usize
    requires held { held_len < 4 }
    requires unknown { order ≡ None → held_len + length piece.now < 4 }
    requires room { vec_len out.old + (held_len + length piece.now) / 4 ≤ vec_capacity out.old }

    ensures held { result < 4 }
    ensures takes { Takes order (take held_len held.old ++ piece.now) out.old.items out.new.items (take result held.new) }
{
    match order {
        Some(order) => push_bytes(order, held, held_len, piece, out),
        None => hold_bytes(held, held_len, piece),
    }
}

/// Takes one byte behind those that are held. Where they are a whole word, it is appended, and nothing is held.
fn push_byte(
    order: Order,
    held: &mut [u8; 4],
    held_len: usize,
    byte: u8,
    out: &mut Vec<u32>,
) -> usize
    requires held { held_len < 4 }
    requires room { vec_len out.old + (held_len + 1) / 4 ≤ vec_capacity out.old }

    ensures held { result < 4 }
    ensures pushed { Pushed order (take held_len held.old ++ byte ∷ []) out.old.items out.new.items (take result held.new) }
    ensures counted { 4 * vec_len out.new + result ≡ 4 * vec_len out.old + held_len + 1 }
    ensures capacity { vec_capacity out.new ≡ vec_capacity out.old }
{
    held[held_len] = byte;
    if held_len < 3 {
        return held_len + 1;
    }
    out.push_reserved(get_word(order, *held));
    0
}

/// Takes the bytes of a piece behind those that are held, and answers how many are held then.
fn push_bytes(
    order: Order,
    held: &mut [u8; 4],
    held_len: usize,
    piece: &[u8],
    out: &mut Vec<u32>,
) -> usize
    requires held { held_len < 4 }
    requires room { vec_len out.old + (held_len + length piece.now) / 4 ≤ vec_capacity out.old }

    ensures held { result < 4 }
    ensures pushed { Pushed order (take held_len held.old ++ piece.now) out.old.items out.new.items (take result held.new) }
    ensures counted { 4 * vec_len out.new + result ≡ 4 * vec_len out.old + held_len + length piece.now }
{
    let mut len = held_len;
    for byte in piece {
        len = push_byte(order, held, len, *byte, out);
    }
    len
}

/// Holds the bytes of a piece that does not make a word whole, and answers how many are held then.
fn hold_bytes(held: &mut [u8; 4], held_len: usize, piece: &[u8]) -> usize
    requires { held_len + length piece.now < 4 }
    ensures len { result ≡ held_len + length piece.now }
    ensures bytes { take result held.new ≡ take held_len held.old ++ piece.now }
{
    let len = held_len + piece.len();
    held[held_len..len].copy_from_slice(piece);
    len
}

/// The first four bytes of those that are held and a piece.
fn first_four(held: &[u8; 4], held_len: usize, piece: &[u8]) -> [u8; 4]
    requires held { held_len < 4 }
    requires enough { 4 ≤ held_len + length piece.now }
    ensures { result ≡ take 4 (take held_len held.now ++ piece.now) }
{
    let mut bytes = *held;
    bytes[held_len..].copy_from_slice(&piece[..4 - held_len]);
    bytes
}

/// The order that is known once a piece has come.
fn order_with(
    order: Option<Order>,
    held: &[u8; 4],
    held_len: usize,
    piece: &[u8],
) -> Result<Option<Order>, WordError>
    requires { held_len < 4 }
    ensures known { IfOk result (λ known. known ≡ order_after order (take held_len held.now ++ piece.now)) }
    ensures unknown { IfOk result (λ known. known ≡ None → (order ≡ None) × (held_len + length piece.now < 4)) }
    ensures magic { OnErr result (result ≡ Err WordError.Magic) }
    ensures neither { OnErr result ((order ≡ None) × (4 ≤ held_len + length piece.now)
        × (magic_order (take 4 (take held_len held.now ++ piece.now)) ≡ None)) }
{
    if order.is_some() || held_len + piece.len() < 4 {
        return Ok(order);
    }
    match order_of_magic(first_four(held, held_len, piece)) {
        Some(known) => Ok(Some(known)),
        None => Err(WordError::Magic),
    }
}
