ghost use Rattle.std.specs.Prelude.{◌≡◌, ◌≢◌, ℕ, ◌+◌, ◌-◌, ◌^◌, ◌<◌, ◌≤◌, ◌++◌, min, length, vec_len, vec_capacity, take, drop, IfOk, OnOk, OnErr};
ghost use Rattle.std.specs.Io.KnownBytes.{IsAtEnd, prepend_known};
ghost use Rattle.ports.specs.Causes.{HasCause};
ghost use Rattle.ports.specs.Streams.{Gives, GivesSome, GivesCount, Takes, TakesPrefix};
ghost use Rattle.ports.specs.Transfers.{ReadHasCause};

use crate::copies::append_front;
use crate::sink::Sink;
use crate::source::{Failed, Source};
use std::alloc::{AllocError, Global};
use std::error::Error;
use std::fmt;

/// How many bytes one read asks for at most.
const CHUNK: usize = 65536;

/// Why not all of a source was read.
#[derive(Clone, Copy, Debug, PartialEq, Eq, Hash)]
pub enum ReadAllError {
    NoMemory,
    /// The source failed.
    Failed,
    /// The source gave more bytes than the limit.
    TooLong,
}

impl fmt::Display for ReadAllError {
    fn fmt<W: fmt::Write>(&self, f: &mut fmt::Formatter<W>) -> fmt::Result {
        f.write_str(match self {
            ReadAllError::NoMemory => "out of memory",
            ReadAllError::Failed => "the source failed",
            ReadAllError::TooLong => "the source gave more than the limit",
        })
    }
}

impl Error for ReadAllError {}

impl From<AllocError> for ReadAllError {
    ghost use Rattle.ports.specs.declared.transfer.ReadAllError.TheVariants.{NoMemory};

    ghost from_gives = { λ _ error. error ≡ NoMemory };

    fn from(_refused: AllocError) -> ReadAllError {
        ReadAllError::NoMemory
    }
}

impl From<Failed> for ReadAllError {
    ghost use Rattle.ports.specs.declared.transfer.ReadAllError.TheVariants.{Failed};

    ghost from_gives = { λ _ error. error ≡ Failed };

    fn from(_failed: Failed) -> ReadAllError {
        ReadAllError::Failed
    }
}

/// A sink failed before it had taken all bytes.
#[derive(Clone, Copy, Debug, PartialEq, Eq, Hash)]
pub struct WriteFault;

impl fmt::Display for WriteFault {
    fn fmt<W: fmt::Write>(&self, f: &mut fmt::Formatter<W>) -> fmt::Result {
        f.write_str("the sink failed")
    }
}

impl Error for WriteFault {}

impl From<Failed> for WriteFault {
    fn from(_failed: Failed) -> WriteFault {
        WriteFault
    }
}

/// Reads once into `piece` and appends what came, for which `bytes` has room.
fn append_read<S: Source>(
    src: &mut S,
    piece: &mut [u8],
    bytes: &mut Vec<u8>,
) -> Result<usize, ReadAllError>
    requires some { 0 < length piece.old }
    requires room { vec_len bytes.old + length piece.old ≤ vec_capacity bytes.old }

    ensures bound { IfOk result (λ n. n ≤ length piece.old) }
    ensures counts { IfOk result (λ n. vec_len bytes.new ≡ vec_len bytes.old + n) }
    ensures end { IfOk result (λ n. n ≡ 0 → IsAtEnd (S.left src.new)) }
    ensures gathered { OnOk result (prepend_known bytes.old.items (S.left src.old) ≡ prepend_known bytes.new.items (S.left src.new)) }

    ensures source_stays { OnErr result (S.left src.new ≡ S.left src.old) }
    ensures bytes_stay { OnErr result (bytes.new.items ≡ bytes.old.items) }
    ensures fits { OnErr result (result ≡ Err ReadAllError.Failed) }
    ensures cause { ReadHasCause (S.faults src.old) (S.faults src.new) result }
{
    let count = src.read(piece)?;
    append_front(bytes, piece, count);
    Ok(count)
}

/// Reads once, at most `most` bytes, and appends what came. An `Err` leaves both as they were.
fn read_more<S: Source>(
    src: &mut S,
    most: usize,
    bytes: &mut Vec<u8>,
) -> Result<usize, ReadAllError>
    requires { 0 < most }

    ensures bound { IfOk result (λ n. n ≤ most) }
    ensures counts { IfOk result (λ n. vec_len bytes.new ≡ vec_len bytes.old + n) }
    ensures end { IfOk result (λ n. n ≡ 0 → IsAtEnd (S.left src.new)) }
    ensures gathered { OnOk result (prepend_known bytes.old.items (S.left src.old) ≡ prepend_known bytes.new.items (S.left src.new)) }

    ensures source_stays { OnErr result (S.left src.new ≡ S.left src.old) }
    ensures bytes_stay { OnErr result (bytes.new.items ≡ bytes.old.items) }
    ensures short { result ≢ Err ReadAllError.TooLong }
    ensures cause { ReadHasCause (S.faults src.old) (S.faults src.new) result }
{
    let mut piece = [0; CHUNK];
    let wanted = most.min(CHUNK);
    bytes.reserve(wanted)?;
    append_read(src, &mut piece[..wanted], bytes)
}

/// All bytes of a source up to its end, at most `limit` of them.
///
/// `Failed` comes only where the source's count of faults rose in this call. `TooLong` comes exactly where no call failed and
/// the source gave more than `limit` bytes, of which it has then given one more than `limit`. At every error the source has
/// given some bytes, in order from the first that was left.
pub fn read_all<S: Source>(alloc: Global, src: &mut S, limit: u64) -> Result<Vec<u8>, ReadAllError>
    requires { limit < 2 ^ 64 - 1 }

    ensures bytes { IfOk result (λ bytes. Gives (S.left src.old) (S.left src.new) bytes.items) }
    ensures end { OnOk result (IsAtEnd (S.left src.new)) }
    ensures within { IfOk result (λ bytes. vec_len bytes ≤ limit) }

    ensures too_long { result ≡ Err ReadAllError.TooLong → GivesCount (limit + 1) (S.left src.old) (S.left src.new) }
    ensures prefix { OnErr result (GivesSome (S.left src.old) (S.left src.new)) }
    ensures cause { ReadHasCause (S.faults src.old) (S.faults src.new) result }
{
    let mut bytes = Vec::new(alloc);
    while bytes.len() as u64 <= limit {
        let room = limit as usize - bytes.len() + 1;
        if read_more(src, room, &mut bytes)? == 0 {
            return Ok(bytes);
        }
    }
    Err(ReadAllError::TooLong)
}

/// Writes once what stands behind the first `at` bytes, and answers how many bytes the sink took.
fn write_more<K: Sink>(sink: &mut K, bytes: &[u8], at: usize) -> Result<usize, WriteFault>
    requires { at < length bytes.now }

    ensures some { IfOk result (λ n. 0 < n) }
    ensures bound { IfOk result (λ n. at + n ≤ length bytes.now) }
    ensures bytes { IfOk result (λ n. Takes (K.held sink.old) (K.held sink.new) (take n (drop at bytes.now))) }
    ensures stays { OnErr result (K.held sink.new ≡ K.held sink.old) }
    ensures cause { HasCause (K.faults sink.old) (K.faults sink.new) result }
{
    let count = sink.write(&bytes[at..])?;
    Ok(count)
}

/// Writes all of `bytes`, and takes no memory.
///
/// `WriteFault` comes only where the sink's count of faults rose in this call, and then the sink took a prefix of `bytes`.
pub fn write_all<K: Sink>(sink: &mut K, bytes: &[u8]) -> Result<(), WriteFault>
    ensures all { OnOk result (Takes (K.held sink.old) (K.held sink.new) bytes.now) }
    ensures prefix { OnErr result (TakesPrefix (K.held sink.old) (K.held sink.new) bytes.now) }
    ensures cause { HasCause (K.faults sink.old) (K.faults sink.new) result }
{
    let mut at = 0;
    while at < bytes.len() {
        at += write_more(sink, bytes, at)?;
    }
    Ok(())
}
