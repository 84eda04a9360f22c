ghost use Rattle.std.specs.Prelude.{◌≡◌, ◌≢◌, ◌⊎◌, ℕ, List, IsSome, Some};
ghost use Rattle.ports.specs.Causes.{Rose};
ghost use Rattle.ports.specs.Streams.{GivesSome, Takes};
ghost use Rattle.kt_driver.specs.Requests.{request_of, texts_of};
ghost use Rattle.kt_driver.specs.declared.refusals.Refusal.{Refusal};
ghost use Rattle.kt_driver.specs.Runs.{usage_line, IsFree, IsRefusedFor, TellsRefusal, TakesAnswer, FailsToTell, FailsToAnswer};

use crate::reply::{Reply, ReplyError, reply_to};
use crate::request::read_request;
use crate::status::Status;
use ports::{Sink, Source, WriteFault, write_all};
use std::alloc::Global;

/// The line that tells how the words of a command line begin.
const USAGE: &str = "usage: spirv_tool translate|check|show|replay|sample [options]\n";

/// Carries out the request that the words of a command line make: reads the source, writes the answer to `out`, or tells on `err`
/// why there is none.
///
/// A failed read is told before a refusal of the input, and all bytes are made before the first write. Want of memory alone
/// has no stated cause.
pub fn run<S: Source, O: Sink, E: Sink>(
    alloc: Global,
    words: &[String],
    src: &mut S,
    out: &mut O,
    err: &mut E,
) -> Status
    // Words that make no request are answered by the usage line, and the source stays unread.
    ensures usage_only { result ≡ Status.Usage → request_of (texts_of words.now) ≡ None }
    ensures usage_always { request_of (texts_of words.now) ≡ None →
        (result ≡ Status.Usage) ⊎ ((result ≡ Status.WriteFault) × Rose (E.faults err.old) (E.faults err.new)) }
    ensures usage_line { result ≡ Status.Usage → Takes (E.held err.old) (E.held err.new) usage_line }
    ensures unread { request_of (texts_of words.now) ≡ None → src.new ≡ src.old }

    // An answer is that to the request on the whole input, to whose end the source was read.
    ensures ok { result ≡ Status.Ok → TakesAnswer (request_of (texts_of words.now))
        (S.left src.old) (S.left src.new) (O.held out.old) (O.held out.new) }

    // A refusal is one that is due on the whole input, or comes where it has more bytes than an input may have.
    ensures refused { result ≡ Status.Refused → TellsRefusal (request_of (texts_of words.now))
        (S.left src.old) (S.left src.new) (E.held err.old) (E.held err.new) }

    // A read fault comes only where a request was made and the source failed in this call.
    ensures read_fault_asked { result ≡ Status.ReadFault → IsSome (request_of (texts_of words.now)) }
    ensures read_fault_rose { result ≡ Status.ReadFault → Rose (S.faults src.old) (S.faults src.new) }
    ensures source_count { result ≢ Status.ReadFault → S.faults src.new ≡ S.faults src.old }
    ensures source_gave { GivesSome (S.left src.old) (S.left src.new) }

    // A write fault comes only where a sink failed in this call, which then took a prefix of its bytes.
    ensures write_fault { result ≡ Status.WriteFault →
        FailsToAnswer (request_of (texts_of words.now)) (S.left src.old) (S.left src.new)
        (O.held out.old) (O.held out.new) (O.faults out.old) (O.faults out.new)
        ⊎ FailsToTell (request_of (texts_of words.now)) (S.left src.old) (S.left src.new)
        (E.held err.old) (E.held err.new) (E.faults err.old) (E.faults err.new) }
    ensures out_count { result ≢ Status.WriteFault → O.faults out.new ≡ O.faults out.old }
    ensures err_count { result ≢ Status.WriteFault → E.faults err.new ≡ E.faults err.old }

    // An input that nothing is refused in is answered, unless a call failed or memory is wanting.
    ensures complete { (input : List ℕ) → S.left src.old ≡ Some input → IsFree (request_of (texts_of words.now)) input →
        (result ≡ Status.Ok) ⊎ (result ≡ Status.NoMemory) ⊎ (result ≡ Status.ReadFault) ⊎ (result ≡ Status.WriteFault) }

    // An input in which something is refused is refused, unless a call failed or memory is wanting.
    ensures due { (input : List ℕ) (refusal : Refusal) → S.left src.old ≡ Some input → IsRefusedFor (request_of (texts_of words.now)) input refusal →
        (result ≡ Status.Refused) ⊎ (result ≡ Status.NoMemory) ⊎ (result ≡ Status.ReadFault) ⊎ (result ≡ Status.WriteFault) }

    // Nothing else is written.
    ensures out_untouched { result ≢ Status.Ok → result ≢ Status.WriteFault → out.new ≡ out.old }
    ensures err_untouched { result ≢ Status.Usage → result ≢ Status.Refused → result ≢ Status.WriteFault → err.new ≡ err.old }
    ensures one_untouched { (out.new ≡ out.old) ⊎ (err.new ≡ err.old) }
{
    let Some(request) = read_request(words) else {
        return match write_all(err, USAGE.as_bytes()) {
            Ok(()) => Status::Usage,
            Err(WriteFault) => Status::WriteFault,
        };
    };
    match reply_to(alloc, request, src) {
        Ok(Reply::Answer(bytes)) => match write_all(out, &bytes) {
            Ok(()) => Status::Ok,
            Err(WriteFault) => Status::WriteFault,
        },
        Ok(Reply::Refuses(_, line)) => match write_all(err, line.as_bytes()) {
            Ok(()) => Status::Refused,
            Err(WriteFault) => Status::WriteFault,
        },
        Err(ReplyError::ReadFault) => Status::ReadFault,
        Err(ReplyError::NoMemory) => Status::NoMemory,
    }
}
