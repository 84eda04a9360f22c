ghost use Rattle.std.specs.Prelude.{◌<◌, ◌≤◌, ◌^◌, length};
ghost use Rattle.ll_texts.specs.TextFaults.{IsModuleInput};
ghost use Rattle.kt_driver.specs.Runs.{IsRefusal, IsReply, Replies, ReplyHasCause};

use crate::binary_listing::binary_listing;
use crate::listing::listing;
use crate::refusals::Refusal;
use crate::request::{Format, Request};
use kernel_translation::{BinaryError, MAX_BYTES, TranslateError, translate, translate_binary};
use ll_texts::text_fault;
use ports::{LlError, ReadAllError, Source, SpvError, read_all};
use spv_words::Order;
use std::alloc::Global;

/// All that a request makes to be written.
#[derive(Drop)]
pub enum Reply {
    /// The bytes of the answer.
    Answer(Vec<u8>),
    /// What is refused, and the line that tells it.
    Refuses(Refusal, String),
}

/// Why there is nothing to write.
#[derive(Clone, Copy, Debug, PartialEq, Eq, Hash)]
pub enum ReplyError {
    NoMemory,
    ReadFault,
}

/// Makes the reply to a request, with all its bytes. A failed read comes before any refusal of the input.
pub fn reply_to<S: Source>(
    alloc: Global,
    request: Request,
    src: &mut S,
) -> Result<Reply, ReplyError>
    ensures reply { Replies request (S.left src.old) (S.left src.new) result }
    ensures cause { ReplyHasCause (S.faults src.old) (S.faults src.new) result }
{
    match read_all(alloc, src, MAX_BYTES) {
        Ok(input) => reply_on(alloc, request, &input),
        Err(ReadAllError::TooLong) => refuse(alloc, Refusal::TooLong(request.input_format())),
        Err(ReadAllError::Failed) => Err(ReplyError::ReadFault),
        Err(ReadAllError::NoMemory) => Err(ReplyError::NoMemory),
    }
}

/// The reply to a request on the whole input.
fn reply_on(alloc: Global, request: Request, input: &[u8]) -> Result<Reply, ReplyError>
    requires { length input.now ≤ 16777216 }
    ensures { IsReply request input.now result }
{
    match request {
        Request::Translate {
            from: Format::Llvm,
            order,
            ..
        } => translated(alloc, input, order),
        Request::Translate {
            from: Format::Spirv,
            ..
        } => text_translated(alloc, input),
        Request::Show { from: Format::Llvm } => listed(alloc, input),
        Request::Show {
            from: Format::Spirv,
        } => binary_listed(alloc, input),
    }
}

/// The reply to the translation of a text: a rule of the grammar is told before those of the translation.
fn translated(alloc: Global, input: &[u8], order: Order) -> Result<Reply, ReplyError>
    ensures { IsReply (Request.Translate Format.Llvm Format.Spirv order) input.now result }
{
    match text_fault(alloc, input) {
        Ok(None) => module_translated(alloc, input, order),
        Ok(Some(fault)) => refuse(alloc, Refusal::Unreadable(fault)),
        Err(_no_memory) => Err(ReplyError::NoMemory),
    }
}

/// The reply to the translation of a module's text.
fn module_translated(alloc: Global, input: &[u8], order: Order) -> Result<Reply, ReplyError>
    requires { IsModuleInput input.now }
    ensures { IsReply (Request.Translate Format.Llvm Format.Spirv order) input.now result }
{
    match translate(alloc, input, order) {
        Ok(bytes) => Ok(Reply::Answer(bytes)),
        Err(TranslateError::UndefinedName { byte }) => {
            refuse(alloc, Refusal::UndefinedName { byte })
        }
        Err(TranslateError::Outside) => refuse(alloc, Refusal::Outside(Format::Llvm)),
        Err(TranslateError::NoMemory) => Err(ReplyError::NoMemory),
    }
}

/// The reply to the translation of a binary.
fn text_translated(alloc: Global, input: &[u8]) -> Result<Reply, ReplyError>
    requires { length input.now ≤ 16777216 }
    ensures { IsReply (Request.Translate Format.Spirv Format.Llvm Order.Little) input.now result }
{
    match translate_binary(alloc, input) {
        Ok(text) => Ok(Reply::Answer(text)),
        Err(BinaryError::Misframed(fault)) => refuse(alloc, Refusal::Misframed(fault)),
        Err(BinaryError::Invalid(fault)) => refuse(alloc, Refusal::Invalid(fault)),
        Err(BinaryError::Outside) => refuse(alloc, Refusal::Outside(Format::Spirv)),
        Err(BinaryError::NoMemory) => Err(ReplyError::NoMemory),
    }
}

/// The reply to the listing of a text.
fn listed(alloc: Global, input: &[u8]) -> Result<Reply, ReplyError>
    ensures { IsReply (Request.Show Format.Llvm) input.now result }
{
    match listing(alloc, input) {
        Ok(lines) => Ok(Reply::Answer(lines.into_bytes())),
        Err(LlError::Fault(fault)) => refuse(alloc, Refusal::Unreadable(fault)),
        Err(LlError::NoMemory) => Err(ReplyError::NoMemory),
    }
}

/// The reply to the listing of a binary.
fn binary_listed(alloc: Global, input: &[u8]) -> Result<Reply, ReplyError>
    requires { length input.now < 2 ^ 63 }
    ensures { IsReply (Request.Show Format.Spirv) input.now result }
{
    match binary_listing(alloc, input) {
        Ok(lines) => Ok(Reply::Answer(lines.into_bytes())),
        Err(SpvError::Fault(fault)) => refuse(alloc, Refusal::Misframed(fault)),
        Err(SpvError::NoMemory) => Err(ReplyError::NoMemory),
    }
}

/// The reply that tells a refusal.
fn refuse(alloc: Global, refusal: Refusal) -> Result<Reply, ReplyError>
    ensures { IsRefusal refusal result }
{
    match refusal.line(alloc) {
        Ok(line) => Ok(Reply::Refuses(refusal, line)),
        Err(_) => Err(ReplyError::NoMemory),
    }
}
