ghost use Rattle.std.specs.Prelude.{◌≡◌, MatchOption};
ghost use Rattle.ll_tokens.specs.Tokens.{lexemes_of};
ghost use Rattle.ll_parser.specs.Productions.{word};
ghost use Rattle.ll_parser.specs.Reading.{EndsNowhere};
ghost use Rattle.ll_memory_ops.specs.declared.opcodes.MemoryOpcode.{MemoryOpcode};
ghost use Rattle.ll_memory_ops.specs.MemoryOpcodes.{memory_word, opcode_word};

use ll_parser::split_first;
use ll_tokens::{Token, TokenKind};

/// The instructions on memory, by the words with which they begin (LLVM 14, Memory Access and Addressing Operations).
#[derive(Clone, Copy, Debug, PartialEq, Eq)]
pub enum MemoryOpcode {
    Alloca,
    Load,
    Store,
    Fence,
    CompareExchange,
    AtomicRmw,
    GetElementPtr,
}

/// The instruction with whose word the tokens begin, and the tokens behind it. None exactly where they begin with no such word.
pub fn take_opcode<'t, 'a>(tokens: &'t [Token<'a>]) -> Option<(MemoryOpcode, &'t [Token<'a>])>
    ensures { MatchOption result (EndsNowhere memory_word (lexemes_of tokens.now))
        (λ r. word (opcode_word r.0) (lexemes_of tokens.now) (lexemes_of r.1.now)) }
{
    match split_first(tokens) {
        Some((first, rest)) if first.kind == TokenKind::Word => match opcode_of_word(first.text) {
            Some(opcode) => Some((opcode, rest)),
            None => None,
        },
        _ => None,
    }
}

/// The instruction that begins with a word. None exactly where none does.
fn opcode_of_word(word: &str) -> Option<MemoryOpcode>
    ensures { MatchOption result
        ((opcode : MemoryOpcode) → word.now ≡ opcode_word opcode → ⊥)
        (λ opcode. word.now ≡ opcode_word opcode) }
{
    match word {
        "alloca" => Some(MemoryOpcode::Alloca),
        "load" => Some(MemoryOpcode::Load),
        "store" => Some(MemoryOpcode::Store),
        "fence" => Some(MemoryOpcode::Fence),
        "cmpxchg" => Some(MemoryOpcode::CompareExchange),
        "atomicrmw" => Some(MemoryOpcode::AtomicRmw),
        "getelementptr" => Some(MemoryOpcode::GetElementPtr),
        _ => None,
    }
}
