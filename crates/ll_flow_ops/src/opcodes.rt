ghost use Rattle.std.specs.Prelude.{◌≡◌, MatchOption};
ghost use Rattle.ll_tokens.specs.Tokens.{lexemes_of};
ghost use Rattle.ll_parser.specs.Productions.{word};
ghost use Rattle.ll_parser.specs.Reading.{EndsNowhere};
ghost use Rattle.ll_flow_ops.specs.declared.opcodes.FlowOpcode.{FlowOpcode};
ghost use Rattle.ll_flow_ops.specs.FlowOpcodes.{flow_word, opcode_word};

use ll_parser::split_first;
use ll_tokens::{Token, TokenKind};

/// The instructions of control flow, by the words with which they begin (LLVM 14, Instruction Reference).
#[derive(Clone, Copy, Debug, PartialEq, Eq)]
pub enum FlowOpcode {
    Phi,
    Return,
    Branch,
    Switch,
    Unreachable,
}

/// The instruction with whose word the tokens begin, and the tokens behind it. None exactly where they begin with no such word.
pub fn take_opcode<'t, 'a>(tokens: &'t [Token<'a>]) -> Option<(FlowOpcode, &'t [Token<'a>])>
    ensures { MatchOption result (EndsNowhere flow_word (lexemes_of tokens.now))
        (λ r. word (opcode_word r.0) (lexemes_of tokens.now) (lexemes_of r.1.now)) }
{
    match split_first(tokens) {
        Some((first, rest)) if first.kind == TokenKind::Word => match opcode_of_word(first.text) {
            Some(opcode) => Some((opcode, rest)),
            None => None,
        },
        _ => None,
    }
}

/// The instruction that begins with a word. None exactly where none does.
fn opcode_of_word(word: &str) -> Option<FlowOpcode>
    ensures { MatchOption result
        ((opcode : FlowOpcode) → word.now ≡ opcode_word opcode → ⊥)
        (λ opcode. word.now ≡ opcode_word opcode) }
{
    match word {
        "phi" => Some(FlowOpcode::Phi),
        "ret" => Some(FlowOpcode::Return),
        "br" => Some(FlowOpcode::Branch),
        "switch" => Some(FlowOpcode::Switch),
        "unreachable" => Some(FlowOpcode::Unreachable),
        _ => None,
    }
}
