ghost use Rattle.std.specs.Prelude.{◌≡◌, ◌++◌, ◌∷◌, [], MatchOption, MatchResult, OnOk};
ghost use Rattle.ll_tokens.specs.Tokens.{lexemes_of};
ghost use Rattle.ll_tree.specs.declared.op.Op.TheVariants as op;
ghost use Rattle.ll_parser.specs.GrammarInsts.{switch_case};
ghost use Rattle.ll_parser.specs.NameReading.{ReadsWith};
ghost use Rattle.ll_parser.specs.Reading.{EndsNowhere};
ghost use Rattle.ll_operands.specs.Parts.{Refuses, optional};
ghost use Rattle.ll_flow_ops.specs.declared.opcodes.FlowOpcode.TheVariants as opcode;
ghost use Rattle.ll_flow_ops.specs.FlowOperations.{behind};
ghost use Rattle.ll_flow_ops.specs.FlowParts.{cases, cases_part, no_close, switch_part, target_part};

use crate::targets::{Target, read_target};
use ll_parser::{NameTable, ReadError, last, take_mark};
use ll_tokens::Token;
use ll_tree::{Op, Parts, SwitchCase};
use std::alloc::{AllocError, Global};

/// A switch: a selector, the default block, and cases between brackets (LLVM 14, `switch`).
pub fn read_switch<'t, 'a>(
    alloc: Global,
    tokens: &'t [Token<'a>],
    names: &mut NameTable,
) -> Result<(Op, &'t [Token<'a>]), ReadError>
    ensures { MatchResult result
        (λ r. ReadsWith (behind opcode.Switch) names.old names.new r.0 (lexemes_of tokens.now) (lexemes_of r.1.now))
        (Refuses switch_part (lexemes_of tokens.now)) }
{
    let (default, behind) = read_target(alloc, tokens, names)?;
    let inside = take_mark(behind, b'[')?;
    let (cases, rest) = read_cases(alloc, inside, names)?;
    Ok((switch_of(default, cases), rest))
}

fn switch_of(default: Target, cases: Parts<SwitchCase>) -> Op
    ensures { result ≡ op.Switch default.value default.block cases }
{
    let Target { value, block } = default;
    Op::Switch {
        selector: value,
        default: block,
        cases,
    }
}

/// The cases with which the tokens begin, up to the `]` behind them, and the tokens behind that.
fn read_cases<'t, 'a>(
    alloc: Global,
    tokens: &'t [Token<'a>],
    names: &mut NameTable,
) -> Result<(Parts<SwitchCase>, &'t [Token<'a>]), ReadError>
    ensures { MatchResult result
        (λ r. ReadsWith cases names.old names.new r.0 (lexemes_of tokens.now) (lexemes_of r.1.now))
        (Refuses cases_part (lexemes_of tokens.now)) }
{
    let mut cases = Parts::new(alloc);
    let mut left = tokens.len();
    while let Some((case, behind)) = next_case(alloc, last(tokens, left), names)? {
        push_case(&mut cases, case)?;
        left = behind.len();
    }
    let rest = take_mark(last(tokens, left), b']')?;
    Ok((cases, rest))
}

/// Adds a case behind the others.
fn push_case(cases: &mut Parts<SwitchCase>, case: SwitchCase) -> Result<(), AllocError>
    ensures { OnOk result (cases.new ≡ cases.old ++ case ∷ []) }
{
    match cases.push(case) {
        Ok(()) => Ok(()),
        Err(_no_memory) => Err(AllocError),
    }
}

/// The case with which the tokens begin, and the tokens behind it. None exactly where they begin with `]`.
fn next_case<'t, 'a>(
    alloc: Global,
    tokens: &'t [Token<'a>],
    names: &mut NameTable,
) -> Result<Option<(SwitchCase, &'t [Token<'a>])>, ReadError>
    ensures { MatchResult result
        (λ found. MatchOption found ((names.new ≡ names.old) × EndsNowhere no_close (lexemes_of tokens.now))
        (λ r. ReadsWith switch_case names.old names.new r.0 (lexemes_of tokens.now) (lexemes_of r.1.now)))
        (Refuses (optional no_close target_part) (lexemes_of tokens.now)) }
{
    match take_mark(tokens, b']') {
        Ok(_behind) => Ok(None),
        Err(_no_close) => {
            let (case, rest) = read_target(alloc, tokens, names)?;
            Ok(Some((case_of(case), rest)))
        }
    }
}

fn case_of(case: Target) -> SwitchCase
    ensures { result ≡ record { value = case.value; target = case.block } }
{
    let Target { value, block } = case;
    SwitchCase {
        value,
        target: block,
    }
}
