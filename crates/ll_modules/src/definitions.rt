ghost use Rattle.std.specs.Prelude.{◌≡◌, ◌++◌, IfOk, MatchResult, OnOk, map};
ghost use Rattle.std.specs.Option.{option_to_list};
ghost use Rattle.ll_tokens.specs.Tokens.{lexemes_of};
ghost use Rattle.ll_tree.specs.declared.name.Name.{Name};
ghost use Rattle.ll_parser.specs.NameReading.{ReadsWith};
ghost use Rattle.ll_operands.specs.Parts.{Refuses};
ghost use Rattle.ll_modules.specs.Definitions.{definition_of, numbers_of, whole_definition, whole_definition_part};

use inst_walk::Body;
use ll_heads::{DefinitionStart, read_definition_start};
use ll_insts::{Blocks, read_blocks};
use ll_parser::{NameTable, ReadError};
use ll_tokens::Token;
use ll_tree::{Function, LlInst, Name, Param};
use sqlite_items::Items;
use std::alloc::{AllocError, Global};

/// A function that is defined: what is kept of it but for its body, and the body.
#[derive(Drop)]
pub struct Definition {
    pub function: Function,
    pub body: Body<LlInst>,
}

/// The definition of a function with which the tokens begin, up to the `}` of its body, and the tokens behind that (LLVM 14,
/// Functions). Names are numbered by the table, and parameters, blocks and values that are given no name have the next numbers. It
/// fails for want of memory, which is told too where there are 2^32 such numbers, and at the first token that can't stand where it
/// does: by rule 4 where that is a number out of its range, or a name, a node or a group of attributes of such digits, else by
/// rule 3.
pub fn read_definition<'t, 'a>(
    alloc: Global,
    tokens: &'t [Token<'a>],
    names: &mut NameTable,
) -> Result<(Definition, &'t [Token<'a>]), ReadError>
    ensures { MatchResult result
        (λ r. ReadsWith whole_definition names.old names.new r.0 (lexemes_of tokens.now) (lexemes_of r.1.now))
        (Refuses whole_definition_part (lexemes_of tokens.now)) }
{
    let (start, inside) = read_definition_start(alloc, tokens, names)?;
    let (blocks, rest) = read_blocks(alloc, inside, names, start.next)?;
    let definition = definition_of(alloc, start, blocks)?;
    Ok((definition, rest))
}

/// What stands before a function's body, and its blocks, put together.
fn definition_of(
    alloc: Global,
    start: DefinitionStart,
    blocks: Blocks,
) -> Result<Definition, AllocError>
    ensures { IfOk result (λ definition. definition ≡ definition_of start blocks) }
{
    let params = numbers_of(alloc, start.head.params.as_slice())?;
    let DefinitionStart {
        head,
        kernel_arg_type,
        reqd_work_group_size,
        work_group_size_hint,
        next: _,
    } = start;
    let Blocks { blocks, labels } = blocks;
    Ok(Definition {
        function: Function {
            head,
            kernel_arg_type,
            reqd_work_group_size,
            work_group_size_hint,
            labels,
        },
        body: Body { params, blocks },
    })
}

/// The numbers of the names of parameters, in order.
fn numbers_of(alloc: Global, params: &[Param]) -> Result<Items<u32>, AllocError>
    ensures { IfOk result (λ numbers. numbers ≡ numbers_of params.now) }
{
    let mut numbers = Items::new(alloc);
    for param in params {
        push_number(&mut numbers, param.name)?;
    }
    Ok(numbers)
}

/// Adds the number of a name, if there is one, behind the others.
fn push_number(numbers: &mut Items<u32>, name: Option<Name>) -> Result<(), AllocError>
    ensures { OnOk result (numbers.new ≡ numbers.old ++ map (λ (n : Name). n.number) (option_to_list name)) }
{
    match name {
        Some(name) => numbers.push(name.number),
        None => Ok(()),
    }
}
