ghost use Rattle.std.specs.Prelude.{◌≡◌, MatchResult};
ghost use Rattle.ll_tokens.specs.Tokens.{lexemes_of};
ghost use Rattle.ll_tree.specs.declared.op.Op.TheVariants as op;
ghost use Rattle.ll_parser.specs.NameReading.{ReadsWith};
ghost use Rattle.ll_operands.specs.Parts.{Refuses};
ghost use Rattle.ll_memory_ops.specs.declared.opcodes.MemoryOpcode.TheVariants as opcode;
ghost use Rattle.ll_memory_ops.specs.AllocationParts.{
  alloca_part,
  count_here,
  count_part,
  extent,
  extent_inside,
  extent_inside_part,
  extent_part,
};
ghost use Rattle.ll_memory_ops.specs.MemoryOperations.{behind};

use crate::alignments::read_align;
use ll_operands::take_operand_comma;
use ll_parser::{NameTable, ReadError, number, take_word};
use ll_tokens::Token;
use ll_tree::{AllocaCount, LlType, Op};
use ll_types::{read_type, typed_number};
use std::alloc::Global;

/// How many values an `alloca` makes room for and their alignment, where they are written.
#[derive(Drop)]
pub struct Extent {
    pub count: Option<AllocaCount>,
    pub align: Option<u64>,
}

/// An `alloca`: a type, a count and an alignment (LLVM 14, `alloca`).
pub fn read_allocation<'t, 'a>(
    alloc: Global,
    tokens: &'t [Token<'a>],
    names: &mut NameTable,
) -> Result<(Op, &'t [Token<'a>]), ReadError>
    ensures { MatchResult result
        (λ r. ReadsWith (behind opcode.Alloca) names.old names.new r.0 (lexemes_of tokens.now) (lexemes_of r.1.now))
        (Refuses alloca_part (lexemes_of tokens.now)) }
{
    let (ty, behind) = read_type(alloc, tokens, names)?;
    let (extent, rest) = read_extent(alloc, behind, names)?;
    Ok((allocation_of(ty, extent), rest))
}

fn allocation_of(ty: LlType, extent: Extent) -> Op
    ensures { result ≡ op.Alloca ty extent.count extent.align }
{
    let Extent { count, align } = extent;
    Op::Alloca { ty, count, align }
}

/// The count and the alignment behind commas with which the tokens begin, as far as they are there, and the tokens behind them.
fn read_extent<'t, 'a>(
    alloc: Global,
    tokens: &'t [Token<'a>],
    names: &mut NameTable,
) -> Result<(Extent, &'t [Token<'a>]), ReadError>
    ensures { MatchResult result
        (λ r. ReadsWith extent names.old names.new r.0 (lexemes_of tokens.now) (lexemes_of r.1.now))
        (Refuses extent_part (lexemes_of tokens.now)) }
{
    match take_operand_comma(tokens) {
        Some(inside) => {
            let (extent, rest) = read_extent_inside(alloc, inside, names)?;
            Ok((extent, rest))
        }
        None => Ok((
            Extent {
                count: None,
                align: None,
            },
            tokens,
        )),
    }
}

/// An alignment, or a count and an alignment where one follows, behind the comma before them.
fn read_extent_inside<'t, 'a>(
    alloc: Global,
    tokens: &'t [Token<'a>],
    names: &mut NameTable,
) -> Result<(Extent, &'t [Token<'a>]), ReadError>
    ensures { MatchResult result
        (λ r. ReadsWith extent_inside names.old names.new r.0 (lexemes_of tokens.now) (lexemes_of r.1.now))
        (Refuses extent_inside_part (lexemes_of tokens.now)) }
{
    match take_word(tokens, "align") {
        Ok(behind) => {
            let (bytes, rest) = number(behind)?;
            Ok((
                Extent {
                    count: None,
                    align: Some(bytes),
                },
                rest,
            ))
        }
        Err(_no_align) => {
            let (count, behind) = read_count(alloc, tokens, names)?;
            let (align, rest) = read_align(behind)?;
            Ok((
                Extent {
                    count: Some(count),
                    align,
                },
                rest,
            ))
        }
    }
}

/// The count with which the tokens begin, an integer behind its type, and the tokens behind it.
fn read_count<'t, 'a>(
    alloc: Global,
    tokens: &'t [Token<'a>],
    names: &mut NameTable,
) -> Result<(AllocaCount, &'t [Token<'a>]), ReadError>
    ensures { MatchResult result
        (λ r. ReadsWith count_here names.old names.new r.0 (lexemes_of tokens.now) (lexemes_of r.1.now))
        (Refuses count_part (lexemes_of tokens.now)) }
{
    let (ty, behind) = read_type(alloc, tokens, names)?;
    let (number, rest) = typed_number(behind, &ty)?;
    Ok((AllocaCount { ty, number }, rest))
}
