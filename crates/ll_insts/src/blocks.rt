ghost use Rattle.std.specs.Prelude.{◌≡◌, ◌++◌, ◌∷◌, [], IfOk, IsTrue, MatchResult, OnOk, false};
ghost use Rattle.ll_tokens.specs.Tokens.{lexemes_of};
ghost use Rattle.ll_parser.specs.NameReading.{ReadsWith};
ghost use Rattle.ll_parser.specs.Productions.{mark};
ghost use Rattle.ll_parser.specs.Reading.{EndsNowhere};
ghost use Rattle.ll_operands.specs.Parts.{Begins, Refuses};
ghost use Rattle.ll_insts.specs.Blocks.{block_here, blocks_here, blocks_of, labels_of, more_blocks};
ghost use Rattle.ll_insts.specs.InstParts.{block_part, blocks_part, more_blocks_part};

use crate::insts::read_insts;
use inst_walk::Block;
use ll_bodies::read_block_label;
use ll_parser::{NameTable, ReadError, last, take_mark};
use ll_tokens::Token;
use ll_tree::LlInst;
use sqlite_items::Items;
use std::alloc::{AllocError, Global};

/// A block, and the place of its label, which is that of its first instruction where it has none.
#[derive(Drop)]
pub struct PlacedBlock {
    pub block: Block<LlInst>,
    pub byte: u64,
}

/// The blocks of a function, and the places of their labels, one for each.
#[derive(Drop)]
pub struct Blocks {
    pub blocks: Items<Block<LlInst>>,
    pub labels: Items<u64>,
}

/// The blocks of a function, one at least, up to the `}` with which it ends, and the tokens behind that (LLVM 14, Functions).
/// Names are numbered by the table, and blocks and values that are given no name have the next numbers. It fails as `read_inst`
/// does.
pub fn read_blocks<'t, 'a>(
    alloc: Global,
    tokens: &'t [Token<'a>],
    names: &mut NameTable,
    next: u32,
) -> Result<(Blocks, &'t [Token<'a>]), ReadError>
    ensures { MatchResult result
        (λ r. ReadsWith (blocks_here next) names.old names.new r.0 (lexemes_of tokens.now) (lexemes_of r.1.now))
        (Refuses blocks_part (lexemes_of tokens.now)) }
{
    let mut number = next;
    let (first, behind) = read_block(alloc, tokens, names, &mut number)?;
    let (others, rest) = read_more_blocks(alloc, behind, names, &mut number)?;
    let blocks = unzipped(alloc, first, others)?;
    Ok((blocks, rest))
}

/// The blocks up to the `}` behind them, and the tokens behind that.
fn read_more_blocks<'t, 'a>(
    alloc: Global,
    tokens: &'t [Token<'a>],
    names: &mut NameTable,
    next: &mut u32,
) -> Result<(Vec<PlacedBlock>, &'t [Token<'a>]), ReadError>
    ensures { MatchResult result
        (λ r. ReadsWith (more_blocks next.old) names.old names.new r.0.items (lexemes_of tokens.now) (lexemes_of r.1.now))
        (Refuses more_blocks_part (lexemes_of tokens.now)) }
{
    let mut blocks = Vec::new(alloc);
    let mut left = tokens.len();
    while !begins_close(last(tokens, left)) {
        let (block, behind) = read_block(alloc, last(tokens, left), names, next)?;
        push_block(&mut blocks, block)?;
        left = behind.len();
    }
    let rest = take_mark(last(tokens, left), b'}')?;
    Ok((blocks, rest))
}

/// Adds a block behind the others.
fn push_block(blocks: &mut Vec<PlacedBlock>, block: PlacedBlock) -> Result<(), AllocError>
    ensures { OnOk result (blocks.new.items ≡ blocks.old.items ++ block ∷ []) }
{
    match blocks.push(block) {
        Ok(()) => Ok(()),
        Err(_no_memory) => Err(AllocError),
    }
}

/// Whether the tokens begin with `}`.
fn begins_close(tokens: &[Token<'_>]) -> bool
    ensures there { IsTrue result → Begins (mark 125) (lexemes_of tokens.now) }
    ensures absent { result ≡ false → EndsNowhere (mark 125) (lexemes_of tokens.now) }
{
    match take_mark(tokens, b'}') {
        Ok(_behind) => true,
        Err(_no_close) => false,
    }
}

/// A block: its label, and its instructions.
fn read_block<'t, 'a>(
    alloc: Global,
    tokens: &'t [Token<'a>],
    names: &mut NameTable,
    next: &mut u32,
) -> Result<(PlacedBlock, &'t [Token<'a>]), ReadError>
    ensures { MatchResult result
        (λ r. ReadsWith (block_here next.old next.new) names.old names.new r.0 (lexemes_of tokens.now) (lexemes_of r.1.now))
        (Refuses block_part (lexemes_of tokens.now)) }
{
    let (label, behind) = read_block_label(alloc, tokens, names, next)?;
    let (insts, rest) = read_insts(alloc, behind, names, next)?;
    Ok((
        PlacedBlock {
            block: Block {
                name: label.number,
                insts,
            },
            byte: label.byte,
        },
        rest,
    ))
}

/// The blocks and the places of their labels in two lists.
fn unzipped(
    alloc: Global,
    first: PlacedBlock,
    others: Vec<PlacedBlock>,
) -> Result<Blocks, AllocError>
    ensures { IfOk result (λ made. (made.blocks ≡ blocks_of first others.items) × (made.labels ≡ labels_of first others.items)) }
{
    let PlacedBlock { block, byte } = first;
    let mut blocks = Items::new(alloc);
    let mut labels = Items::new(alloc);
    blocks.push(block)?;
    labels.push(byte)?;
    for placed in others {
        let PlacedBlock { block, byte } = placed;
        blocks.push(block)?;
        labels.push(byte)?;
    }
    Ok(Blocks { blocks, labels })
}
