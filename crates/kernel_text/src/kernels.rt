ghost use Rattle.std.specs.Prelude.{MatchResult};
ghost use Rattle.ll_tokens.specs.Tokens.{lexemes_of};
ghost use Rattle.kernel_text.specs.Grammar.{IsKernelText};
ghost use Rattle.kernel_text.specs.Reading.{NoKernel};

use crate::blocks::{block, number_behind};
use crate::error::KernelTextError;
use crate::signatures::read_signature;
use kernel_tree::Kernel;
use ll_parser::NameTable;
use ll_tokens::Token;
use std::alloc::Global;

/// The kernel of the covered subset that these tokens spell (LLVM 14, Module Structure; Functions; Instruction Reference).
/// The numbers of its names are their places in its table, in the order in which the text first names them. It fails by
/// `NoMemory` for want of memory, which is told too where there are 2^32 names, and by `Outside` exactly where the tokens
/// are no such kernel.
pub fn read_kernel(alloc: Global, tokens: &[Token<'_>]) -> Result<Kernel, KernelTextError>
    ensures { MatchResult result
        (IsKernelText (lexemes_of tokens.now))
        (NoKernel (lexemes_of tokens.now)) }
{
    let mut names = NameTable::new(alloc);
    let (signature, inside) = read_signature(alloc, tokens, &mut names)?;
    let number = number_behind(&names, signature.params.as_slice())?;
    let (block, behind) = block(alloc, inside, number, &mut names)?;
    if !behind.is_empty() {
        return Err(KernelTextError::Outside);
    }
    Ok(Kernel {
        has_targets: signature.has_targets,
        name: signature.name,
        params: signature.params,
        block: block.name,
        insts: block.insts,
        names: names.into_items(alloc)?,
    })
}
