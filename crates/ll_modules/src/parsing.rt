ghost use Rattle.std.specs.Prelude.{◌≡◌, [], MatchResult};
ghost use Rattle.ll_tokens.specs.Tokens.{lexemes_of};
ghost use Rattle.ll_parser.specs.GrammarItems.{IsModule};
ghost use Rattle.ll_parser.specs.NameReading.{ReadsWith};
ghost use Rattle.ll_operands.specs.Parts.{Refuses};
ghost use Rattle.ll_types.specs.ValueRefusals.{Unless};
ghost use Rattle.ll_modules.specs.Modules.{IsNoModule, collected_items, items_part, module_of};

use crate::collected::{Collected, add_item, none_collected};
use crate::items::read_item;
use kern_types::PointerWidth;
use ll_parser::{NameTable, ReadError, last};
use ll_tokens::Token;
use ll_tree::{LlModule, NameText};
use sqlite_items::Items;
use std::alloc::Global;

/// The module that the tokens are (LLVM 14, Module Structure). It fails for want of memory, and where the tokens are of no module, at
/// the first token that can't stand where it does: by rule 4 where that is a number out of its range, or a name, a node or a group
/// of attributes of such digits, else by rule 3.
pub fn parse_tokens(alloc: Global, tokens: &[Token<'_>]) -> Result<LlModule, ReadError>
    ensures { MatchResult result
        (λ m. IsModule (lexemes_of tokens.now) m)
        (Unless (λ refusal. items_part.stops (lexemes_of tokens.now) refusal × IsNoModule (lexemes_of tokens.now))) }
{
    let mut table = NameTable::new(alloc);
    let kept = read_items(alloc, tokens, &mut table)?;
    let names = table.into_items(alloc)?;
    Ok(module_of(kept, names))
}

/// What is kept of items, and the table of their names, put together.
fn module_of(kept: Collected, names: Items<NameText>) -> LlModule
    ensures { result ≡ module_of kept names }
{
    let Collected {
        targets,
        structs,
        variables,
        declares,
        functions,
        bodies,
        ocl_version,
        nodes,
    } = kept;
    LlModule {
        targets,
        structs,
        variables,
        declares,
        functions,
        bodies,
        ocl_version,
        nodes,
        pointer: PointerWidth::P64,
        names,
    }
}

/// What is kept of the items that the tokens are, up to their end.
fn read_items(
    alloc: Global,
    tokens: &[Token<'_>],
    names: &mut NameTable,
) -> Result<Collected, ReadError>
    ensures { MatchResult result
        (λ kept. ReadsWith collected_items names.old names.new kept (lexemes_of tokens.now) [])
        (Refuses items_part (lexemes_of tokens.now)) }
{
    let mut kept = none_collected(alloc);
    let mut left = tokens.len();
    while left > 0 {
        let (item, behind) = read_item(alloc, last(tokens, left), names)?;
        add_item(&mut kept, item)?;
        left = behind.len();
    }
    Ok(kept)
}
