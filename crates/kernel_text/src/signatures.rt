ghost use Rattle.std.specs.Prelude.{◌≡◌, MatchResult};
ghost use Rattle.ll_tokens.specs.Tokens.{lexemes_of};
ghost use Rattle.ll_tree.specs.declared.name.NameText.{NameText};
ghost use Rattle.ll_parser.specs.NameReading.{ReadsWith};
ghost use Rattle.ll_parser.specs.Reading.{DerivesNone};
ghost use Rattle.kernel_text.specs.Parts.{head, signature};
ghost use Rattle.kernel_text.specs.Reading.{Fails};

use crate::error::KernelTextError;
use crate::name_sorts::NameSort;
use crate::names::written_name;
use crate::params::params;
use crate::phrases::{Phrase, take};
use kernel_tree::KernelParam;
use ll_parser::NameTable;
use ll_tokens::Token;
use ll_tree::Name;
use sqlite_items::Items;
use std::alloc::Global;

/// What stands before a kernel's block.
#[derive(Drop)]
pub struct Signature {
    pub has_targets: bool,
    pub name: Name,
    pub params: Items<KernelParam>,
}

/// Whether the tokens begin with the two target lines, and the tokens behind them and the first words of a kernel.
fn head<'t, 'a>(tokens: &'t [Token<'a>]) -> Result<(bool, &'t [Token<'a>]), KernelTextError>
    ensures { MatchResult result
        (λ r. head r.0 (lexemes_of tokens.now) (lexemes_of r.1.now))
        (λ error. DerivesNone head (lexemes_of tokens.now)) }
{
    match take(tokens, Phrase::TargetLines) {
        Ok(behind) => {
            let rest = take(behind, Phrase::KernelWords)?;
            Ok((true, rest))
        }
        Err(_no_lines) => {
            let rest = take(tokens, Phrase::KernelWords)?;
            Ok((false, rest))
        }
    }
}

/// What stands before a kernel's block, with which the tokens begin, and the tokens behind it.
pub fn read_signature<'t, 'a>(
    alloc: Global,
    tokens: &'t [Token<'a>],
    names: &mut NameTable,
) -> Result<(Signature, &'t [Token<'a>]), KernelTextError>
    ensures { MatchResult result
        (λ r. ReadsWith signature names.old names.new r.0 (lexemes_of tokens.now) (lexemes_of r.1.now))
        (Fails signature (lexemes_of tokens.now)) }
{
    let (has_targets, named) = head(tokens)?;
    let (name, behind) = written_name(alloc, named, NameSort::Kernel, names)?;
    let inside = take(behind, Phrase::ParamsStart)?;
    let (params, rest) = params(alloc, inside, names)?;
    Ok((
        Signature {
            has_targets,
            name,
            params,
        },
        rest,
    ))
}
