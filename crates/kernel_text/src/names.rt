ghost use Rattle.std.specs.Prelude.{◌≡◌, MatchResult};
ghost use Rattle.ll_tokens.specs.Tokens.{lexemes_of};
ghost use Rattle.ll_parser.specs.NameReading.{ReadsWith};
ghost use Rattle.kernel_text.specs.NameSorts.{written_name};
ghost use Rattle.kernel_text.specs.Reading.{Fails};

use crate::error::KernelTextError;
use crate::name_sorts::NameSort;
use ll_parser::{NameTable, is_of_kind, spelled_number, split_first};
use ll_tokens::Token;
use ll_tree::Name;
use std::alloc::Global;

/// The name of this sort with which the tokens begin, and the tokens behind it.
pub fn written_name<'t, 'a>(
    alloc: Global,
    tokens: &'t [Token<'a>],
    sort: NameSort,
    names: &mut NameTable,
) -> Result<(Name, &'t [Token<'a>]), KernelTextError>
    ensures { MatchResult result
        (λ r. ReadsWith (written_name sort) names.old names.new r.0 (lexemes_of tokens.now) (lexemes_of r.1.now))
        (Fails (written_name sort) (lexemes_of tokens.now)) }
{
    match split_first(tokens) {
        Some((first, rest)) if is_of_kind(&first, sort.token_kind()) => {
            let text = sort.spelled_text(first.text.as_bytes());
            if !sort.allows(text) {
                return Err(KernelTextError::Outside);
            }
            match spelled_number(alloc, text, sort.name_kind(), names)? {
                Some(number) => Ok((
                    Name {
                        number,
                        byte: first.byte,
                    },
                    rest,
                )),
                None => Err(KernelTextError::Outside),
            }
        }
        _ => Err(KernelTextError::Outside),
    }
}
