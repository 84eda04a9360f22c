ghost use Rattle.std.specs.Prelude.{◌≡◌, ◌≤◌, Some, drop, length};
ghost use Rattle.std.specs.Option.{option_map};
ghost use Rattle.ll_tokens.specs.Tokens.{lexemes_of};
ghost use Rattle.rule_order.specs.Breaks.{first_refusal, least};
ghost use Rattle.ll_texts.specs.TextFaults.{break_of};
ghost use Rattle.ll_texts.specs.TextRules.{first_place, is_of_text, place_of, refused_places, refused_rule, stuck_places, text_rules};

use ll_parser::{Refusal, UNEXPECTED};
use ll_tokens::Token;
use ll_types::TOO_DEEP;
use ports::LlFault;
use rule_order::{FirstPlace, first_break};

/// The rule of what begins no token.
const NO_TOKEN: u16 = 2;

/// The rule that is told of a text of so many bytes, with these tokens up to where it is stuck, which the grammar refuses so and
/// the nesting of brackets so. None exactly where none of these is there.
pub fn first_fault(
    end: u64,
    tokens: &[Token<'_>],
    stuck: Option<LlFault>,
    refused: Option<Refusal>,
    nested: Option<Refusal>,
) -> Option<LlFault>
    ensures { option_map break_of result ≡ first_refusal (text_rules end (lexemes_of tokens.now) stuck refused nested) }
{
    let rules = [
        stuck_place(stuck),
        FirstPlace {
            rule: refused_rule(refused),
            place: refused_place(end, tokens, stuck, refused),
        },
        FirstPlace {
            rule: TOO_DEEP,
            place: refused_place(end, tokens, None, nested),
        },
    ];
    match first_break(&rules) {
        Some(first) => Some(LlFault {
            rule: first.rule,
            byte: first.place,
        }),
        None => None,
    }
}

/// The same where the grammar refuses the tokens: then a rule is broken.
pub fn refused_fault(
    end: u64,
    tokens: &[Token<'_>],
    stuck: Option<LlFault>,
    refusal: Refusal,
    nested: Option<Refusal>,
) -> LlFault
    ensures { first_refusal (text_rules end (lexemes_of tokens.now) stuck (Some refusal) nested) ≡ Some (break_of result) }
{
    let own = LlFault {
        rule: refusal.rule,
        byte: place_of(end, tokens, refusal.left),
    };
    first_fault(end, tokens, stuck, Some(refusal), nested).unwrap_or(own)
}

fn stuck_place(stuck: Option<LlFault>) -> FirstPlace
    ensures { result ≡ record { rule = 2; place = least (stuck_places stuck) } }
{
    let place = match stuck {
        Some(fault) => Some(fault.byte),
        None => None,
    };
    FirstPlace {
        rule: NO_TOKEN,
        place,
    }
}

fn refused_rule(refused: Option<Refusal>) -> u16
    ensures { result ≡ refused_rule refused }
{
    match refused {
        Some(refusal) => refusal.rule,
        None => UNEXPECTED,
    }
}

/// The place where a refusal of tokens is one of the text.
fn refused_place(
    end: u64,
    tokens: &[Token<'_>],
    stuck: Option<LlFault>,
    refused: Option<Refusal>,
) -> Option<u64>
    ensures { result ≡ least (refused_places end (lexemes_of tokens.now) stuck refused) }
{
    match refused {
        Some(refusal) => {
            if is_of_text(stuck, refusal.left) {
                Some(place_of(end, tokens, refusal.left))
            } else {
                None
            }
        }
        None => None,
    }
}

/// Whether a refusal of tokens is one of the text: one at their end is none where they end only since no token begins there.
fn is_of_text(stuck: Option<LlFault>, left: usize) -> bool
    ensures { result ≡ is_of_text stuck left }
{
    match stuck {
        Some(_fault) => left > 0,
        None => true,
    }
}

/// The place of the token from which on so many are left, or the end of the text.
fn place_of(end: u64, tokens: &[Token<'_>], left: usize) -> u64
    ensures { result ≡ place_of end (lexemes_of tokens.now) left }
{
    let skipped = tokens.len().saturating_sub(left);
    first_place(end, from(tokens, skipped))
}

/// The tokens from a place on.
fn from<'t, 'a>(tokens: &'t [Token<'a>], place: usize) -> &'t [Token<'a>]
    requires { place ≤ length tokens.now }
    ensures { result.now ≡ drop place tokens.now }
{
    &tokens[place..]
}

/// The place of the first token, or the end of the text.
fn first_place(end: u64, tokens: &[Token<'_>]) -> u64
    ensures { result ≡ first_place end (lexemes_of tokens.now) }
{
    match tokens {
        [first, ..] => first.byte,
        [] => end,
    }
}
