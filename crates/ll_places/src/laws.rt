//! What holds of all texts: the contracts of these functions, which do nothing.

ghost use Rattle.std.specs.Prelude.{◌≡◌, List, ℕ};
ghost use Rattle.ports.specs.declared.faults.LlFault.{LlFault};
ghost use Rattle.ll_tokens.specs.Tokens.{Lexeme};
ghost use Rattle.ll_parser.specs.declared.refusal.Refusal.{Refusal};
ghost use Rattle.ll_modules.specs.Modules.{items_part};
ghost use Rattle.ll_texts.specs.TextFaults.{IsTextFault};

/// Tokens that are those of no module are refused at one of them, by one rule.
pub fn tokens_are_refused_once()
    ensures { (tokens : List Lexeme) (r s : Refusal) → items_part.stops tokens r → items_part.stops tokens s → r ≡ s }
{}

/// One rule at one place is told of an input that is no module's text.
pub fn texts_have_one_fault()
    ensures { (input : List ℕ) (f g : LlFault) → IsTextFault input f → IsTextFault input g → f ≡ g }
{}
