//! What holds of all tokens: the contracts of these functions, which do nothing.

ghost use Rattle.std.specs.Prelude.{◌≡◌, ℕ, List};
ghost use Rattle.ll_tokens.specs.Tokens.{Lexeme};
ghost use Rattle.ll_tree.specs.declared.name.NameText.{NameText};
ghost use Rattle.ll_tree.specs.declared.op.Op.{Op};
ghost use Rattle.ll_parser.specs.declared.refusal.Refusal.{Refusal};
ghost use Rattle.ll_parser.specs.GrammarInsts.{operation};
ghost use Rattle.ll_parser.specs.NameReading.{DerivesNoneWith};
ghost use Rattle.ll_operands.specs.declared.operands.OfOneType.{OfOneType};
ghost use Rattle.ll_operands.specs.declared.operands.Three.{Three};
ghost use Rattle.ll_operands.specs.declared.operands.Two.{Two};
ghost use Rattle.ll_operands.specs.Operands.{of_one_type, one_type_part, three, three_part, two, two_part};
ghost use Rattle.ll_operands.specs.Whole.{EndsOperation, operation_here};

/// The operands with which tokens begin leave one list, whatever their values and the tables of names.
pub fn operands_leave_one_rest()
    ensures two { (names other : List NameText) (o p : Two) (tokens a b : List Lexeme) → two names o tokens a → two other p tokens b → a ≡ b }
    ensures three { (names other : List NameText) (o p : Three) (tokens a b : List Lexeme) → three names o tokens a → three other p tokens b → a ≡ b }
    ensures of_one_type { (names other : List NameText) (o p : OfOneType) (tokens a b : List Lexeme) →
        of_one_type names o tokens a → of_one_type other p tokens b → a ≡ b }
{}

/// Tokens that are refused for operands begin with none, whatever the table of names.
pub fn refused_operands_derive_nothing()
    ensures two { (tokens : List Lexeme) (refusal : Refusal) → two_part.stops tokens refusal → DerivesNoneWith two tokens }
    ensures three { (tokens : List Lexeme) (refusal : Refusal) → three_part.stops tokens refusal → DerivesNoneWith three tokens }
    ensures of_one_type { (tokens : List Lexeme) (refusal : Refusal) → one_type_part.stops tokens refusal → DerivesNoneWith of_one_type tokens }
{}

/// An instruction behind which no instruction goes on is a whole one.
pub fn operations_before_an_end_are_whole()
    ensures { (names : List NameText) (o : Op) (tokens rest : List Lexeme) → operation names o tokens rest → EndsOperation rest → operation_here names o tokens rest }
{}
