ghost use Rattle.std.specs.Prelude.{◌≡◌, List};
ghost use Rattle.ll_tokens.specs.Tokens.{Lexeme};
ghost use Rattle.ll_tree.specs.declared.name.NameText.{NameText};
ghost use Rattle.ll_tree.specs.declared.op.Op.{Op};
ghost use Rattle.ll_parser.specs.declared.refusal.Refusal.{Refusal};
ghost use Rattle.ll_parser.specs.GrammarInsts.{operation};
ghost use Rattle.ll_parser.specs.NameReading.{DerivesNoneWith};
ghost use Rattle.ll_operands.specs.Whole.{EndsOperation};
ghost use Rattle.ll_value_ops.specs.ValueOperations.{IsValueOperation, value_operation, value_operation_part};

/// What the grammar derives of instructions on values is of the part that is read.
pub fn value_operations_are_parts()
    ensures { (names : List NameText) (o : Op) (tokens rest : List Lexeme) →
        value_operation names o tokens rest → value_operation_part.begins tokens rest }
{}

/// The instruction on values with which tokens begin leaves one list, whatever the tables of names.
pub fn value_operations_leave_one_rest()
    ensures { (names other : List NameText) (o p : Op) (tokens a b : List Lexeme) →
        value_operation names o tokens a → value_operation other p tokens b → a ≡ b }
{}

/// Tokens that are refused for an instruction on values begin with none, whatever the table of names.
pub fn refused_value_operations_derive_nothing()
    ensures { (tokens : List Lexeme) (refusal : Refusal) →
        value_operation_part.stops tokens refusal → DerivesNoneWith value_operation tokens }
{}

/// An instruction on values behind which no instruction goes on is a whole one.
pub fn value_operations_before_an_end_are_whole()
    ensures { (names : List NameText) (o : Op) (tokens rest : List Lexeme) →
        IsValueOperation o → operation names o tokens rest → EndsOperation rest → value_operation names o tokens rest }
{}
