ghost use Rattle.std.specs.Prelude.{◌≡◌, List};
ghost use Rattle.ll_tokens.specs.Tokens.{Lexeme};
ghost use Rattle.ll_tree.specs.declared.name.NameText.{NameText};
ghost use Rattle.ll_tree.specs.declared.op.Op.{Op};
ghost use Rattle.ll_parser.specs.declared.refusal.Refusal.{Refusal};
ghost use Rattle.ll_parser.specs.GrammarInsts.{operation};
ghost use Rattle.ll_parser.specs.NameReading.{DerivesNoneWith};
ghost use Rattle.ll_operands.specs.Whole.{operation_here};
ghost use Rattle.ll_calls.specs.Calls.{EndsCall, IsCall, call_operation, call_part};

/// A call that is read is one of the grammar, and no attribute of a function goes on with it.
pub fn calls_are_operations()
    ensures { (names : List NameText) (o : Op) (tokens rest : List Lexeme) →
        call_operation names o tokens rest → IsCall o × operation_here names o tokens rest }
{}

/// A call that is read is of the part that is read.
pub fn calls_are_parts()
    ensures { (names : List NameText) (o : Op) (tokens rest : List Lexeme) →
        call_operation names o tokens rest → call_part.begins tokens rest }
{}

/// The call with which tokens begin leaves one list, whatever the tables of names.
pub fn calls_leave_one_rest()
    ensures { (names other : List NameText) (o p : Op) (tokens a b : List Lexeme) →
        call_operation names o tokens a → call_operation other p tokens b → a ≡ b }
{}

/// Tokens that are refused for a call begin with none, whatever the table of names.
pub fn refused_calls_derive_nothing()
    ensures { (tokens : List Lexeme) (refusal : Refusal) →
        call_part.stops tokens refusal → DerivesNoneWith call_operation tokens }
{}

/// A call of the grammar behind which no call goes on is a whole one, as it is read.
pub fn calls_before_an_end_are_whole()
    ensures { (names : List NameText) (o : Op) (tokens rest : List Lexeme) →
        IsCall o → operation names o tokens rest → EndsCall rest → call_operation names o tokens rest }
{}
