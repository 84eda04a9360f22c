ghost use Rattle.std.specs.Prelude.{◌≡◌, List};
ghost use Rattle.ll_tokens.specs.Tokens.{Lexeme};
ghost use Rattle.ll_tree.specs.declared.name.NameText.{NameText};
ghost use Rattle.ll_tree.specs.declared.op.Op.{Op};
ghost use Rattle.ll_parser.specs.declared.refusal.Refusal.{Refusal};
ghost use Rattle.ll_parser.specs.GrammarInsts.{operation};
ghost use Rattle.ll_parser.specs.NameReading.{DerivesNoneWith};
ghost use Rattle.ll_operands.specs.Whole.{EndsOperation};
ghost use Rattle.ll_flow_ops.specs.FlowOperations.{IsFlowOperation, flow_operation, flow_operation_part};

/// What the grammar derives of instructions of control flow is of the part that is read.
pub fn flow_operations_are_parts()
    ensures { (names : List NameText) (o : Op) (tokens rest : List Lexeme) →
        flow_operation names o tokens rest → flow_operation_part.begins tokens rest }
{}

/// The instruction of control flow with which tokens begin leaves one list, whatever the tables of names.
pub fn flow_operations_leave_one_rest()
    ensures { (names other : List NameText) (o p : Op) (tokens a b : List Lexeme) →
        flow_operation names o tokens a → flow_operation other p tokens b → a ≡ b }
{}

/// Tokens that are refused for an instruction of control flow begin with none, whatever the table of names.
pub fn refused_flow_operations_derive_nothing()
    ensures { (tokens : List Lexeme) (refusal : Refusal) →
        flow_operation_part.stops tokens refusal → DerivesNoneWith flow_operation tokens }
{}

/// An instruction of control flow behind which no instruction goes on is a whole one.
pub fn flow_operations_before_an_end_are_whole()
    ensures { (names : List NameText) (o : Op) (tokens rest : List Lexeme) →
        IsFlowOperation o → operation names o tokens rest → EndsOperation rest → flow_operation names o tokens rest }
{}
