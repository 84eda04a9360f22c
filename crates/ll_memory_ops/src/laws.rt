ghost use Rattle.std.specs.Prelude.{◌≡◌, List};
ghost use Rattle.ll_tokens.specs.Tokens.{Lexeme};
ghost use Rattle.ll_tree.specs.declared.name.NameText.{NameText};
ghost use Rattle.ll_tree.specs.declared.op.Op.{Op};
ghost use Rattle.ll_parser.specs.declared.refusal.Refusal.{Refusal};
ghost use Rattle.ll_parser.specs.GrammarInsts.{operation};
ghost use Rattle.ll_parser.specs.NameReading.{DerivesNoneWith};
ghost use Rattle.ll_operands.specs.Whole.{EndsOperation};
ghost use Rattle.ll_memory_ops.specs.MemoryOperations.{IsMemoryOperation, memory_operation, memory_operation_part};

/// What the grammar derives of instructions on memory is of the part that is read.
pub fn memory_operations_are_parts()
    ensures { (names : List NameText) (o : Op) (tokens rest : List Lexeme) →
        memory_operation names o tokens rest → memory_operation_part.begins tokens rest }
{}

/// The instruction on memory with which tokens begin leaves one list, whatever the tables of names.
pub fn memory_operations_leave_one_rest()
    ensures { (names other : List NameText) (o p : Op) (tokens a b : List Lexeme) →
        memory_operation names o tokens a → memory_operation other p tokens b → a ≡ b }
{}

/// Tokens that are refused for an instruction on memory begin with none, whatever the table of names.
pub fn refused_memory_operations_derive_nothing()
    ensures { (tokens : List Lexeme) (refusal : Refusal) →
        memory_operation_part.stops tokens refusal → DerivesNoneWith memory_operation tokens }
{}

/// An instruction on memory behind which no instruction goes on is a whole one.
pub fn memory_operations_before_an_end_are_whole()
    ensures { (names : List NameText) (o : Op) (tokens rest : List Lexeme) →
        IsMemoryOperation o → operation names o tokens rest → EndsOperation rest → memory_operation names o tokens rest }
{}
