//! What holds of all tokens: the contracts of these functions, which do nothing.

ghost use Rattle.std.specs.Prelude.{◌≡◌, ℕ, List, false, true};
ghost use Rattle.ll_tokens.specs.declared.kinds.TokenKind.TheVariants.{Label, Local as LocalToken};
ghost use Rattle.ll_tokens.specs.Tokens.{Lexeme};
ghost use Rattle.ll_tree.specs.declared.name.Name.{Name};
ghost use Rattle.ll_tree.specs.declared.name.NameText.{NameText};
ghost use Rattle.ll_tree.specs.declared.op.Op.{Op};
ghost use Rattle.ll_parser.specs.GrammarFunctions.{is_terminator, may_have_name};
ghost use Rattle.ll_parser.specs.GrammarInsts.{operation};
ghost use Rattle.ll_parser.specs.NameReading.{any_of};
ghost use Rattle.ll_parser.specs.Productions.{mark};
ghost use Rattle.ll_parser.specs.Reading.{EndsNowhere};
ghost use Rattle.ll_operands.specs.Parts.{Begins};
ghost use Rattle.ll_bodies.specs.BodyWords.{EndsInst, terminator_word, unnamed_word};
ghost use Rattle.ll_bodies.specs.Labels.{label_here};

/// An instruction ends its block exactly where its word is one of those, and is never given a name exactly where its word is one
/// of those.
pub fn instructions_begin_with_their_words()
    ensures ends { (names : List NameText) (o : Op) (tokens rest : List Lexeme) →
        operation names o tokens rest → is_terminator o ≡ true → Begins terminator_word tokens }
    ensures goes_on { (names : List NameText) (o : Op) (tokens rest : List Lexeme) →
        operation names o tokens rest → is_terminator o ≡ false → EndsNowhere terminator_word tokens }
    ensures unnamed { (names : List NameText) (o : Op) (tokens rest : List Lexeme) →
        operation names o tokens rest → may_have_name o ≡ false → Begins unnamed_word tokens }
    ensures named { (names : List NameText) (o : Op) (tokens rest : List Lexeme) →
        operation names o tokens rest → may_have_name o ≡ true → EndsNowhere unnamed_word tokens }
{}

/// An instruction doesn't go on with another one, a name, a label or the `}` of its function.
pub fn bodies_end_instructions()
    ensures operations { (names : List NameText) (o : Op) (tokens rest : List Lexeme) → operation names o tokens rest → EndsInst tokens }
    ensures names { (tokens rest : List Lexeme) → any_of LocalToken tokens rest → EndsInst tokens }
    ensures labels { (tokens rest : List Lexeme) → any_of Label tokens rest → EndsInst tokens }
    ensures ends { (tokens rest : List Lexeme) → mark 125 tokens rest → EndsInst tokens }
{}

/// The label with which tokens begin leaves one list, whatever its name and the tables of names.
pub fn labels_leave_one_rest()
    ensures { (next other : ℕ) (names table : List NameText) (name label : Name) (tokens a b : List Lexeme) →
        label_here next names name tokens a → label_here other table label tokens b → a ≡ b }
{}
