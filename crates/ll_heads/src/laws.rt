//! What holds of all tokens: the contracts of these functions, which do nothing.

ghost use Rattle.std.specs.Prelude.{◌≡◌, ℕ, List, [], flat_map};
ghost use Rattle.ll_tokens.specs.Tokens.{Lexeme};
ghost use Rattle.inst_walk.specs.declared.body.Body.{Body};
ghost use Rattle.ll_tree.specs.declared.inst.Inst.{Inst};
ghost use Rattle.ll_tree.specs.declared.module.Function.{Function};
ghost use Rattle.ll_tree.specs.declared.module.Head.{Head};
ghost use Rattle.ll_tree.specs.declared.name.NameText.{NameText};
ghost use Rattle.ll_parser.specs.declared.refusal.Refusal.{Refusal};
ghost use Rattle.ll_parser.specs.GrammarFunctions.{next_after};
ghost use Rattle.ll_parser.specs.GrammarItems.{declaration, definition, number_of};
ghost use Rattle.ll_parser.specs.NameReading.{DerivesNoneWith};
ghost use Rattle.ll_parser.specs.Tables.{NoNameTwice};
ghost use Rattle.ll_heads.specs.declared.definitions.DefinitionStart.{DefinitionStart};
ghost use Rattle.ll_heads.specs.Definitions.{body_behind, definition_start, definition_start_here, start_of};
ghost use Rattle.ll_heads.specs.HeadParts.{declaration_part, definition_part};
ghost use Rattle.ll_heads.specs.Heads.{EndsHead, declaration_here};

/// The declaration with which tokens begin leaves one list, whatever the tables of names, and so does the definition up to its
/// `{`.
pub fn heads_leave_one_rest()
    ensures declarations { (names other : List NameText) (h g : Head) (tokens a b : List Lexeme) →
        declaration_here names h tokens a → declaration_here other g tokens b → a ≡ b }
    ensures definitions { (names other : List NameText) (d e : DefinitionStart) (tokens a b : List Lexeme) →
        definition_start_here names d tokens a → definition_start_here other e tokens b → a ≡ b }
{}

/// Tokens that are refused for a declaration begin with none, whatever the table of names, and so with definitions up to their
/// `{`.
pub fn refused_heads_derive_nothing()
    ensures declarations { (tokens : List Lexeme) (refusal : Refusal) →
        declaration_part.stops tokens refusal → DerivesNoneWith declaration_here tokens }
    ensures definitions { (tokens : List Lexeme) (refusal : Refusal) →
        definition_part.stops tokens refusal → DerivesNoneWith definition_start_here tokens }
{}

/// With one table of names, each name of which is there once, tokens begin with one declaration at most, and with one
/// definition up to its `{`, and what is left then is one list.
pub fn heads_are_read_in_one_way()
    ensures declarations { (names : List NameText) → NoNameTwice names → (h g : Head) (tokens a b : List Lexeme) →
        declaration_here names h tokens a → declaration_here names g tokens b → (h ≡ g) × (a ≡ b) }
    ensures definitions { (names : List NameText) → NoNameTwice names → (d e : DefinitionStart) (tokens a b : List Lexeme) →
        definition_start_here names d tokens a → definition_start_here names e tokens b → (d ≡ e) × (a ≡ b) }
{}

/// A declaration of the grammar behind which no head goes on is the one that is read, and what is read is of the grammar.
pub fn declarations_are_read_whole()
    ensures whole { (names : List NameText) (h : Head) (tokens rest : List Lexeme) →
        declaration names h tokens rest → EndsHead rest → declaration_here names h tokens rest }
    ensures right { (names : List NameText) (h : Head) (tokens rest : List Lexeme) →
        declaration_here names h tokens rest → declaration names h tokens rest }
{}

/// The front of a definition of the grammar, up to its `{`, is what is read, and what is read is of the grammar.
pub fn definition_starts_are_read_whole()
    ensures whole { (names : List NameText) (d : DefinitionStart) (tokens rest : List Lexeme) →
        definition_start names d tokens rest → definition_start_here names d tokens rest }
    ensures right { (names : List NameText) (d : DefinitionStart) (tokens rest : List Lexeme) →
        definition_start_here names d tokens rest → definition_start names d tokens rest }
{}

/// A definition of the grammar is its front up to the `{`, then its blocks, whose numbers go on behind the parameters, and `}`.
pub fn definitions_begin_with_their_fronts()
    ensures apart { (names : List NameText) (f : Function) (b : Body Inst ℕ) (tokens rest : List Lexeme) →
        definition names f b tokens rest →
        (middle : List Lexeme) × definition_start names (start_of f (next_after names b.params 0)) tokens middle
        × body_behind names f b middle rest }
    ensures joined { (names : List NameText) (f : Function) (b : Body Inst ℕ) (tokens middle rest : List Lexeme) →
        b.params ≡ flat_map (number_of names) f.head.params → (f.labels ≡ [] → ⊥) →
        definition_start names (start_of f (next_after names b.params 0)) tokens middle →
        body_behind names f b middle rest → definition names f b tokens rest }
{}
