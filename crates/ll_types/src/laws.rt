ghost use Rattle.std.specs.Prelude.{◌≡◌, List};
ghost use Rattle.ll_tokens.specs.Tokens.{Lexeme};
ghost use Rattle.ll_tree.specs.declared.name.NameText.{NameText};
ghost use Rattle.ll_tree.specs.declared.ty.LlType.{LlType};
ghost use Rattle.ll_tree.specs.declared.value.TypedValue.{TypedValue};
ghost use Rattle.ll_tree.specs.declared.value.Value.{Value};
ghost use Rattle.ll_parser.specs.declared.refusal.Refusal.{Refusal};
ghost use Rattle.ll_parser.specs.GrammarValues.{typed, value};
ghost use Rattle.ll_parser.specs.NameReading.{DerivesNoneWith};
ghost use Rattle.ll_parser.specs.Tables.{NoNameTwice};
ghost use Rattle.ll_types.specs.TypeParts.{ty_here};
ghost use Rattle.ll_types.specs.TypeRefusals.{TypeFails};
ghost use Rattle.ll_types.specs.ValueParts.{value_of};
ghost use Rattle.ll_types.specs.ValueRefusals.{TypedFails, ValueFails};

/// The type with which tokens begin leaves one list, whatever the tables of names.
pub fn types_leave_one_rest()
    ensures { (names other : List NameText) (t u : LlType) (tokens a b : List Lexeme) →
        ty_here names t tokens a → ty_here other u tokens b → a ≡ b }
{}

/// With one table of names, each name of which is there once, tokens begin with one type at most, and what is left then is
/// one list.
pub fn types_are_read_in_one_way()
    ensures { (names : List NameText) → NoNameTwice names → (t u : LlType) (tokens a b : List Lexeme) →
        ty_here names t tokens a → ty_here names u tokens b → (t ≡ u) × (a ≡ b) }
{}

/// Tokens that are refused for a type begin with none, whatever the table of names.
pub fn refused_types_derive_nothing()
    ensures { (tokens : List Lexeme) (refusal : Refusal) → TypeFails tokens refusal → DerivesNoneWith ty_here tokens }
{}

/// The value with which tokens begin leaves one list, whatever its type and the tables of names, and so does a value behind
/// its type.
pub fn values_leave_one_rest()
    ensures value { (names other : List NameText) (v w : Value) (t u : LlType) (tokens a b : List Lexeme) →
        value names v t tokens a → value other w u tokens b → a ≡ b }
    ensures typed { (names other : List NameText) (v w : TypedValue) (tokens a b : List Lexeme) →
        typed names v tokens a → typed other w tokens b → a ≡ b }
{}

/// Tokens that are refused for a value of a type, or for a type and a value, begin with none, whatever the table of names.
pub fn refused_values_derive_nothing()
    ensures value { (t : LlType) (tokens : List Lexeme) (refusal : Refusal) → ValueFails t tokens refusal → DerivesNoneWith (value_of t) tokens }
    ensures typed { (tokens : List Lexeme) (refusal : Refusal) → TypedFails tokens refusal → DerivesNoneWith typed tokens }
{}
