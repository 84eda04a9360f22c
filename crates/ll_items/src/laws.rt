//! What holds of all tokens: the contracts of these functions, which do nothing.

ghost use Rattle.std.specs.Prelude.{◌≡◌, ℕ, List, None};
ghost use Rattle.ll_tokens.specs.Tokens.{Lexeme};
ghost use Rattle.ll_tree.specs.declared.module.Node.{Node};
ghost use Rattle.ll_tree.specs.declared.module.NodeRef.{NodeRef};
ghost use Rattle.ll_tree.specs.declared.module.Struct.{Struct};
ghost use Rattle.ll_tree.specs.declared.module.Target.{Target};
ghost use Rattle.ll_tree.specs.declared.module.Variable.{Variable};
ghost use Rattle.ll_tree.specs.declared.name.NameText.{NameText};
ghost use Rattle.ll_parser.specs.declared.refusal.Refusal.{Refusal};
ghost use Rattle.ll_parser.specs.GrammarItems.{dropped_item, item, named_nodes, node, struct_type, target, variable};
ghost use Rattle.ll_parser.specs.NameReading.{DerivesNoneWith};
ghost use Rattle.ll_parser.specs.Pointers.{NoPointer};
ghost use Rattle.ll_parser.specs.Productions.{mark};
ghost use Rattle.ll_parser.specs.Reading.{DerivesNone, EndsNowhere};
ghost use Rattle.ll_parser.specs.Tables.{NoNameTwice};
ghost use Rattle.ll_items.specs.ItemParts.{group_item, named_item, node_item, source_item, struct_here, struct_item, target_item};
ghost use Rattle.ll_items.specs.VariableParts.{variable_here, variable_item};
ghost use Rattle.ll_items.specs.Starts.{EndsItem, SmallFails, item_of, small_here, start_of};
ghost use Rattle.ll_items.specs.declared.small_items.SmallItem.{SmallItem};

/// The item with which tokens begin leaves one list, whatever its values and the tables of names.
pub fn items_leave_one_rest()
    ensures struct_type { (names other : List NameText) (s t : Struct) (tokens a b : List Lexeme) → struct_here names s tokens a → struct_here other t tokens b → a ≡ b }
    ensures node { (names other : List NameText) (n m : Node) (tokens a b : List Lexeme) → node names n tokens a → node other m tokens b → a ≡ b }
    ensures variable { (names other : List NameText) (v w : Variable) (tokens a b : List Lexeme) → variable_here names v tokens a → variable_here other w tokens b → a ≡ b }
    ensures source { (tokens a b : List Lexeme) → source_item.begins tokens a → source_item.begins tokens b → a ≡ b }
    ensures group { (tokens a b : List Lexeme) → group_item.begins tokens a → group_item.begins tokens b → a ≡ b }
{}

/// Tokens begin with one target line at most, with one definition of a struct type, where no name is twice in the table, and with
/// one list of named metadata, and what is left then is one list.
pub fn items_are_read_in_one_way()
    ensures target { (t u : Target) (tokens a b : List Lexeme) → target t tokens a → target u tokens b → (t ≡ u) × (a ≡ b) }
    ensures struct_type { (names : List NameText) → NoNameTwice names → (s t : Struct) (tokens a b : List Lexeme) →
        struct_here names s tokens a → struct_here names t tokens b → (s ≡ t) × (a ≡ b) }
    ensures named { (x y : List ℕ) (xs ys : List NodeRef) (tokens a b : List Lexeme) →
        named_nodes x xs tokens a → named_nodes y ys tokens b → (x ≡ y) × (xs ≡ ys) × (a ≡ b) }
{}

/// Tokens that are refused for an item begin with none, whatever the table of names.
pub fn refused_items_derive_nothing()
    ensures target { (tokens : List Lexeme) (refusal : Refusal) → target_item.stops tokens refusal → DerivesNone target tokens }
    ensures struct_type { (tokens : List Lexeme) (refusal : Refusal) → struct_item.stops tokens refusal → DerivesNoneWith struct_here tokens }
    ensures variable { (tokens : List Lexeme) (refusal : Refusal) → variable_item.stops tokens refusal → DerivesNoneWith variable_here tokens }
    ensures node { (tokens : List Lexeme) (refusal : Refusal) → node_item.stops tokens refusal → DerivesNoneWith node tokens }
    ensures named { (tokens : List Lexeme) (refusal : Refusal) (name : List ℕ) → named_item.stops tokens refusal → DerivesNone (named_nodes name) tokens }
    ensures source { (tokens : List Lexeme) (refusal : Refusal) → source_item.stops tokens refusal → EndsNowhere source_item.begins tokens }
    ensures group { (tokens : List Lexeme) (refusal : Refusal) → group_item.stops tokens refusal → EndsNowhere group_item.begins tokens }
{}

/// What is read is of the grammar, and a struct type of the grammar before no further pointer is that which is read, and so is a
/// variable before no further comma.
pub fn items_are_read_whole()
    ensures struct_right { (names : List NameText) (s : Struct) (tokens rest : List Lexeme) → struct_here names s tokens rest → struct_type names s tokens rest }
    ensures struct_whole { (names : List NameText) (s : Struct) (tokens rest : List Lexeme) → struct_type names s tokens rest → NoPointer rest → struct_here names s tokens rest }
    ensures variable_right { (names : List NameText) (v : Variable) (tokens rest : List Lexeme) → variable_here names v tokens rest → variable names v tokens rest }
    ensures variable_whole { (names : List NameText) (v : Variable) (tokens rest : List Lexeme) → variable names v tokens rest → EndsNowhere (mark 44) rest → variable_here names v tokens rest }
    ensures source { (tokens rest : List Lexeme) → source_item.begins tokens rest → dropped_item tokens rest }
    ensures group { (tokens rest : List Lexeme) → group_item.begins tokens rest → dropped_item tokens rest }
{}

/// The item that is no function and with which tokens begin leaves one list, whatever it is and the tables of names.
pub fn small_items_leave_one_rest()
    ensures { (names other : List NameText) (i j : SmallItem) (tokens a b : List Lexeme) → small_here names i tokens a → small_here other j tokens b → a ≡ b }
{}

/// Tokens that are refused for an item begin with none, and neither do tokens whose first one begins no item.
pub fn refused_small_items_derive_nothing()
    ensures refused { (tokens : List Lexeme) (refusal : Refusal) → SmallFails tokens refusal → DerivesNoneWith small_here tokens }
    ensures absent { (tokens : List Lexeme) → start_of tokens ≡ None → DerivesNoneWith small_here tokens }
{}

/// The item that is read is of the grammar, and an item of the grammar before tokens that don't go on with it is that which is
/// read.
pub fn small_items_are_read_whole()
    ensures right { (names : List NameText) (i : SmallItem) (tokens rest : List Lexeme) → small_here names i tokens rest → item names (item_of i) tokens rest }
    ensures whole { (names : List NameText) (i : SmallItem) (tokens rest : List Lexeme) → item names (item_of i) tokens rest → EndsItem rest → small_here names i tokens rest }
{}
