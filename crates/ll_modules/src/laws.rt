//! What holds of all tokens: the contracts of these functions, which do nothing.

ghost use Rattle.std.specs.Prelude.{◌≡◌, List, []};
ghost use Rattle.ll_tokens.specs.Tokens.{Lexeme};
ghost use Rattle.ll_tree.specs.declared.module.LlModule.{LlModule};
ghost use Rattle.ll_tree.specs.declared.name.NameText.{NameText};
ghost use Rattle.ll_parser.specs.declared.refusal.Refusal.{Refusal};
ghost use Rattle.ll_parser.specs.GrammarItems.{IsModule, Item, item};
ghost use Rattle.ll_parser.specs.NameReading.{DerivesNoneWith};
ghost use Rattle.ll_modules.specs.declared.items.ModuleItem.{ModuleItem};
ghost use Rattle.ll_modules.specs.ModuleItems.{EndsModuleItem, grammar_item, item_here, module_item_part};
ghost use Rattle.ll_modules.specs.Modules.{items_part};

/// The item that is read is of the grammar, and an item of the grammar before tokens that don't go on with it is that which is
/// read. Neither a further item goes on with one nor the end of the tokens.
pub fn items_are_read_whole()
    ensures right { (names : List NameText) (i : ModuleItem) (tokens rest : List Lexeme) →
        item_here names i tokens rest → item names (grammar_item i) tokens rest }
    ensures whole { (names : List NameText) (i : ModuleItem) (tokens rest : List Lexeme) →
        item names (grammar_item i) tokens rest → EndsModuleItem rest → item_here names i tokens rest }
    ensures further { (names : List NameText) (i : Item) (tokens rest : List Lexeme) → item names i tokens rest → EndsModuleItem tokens }
    ensures nothing { EndsModuleItem [] }
{}

/// The item with which tokens begin leaves one list, whatever it is and the tables of names.
pub fn items_leave_one_rest()
    ensures { (names other : List NameText) (i j : ModuleItem) (tokens a b : List Lexeme) →
        item_here names i tokens a → item_here other j tokens b → a ≡ b }
{}

/// Tokens that are refused for an item begin with none, whatever the table of names.
pub fn refused_items_derive_nothing()
    ensures { (tokens : List Lexeme) (refusal : Refusal) → module_item_part.stops tokens refusal → DerivesNoneWith item_here tokens }
{}

/// Tokens that are refused for the items of a module are those of none.
pub fn refused_tokens_are_of_no_module()
    ensures { (tokens : List Lexeme) (refusal : Refusal) (m : LlModule) → items_part.stops tokens refusal → IsModule tokens m → ⊥ }
{}
