ghost use Rattle.std.specs.Prelude.{◌≡◌, ℕ, Bool, Contains, List, [], codes};
ghost use Rattle.ll_tokens.specs.declared.kinds.TokenKind.{TokenKind};
ghost use Rattle.ll_tokens.specs.declared.kinds.TokenKind.TheVariants.{Attr, Str, Word};
ghost use Rattle.ll_tokens.specs.Tokens.{Lexeme};
ghost use Rattle.ll_tree.specs.declared.module.Attribute.{Attribute};
ghost use Rattle.ll_tree.specs.declared.module.Linkage.{Linkage};
ghost use Rattle.ll_tree.specs.declared.module.NodeRef.{NodeRef};
ghost use Rattle.ll_tree.specs.declared.name.NameText.{NameText};
ghost use Rattle.ll_tree.specs.declared.ty.LlType.{LlType};
ghost use Rattle.ll_tree.specs.declared.ty.TypeBase.{TypeBase};
ghost use Rattle.ll_tree.specs.declared.value.Value.{Value};
ghost use Rattle.ll_parser.specs.declared.refusal.Refusal.{Refusal};
ghost use Rattle.ll_parser.specs.GrammarAttributes.{any_function_attributes, attribute, function_words, node_name};
ghost use Rattle.ll_parser.specs.GrammarItems.{convention, linkage, text};
ghost use Rattle.ll_parser.specs.GrammarTypes.{type_base};
ghost use Rattle.ll_parser.specs.GrammarValues.{value};
ghost use Rattle.ll_parser.specs.NameReading.{DerivesNoneWith, any_of};
ghost use Rattle.ll_parser.specs.Productions.{each, mark, maybe, word};
ghost use Rattle.ll_parser.specs.Reading.{DerivesNone, EndsNowhere};
ghost use Rattle.ll_parser.specs.Tables.{NoNameTwice};
ghost use Rattle.ll_attributes.specs.Attachments.{AttachmentsFail, IsNoNode, SkippedFail, attachments_here, skipped_attachments};
ghost use Rattle.ll_attributes.specs.AttributeParts.{NoAttribute, attributes_here};
ghost use Rattle.ll_attributes.specs.AttributeRefusals.{AttributesFail};
ghost use Rattle.ll_attributes.specs.FunctionAttributes.{FunctionAttributesFail, IsNoGroup, NoFunctionAttribute, function_attributes_here};
ghost use Rattle.ll_attributes.specs.Heads.{convention_here, linkage_here};
ghost use Rattle.ll_attributes.specs.Lists.{maybe_here};

/// The attributes with which tokens begin, all of them, leave one list, whatever the tables of names.
pub fn attributes_leave_one_rest()
    ensures { (names other : List NameText) (xs ys : List Attribute) (tokens a b : List Lexeme) →
        attributes_here names xs tokens a → attributes_here other ys tokens b → a ≡ b }
{}

/// With one table of names, each name of which is there once, the attributes with which tokens begin are one list, and what
/// is left then is one list.
pub fn attributes_are_read_in_one_way()
    ensures { (names : List NameText) → NoNameTwice names → (xs ys : List Attribute) (tokens a b : List Lexeme) →
        attributes_here names xs tokens a → attributes_here names ys tokens b → (xs ≡ ys) × (a ≡ b) }
{}

/// Attributes of the grammar that stand before neither a further one nor a `(` are those that are read, and what is read is
/// of the grammar.
pub fn attributes_are_read_whole()
    ensures whole { (names : List NameText) (xs : List Attribute) (tokens rest : List Lexeme) →
        each (attribute names) xs tokens rest → NoAttribute rest → EndsNowhere (mark 40) rest → attributes_here names xs tokens rest }
    ensures right { (names : List NameText) (xs : List Attribute) (tokens rest : List Lexeme) →
        attributes_here names xs tokens rest → each (attribute names) xs tokens rest }
{}

/// Tokens that are refused for attributes begin with no list of them, whatever the table of names.
pub fn refused_attributes_derive_nothing()
    ensures { (tokens : List Lexeme) (refusal : Refusal) → AttributesFail tokens refusal → DerivesNoneWith attributes_here tokens }
{}

/// The attributes of a function with which tokens begin, all of them, leave one list.
pub fn function_attributes_leave_one_rest()
    ensures { (tokens a b : List Lexeme) → function_attributes_here tokens a → function_attributes_here tokens b → a ≡ b }
{}

/// A function's attributes of the grammar that stand before neither a further one nor a `=` are those that are read, and
/// what is read is of the grammar.
pub fn function_attributes_are_read_whole()
    ensures whole { (tokens rest : List Lexeme) →
        any_function_attributes tokens rest → NoFunctionAttribute rest → EndsNowhere (mark 61) rest → function_attributes_here tokens rest }
    ensures right { (tokens rest : List Lexeme) → function_attributes_here tokens rest → any_function_attributes tokens rest }
{}

/// Tokens that are refused for attributes of a function begin with no list of them.
pub fn refused_function_attributes_derive_nothing()
    ensures { (tokens : List Lexeme) (refusal : Refusal) → FunctionAttributesFail tokens refusal → EndsNowhere function_attributes_here tokens }
{}

/// The attachments with which tokens begin, all of them, are one list, and what is left then is one list.
pub fn attachments_are_read_in_one_way()
    ensures kept { (xs ys : List (List ℕ × NodeRef)) (tokens a b : List Lexeme) →
        attachments_here xs tokens a → attachments_here ys tokens b → (xs ≡ ys) × (a ≡ b) }
    ensures skipped { (tokens a b : List Lexeme) → skipped_attachments tokens a → skipped_attachments tokens b → a ≡ b }
{}

/// Tokens that are refused for attachments begin with no list of them.
pub fn refused_attachments_derive_nothing()
    ensures kept { (tokens : List Lexeme) (refusal : Refusal) → AttachmentsFail tokens refusal → DerivesNone attachments_here tokens }
    ensures skipped { (tokens : List Lexeme) (refusal : Refusal) → SkippedFail tokens refusal → EndsNowhere skipped_attachments tokens }
{}

/// Tokens begin with one metadata node at most, and with one text at most, and what is left then is one list.
pub fn nodes_and_texts_are_read_in_one_way()
    ensures node { (n m : NodeRef) (tokens a b : List Lexeme) →
        node_name n tokens a → node_name m tokens b → (n ≡ m) × (a ≡ b) }
    ensures text { (xs ys : List ℕ) (tokens a b : List Lexeme) →
        text xs tokens a → text ys tokens b → (xs ≡ ys) × (a ≡ b) }
{}

/// The linkage with which tokens begin is one, and so is the calling convention, and what is left then is one list.
pub fn heads_are_read_in_one_way()
    ensures linkage { (l m : Linkage) (tokens a b : List Lexeme) →
        linkage_here l tokens a → linkage_here m tokens b → (l ≡ m) × (a ≡ b) }
    ensures convention { (x y : Bool) (tokens a b : List Lexeme) →
        convention_here x tokens a → convention_here y tokens b → (x ≡ y) × (a ≡ b) }
{}

/// A linkage of the grammar before neither word of one is that which is read, and so is a calling convention; and what may
/// be left out is read where it stands.
pub fn heads_are_read_whole()
    ensures linkage { (l : Linkage) (tokens rest : List Lexeme) →
        linkage l tokens rest → EndsNowhere (word (codes "internal")) rest → EndsNowhere (word (codes "private")) rest → linkage_here l tokens rest }
    ensures convention { (names : List NameText) (is_kernel : Bool) (tokens rest : List Lexeme) →
        convention names is_kernel tokens rest → EndsNowhere (word (codes "spir_kernel")) rest → EndsNowhere (word (codes "spir_func")) rest → convention_here is_kernel tokens rest }
    ensures others { (text : List ℕ) (tokens rest : List Lexeme) →
        maybe (word text) tokens rest → EndsNowhere (word text) rest → maybe_here (word text) tokens rest }
{}

/// Behind attributes a type or a value begins no further one, nor does a mark, nor the end of the tokens.
pub fn types_and_values_begin_no_attribute()
    ensures types { (names : List NameText) (base : TypeBase) (tokens rest : List Lexeme) → type_base names base tokens rest → NoAttribute tokens }
    ensures values { (names : List NameText) (v : Value) (t : LlType) (tokens rest : List Lexeme) → value names v t tokens rest → NoAttribute tokens }
    ensures marks { (code : ℕ) (tokens rest : List Lexeme) → mark code tokens rest → NoAttribute tokens }
    ensures nothing { NoAttribute [] }
{}

/// Behind attributes of a function neither a token of another kind nor another word begins a further one, nor does the end
/// of the tokens.
pub fn other_tokens_begin_no_function_attribute()
    ensures tokens { (kind : TokenKind) (tokens rest : List Lexeme) →
        (kind ≡ Attr → ⊥) → (kind ≡ Str → ⊥) → (kind ≡ Word → ⊥) → any_of kind tokens rest → NoFunctionAttribute tokens }
    ensures words { (text : List ℕ) (tokens rest : List Lexeme) →
        (Contains function_words text → ⊥) → word text tokens rest → NoFunctionAttribute tokens }
    ensures nothing { NoFunctionAttribute [] }
{}

/// Tokens that are refused are refused at one place, by one rule.
pub fn tokens_are_refused_at_one_place()
    ensures node { (tokens : List Lexeme) (r s : Refusal) → IsNoNode tokens r → IsNoNode tokens s → r ≡ s }
    ensures group { (tokens : List Lexeme) (r s : Refusal) → IsNoGroup tokens r → IsNoGroup tokens s → r ≡ s }
    ensures function_attributes { (tokens : List Lexeme) (r s : Refusal) → FunctionAttributesFail tokens r → FunctionAttributesFail tokens s → r ≡ s }
    ensures attachments { (tokens : List Lexeme) (r s : Refusal) → AttachmentsFail tokens r → AttachmentsFail tokens s → r ≡ s }
    ensures skipped { (tokens : List Lexeme) (r s : Refusal) → SkippedFail tokens r → SkippedFail tokens s → r ≡ s }
{}
