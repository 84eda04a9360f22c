//! What holds of all tokens: the contracts of these functions, which do nothing.

ghost use Rattle.std.specs.Prelude.{◌≡◌, ℕ, List, []};
ghost use Rattle.inst_walk.specs.declared.body.Block.{Block};
ghost use Rattle.ll_tokens.specs.Tokens.{Lexeme};
ghost use Rattle.ll_tree.specs.declared.inst.Inst.{Inst};
ghost use Rattle.ll_tree.specs.declared.name.NameText.{NameText};
ghost use Rattle.ll_parser.specs.declared.refusal.Refusal.{Refusal};
ghost use Rattle.ll_insts.specs.Blocks.{blocks_here};
ghost use Rattle.ll_insts.specs.InstParts.{blocks_part};
ghost use Rattle.ll_insts.specs.declared.blocks.Blocks.{Blocks};

/// What the grammar derives of the blocks of a function, with its `}`, is of the part that is read.
pub fn blocks_are_parts()
    ensures { (next : ℕ) (names : List NameText) (b : Blocks) (tokens rest : List Lexeme) →
        blocks_here next names b tokens rest → blocks_part.begins tokens rest }
{}

/// The blocks with which tokens begin leave one list, whatever the numbers and the tables of names.
pub fn blocks_leave_one_rest()
    ensures { (next other : ℕ) (names table : List NameText) (b c : Blocks) (tokens x y : List Lexeme) →
        blocks_here next names b tokens x → blocks_here other table c tokens y → x ≡ y }
{}

/// Tokens that are refused for the blocks of a function begin with none, whatever the number and the table of names.
pub fn refused_blocks_derive_nothing()
    ensures { (tokens rest : List Lexeme) (refusal : Refusal) (next : ℕ) (names : List NameText) (b : Blocks) →
        blocks_part.stops tokens refusal → blocks_here next names b tokens rest → ⊥ }
{}
