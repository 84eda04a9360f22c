ghost use Rattle.std.specs.Prelude.{◌≡◌, ℕ, List};
ghost use Rattle.ll_tokens.specs.Tokens.{Lexeme};
ghost use Rattle.ll_parser.specs.GrammarTypes.{integer_type, number, space};
ghost use Rattle.ll_parser.specs.Pointers.{pointers_here};
ghost use Rattle.ll_parser.specs.Spaces.{NoSpace, space_here};
ghost use Rattle.ll_parser.specs.Examples.{KernelIsRead, PointerIsRead};

/// `i32 addrspace(1)*` is the type of pointers to a word in space 1.
pub fn types_are_read()
    ensures { PointerIsRead }
{}

/// `define spir_kernel void @k() { ret void }` is the module with this one kernel.
pub fn kernels_are_read()
    ensures { KernelIsRead }
{}

/// Tokens begin with one number at most, and what is left then is one list.
pub fn numbers_are_read_in_one_way()
    ensures { (v w : ℕ) (tokens a b : List Lexeme) →
        number v tokens a → number w tokens b → (v ≡ w) × (a ≡ b) }
{}

/// Tokens begin with one integer type at most, and what is left then is one list.
pub fn integer_types_are_read_in_one_way()
    ensures { (v w : ℕ) (tokens a b : List Lexeme) →
        integer_type v tokens a → integer_type w tokens b → (v ≡ w) × (a ≡ b) }
{}

/// The pointers with which tokens begin, all of them, are one list, and what is left then is one list.
pub fn pointers_are_read_in_one_way()
    ensures { (xs ys : List ℕ) (tokens a b : List Lexeme) →
        pointers_here xs tokens a → pointers_here ys tokens b → (xs ≡ ys) × (a ≡ b) }
{}

/// An address space of the grammar that stands before something else than an address space is the one that is
/// read, and what is read is one of the grammar.
pub fn spaces_are_read_whole()
    ensures whole { (value : ℕ) (tokens rest : List Lexeme) →
        space value tokens rest → NoSpace rest → space_here value tokens rest }
    ensures right { (value : ℕ) (tokens rest : List Lexeme) →
        space_here value tokens rest → space value tokens rest }
{}
