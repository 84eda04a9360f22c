use sqlite_items::Items;

/// A name where it is written: the number that the module's table gives it, and the byte of the text at
/// which it begins. A name that an instruction, a block or a parameter leaves out has the place of what it
/// names.
#[derive(Clone, Copy, Debug, PartialEq, Eq)]
pub struct Name {
    pub number: u32,
    pub byte: u64,
}

/// What a name can name. Each kind has names of its own.
#[derive(Clone, Copy, Debug, PartialEq, Eq)]
pub enum NameKind {
    /// A value or a block of a function, as `%x`.
    Local,
    /// A function or a variable of the module, as `@x`.
    Global,
    /// A struct type, as `%x` where a type stands.
    Struct,
}

/// How a name is spelled (LLVM 14, Identifiers). `%7` and `%"7"` are two names.
#[derive(Drop)]
pub enum Spelling {
    /// Digits, read as a number. A name that is left out has the next number.
    Number(u32),
    /// The bytes of a text, without quotes and escapes.
    Text(Items<u8>),
}

/// The name that a number of the module's table stands for.
#[derive(Drop)]
pub struct NameText {
    pub kind: NameKind,
    pub spelling: Spelling,
}
