/// What a token is (LLVM 14 Language Reference, "Identifiers", and the tokens that its grammar is
/// written in). A name is a letter, `-`, `$`, `.` or `_`, then these or digits; a quoted text is a
/// double quote, any bytes but that, and a double quote.
#[derive(Clone, Copy, Debug, PartialEq, Eq, Hash)]
pub enum TokenKind {
    /// Letters, digits, `-`, `$`, `.` and `_`, at least one, or a quoted text, and behind it `:`.
    Label,

    /// `%`, then digits, a name or a quoted text.
    Local,

    /// `@`, then digits, a name or a quoted text.
    Global,

    /// A metadata node: `!` and digits.
    Mdn,

    /// A metadata name: `!` and a name.
    MdName,

    /// A metadata string: `!` and a quoted text.
    MdStr,

    /// `!` alone.
    Bang,

    /// An attribute group: `#` and digits.
    Attr,

    /// A quoted text.
    Str,

    /// `c` and a quoted text.
    CStr,

    /// Digits, with `-` before them or not.
    Int,

    /// A letter or `_`, then letters, digits and `_`.
    Word,

    /// One of `( ) { } [ ] < > , = *`.
    Punct,
}

/// A token of a text: its kind, its slice of the text, and the byte of the text where it begins,
/// counted from 0.
#[derive(Clone, Copy, Debug, PartialEq, Eq, Hash)]
pub struct Token<'a> {
    pub kind: TokenKind,
    pub text: &'a str,
    pub byte: u64,
}
