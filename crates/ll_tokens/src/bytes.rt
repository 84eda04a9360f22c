ghost use Rattle.std.specs.Prelude.{◌≡◌};
ghost use Rattle.std.specs.List.{prefix_len};
ghost use Rattle.ll_tokens.specs.Forms.{in_class};

/// The classes of bytes that tokens, and the blanks between them, are made of.
#[derive(Clone, Copy)]
pub enum ByteClass {
    /// Space, tab, carriage return and line feed.
    Blank,
    Digit,
    Name,
    NameStart,
    Punctuation,

    /// What may stand between double quotes.
    Unquoted,
    Word,
    WordStart,
}

impl ByteClass {
    pub fn contains(self, byte: u8) -> bool
        ensures { result ≡ in_class self byte }
    {
        match self {
            ByteClass::Blank => b" \t\r\n".contains(&byte),
            ByteClass::Digit => byte.is_ascii_digit(),
            ByteClass::Name => byte.is_ascii_alphanumeric() || b"-$._".contains(&byte),
            ByteClass::NameStart => byte.is_ascii_alphabetic() || b"-$._".contains(&byte),
            ByteClass::Punctuation => b"(){}[]<>,=*".contains(&byte),
            ByteClass::Unquoted => byte != b'"',
            ByteClass::Word => byte.is_ascii_alphanumeric() || byte == b'_',
            ByteClass::WordStart => byte.is_ascii_alphabetic() || byte == b'_',
        }
    }
}

/// How many bytes at the front are of the class.
pub fn run_len(class: ByteClass, bytes: &[u8]) -> usize
    ensures { result ≡ prefix_len (in_class class) bytes.now }
{
    bytes.iter().take_while(|b| class.contains(**b)).count()
}
