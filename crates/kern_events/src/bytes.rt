ghost use Rattle.std.specs.Prelude.{◌≡◌};

use std::marker::Model;

/// The initial bytes of a variable.
#[derive(Debug, Drop)]
pub struct InitBytes {
    items: Vec<u8>,
}

impl Model for InitBytes {
    ghost use Rattle.std.specs.Prelude.{ℕ, List};

    ghost Value = { List ℕ };

    ghost view = { λ bytes. bytes.items.items };
}

impl InitBytes {
    /// The bytes that a vector holds.
    pub fn from_vec(items: Vec<u8>) -> InitBytes
        ensures { result ≡ items.items }
    {
        InitBytes { items }
    }

    /// The vector that holds the bytes.
    pub fn into_vec(self) -> Vec<u8>
        ensures { result.items ≡ self }
    {
        self.items
    }

    /// The bytes as a slice.
    pub fn as_slice(&self) -> &[u8]
        ensures { result.now ≡ self.now }
    {
        self.items.as_slice()
    }
}

/// What a variable holds at first.
#[derive(Debug, Drop)]
pub enum Init {
    /// Nothing is said of it, as of a variable shared by a work-group.
    Nothing,
    Bytes(InitBytes),
}
