ghost use Rattle.std.specs.Prelude.{◌≡◌, ◌<◌, map, slice_index};
ghost use Rattle.std.specs.List.{range_with_len};

use std::marker::Model;

/// The numbers of a work-item, in the order of the built-in variables 24 to 34 of SPIR-V 1.2: three
/// each for 24 to 28 and 31 to 33, one each for 29, 30 and 34.
#[derive(Clone, Copy, Debug, PartialEq, Eq)]
pub struct Item {
    numbers: [u64; 27],
}

impl Model for Item {
    ghost use Rattle.std.specs.Prelude.{◌≡◌, ℕ, List, length};

    ghost Value = { List ℕ };

    ghost view = { λ item. item.numbers };

    ghost invariant = { λ item. length item.numbers ≡ 27 };

    ghost inverse = { λ numbers. record { numbers = numbers } };
}

impl Item {
    /// The item with these numbers: missing ones are 0, and further ones stay unread.
    pub fn new(numbers: &[u64]) -> Item
        ensures { result ≡ map (slice_index numbers.now) (range_with_len 0 27) }
    {
        let mut kept = [0u64; 27];
        for i in 0..27 {
            kept[i] = number_or_zero(numbers, i);
        }
        Item { numbers: kept }
    }

    /// The number at a place, of which there are 27.
    pub fn at(&self, i: usize) -> u64
        requires { i < 27 }
        ensures { result ≡ slice_index self.now i }
    {
        self.numbers[i]
    }
}

fn number_or_zero(numbers: &[u64], i: usize) -> u64
    ensures { result ≡ slice_index numbers.now i }
{
    if i < numbers.len() { numbers[i] } else { 0 }
}

/// A list of numbers.
#[derive(Debug, Drop)]
pub struct Numbers {
    items: Vec<u64>,
}

impl Model for Numbers {
    ghost use Rattle.std.specs.Prelude.{ℕ, List};

    ghost Value = { List ℕ };

    ghost view = { λ numbers. numbers.items.items };
}

impl Numbers {
    /// The list that a vector holds.
    pub fn from_vec(items: Vec<u64>) -> Numbers
        ensures { result ≡ items.items }
    {
        Numbers { items }
    }

    /// The vector that holds the list.
    pub fn into_vec(self) -> Vec<u64>
        ensures { result.items ≡ self }
    {
        self.items
    }

    /// The list as a slice.
    pub fn as_slice(&self) -> &[u64]
        ensures { result.now ≡ self.now }
    {
        self.items.as_slice()
    }
}

/// What one work-item is run on: its numbers, one number for each lane of each kernel parameter, and
/// the answers to its events, in their order.
#[derive(Debug, Drop)]
pub struct Inputs {
    pub item: Item,
    pub args: Numbers,
    pub answers: Numbers,
}
