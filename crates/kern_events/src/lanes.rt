ghost use Rattle.std.specs.Prelude.{◌≡◌, ◌≤◌, ◌<◌, length, slice_index};

use std::marker::Model;

/// The lanes of a value, at most 16.
#[derive(Debug, Drop)]
pub struct Lanes {
    count: usize,
    numbers: [u64; 16],
}

impl Model for Lanes {
    ghost use Rattle.std.specs.Prelude.{◌≡◌, ◌≤◌, ℕ, List, length, take};

    ghost Value = { List ℕ };

    ghost view = { λ lanes. take lanes.count lanes.numbers };

    ghost invariant = { λ lanes. (lanes.count ≤ 16) × (length lanes.numbers ≡ 16) };
}

impl Lanes {
    /// The lanes with these numbers.
    pub fn new(numbers: &[u64]) -> Lanes
        requires { length numbers.now ≤ 16 }
        ensures { result ≡ numbers.now }
    {
        let mut kept = [0u64; 16];
        for (i, number) in numbers.iter().enumerate() {
            kept[i] = *number;
        }
        Lanes {
            count: numbers.len(),
            numbers: kept,
        }
    }

    /// How many lanes there are.
    pub fn count(&self) -> usize
        ensures { result ≡ length self.now }
    {
        self.count
    }

    /// The number of a lane.
    pub fn at(&self, i: usize) -> u64
        requires { i < length self.now }
        ensures { result ≡ slice_index self.now i }
    {
        let numbers = &self.numbers;
        numbers[i]
    }
}
