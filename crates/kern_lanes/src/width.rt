ghost use Rattle.std.specs.Prelude.{◌≡◌, ◌%◌, ◌^◌, ◌-◌, pos, FitsSigned};
ghost use Rattle.std.specs.Int.{w64};
ghost use Rattle.kern_lanes.specs.Widths.{bits_of, IsLane, signed_value, lane};

/// How many bits a lane has.
#[derive(Clone, Copy, Debug, PartialEq, Eq, Hash)]
pub enum Width {
    W1,
    W8,
    W16,
    W32,
    W64,
}

impl Width {
    /// The width in bits.
    pub fn bits(self) -> u32
        ensures { result ≡ bits_of self }
    {
        match self {
            Width::W1 => 1,
            Width::W8 => 8,
            Width::W16 => 16,
            Width::W32 => 32,
            Width::W64 => 64,
        }
    }

    /// How many values a lane of this width has.
    pub(crate) fn value_count(self) -> u128
        ensures { result ≡ 2 ^ bits_of self }
    {
        1 << self.bits()
    }

    /// The least lane that stands for a negative value.
    pub(crate) fn least_negative(self) -> u64
        ensures { result ≡ 2 ^ (bits_of self - 1) }
    {
        1 << (self.bits() - 1)
    }

    /// The number modulo 2 to the power of this width.
    pub(crate) fn low_bits(self, number: u128) -> u64
        ensures { result ≡ number % 2 ^ bits_of self }
    {
        (number % self.value_count()) as u64
    }

    /// The signed value that a lane of this width stands for.
    pub(crate) fn signed_value(self, a: u64) -> i128
        requires { IsLane self a }
        ensures value { result ≡ signed_value self a }
        ensures fits { FitsSigned w64 result }
        ensures zero { result ≡ pos 0 → a ≡ 0 }
    {
        if a < self.least_negative() {
            i128::from(a)
        } else {
            i128::from(a) - self.value_count() as i128
        }
    }

    /// The signed number modulo 2 to the power of this width.
    pub(crate) fn lane(self, number: i128) -> u64
        ensures { result ≡ lane self number }
    {
        number.rem_euclid(self.value_count() as i128) as u64
    }
}
