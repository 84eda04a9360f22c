ghost use Rattle.std.specs.Prelude.{◌≡◌, ℕ, ◌^◌, ◌<◌, ◌≤◌, List, Option, length, take, IfOk, OnErr};
ghost use Rattle.ports.specs.Causes.{HasCause};
ghost use Rattle.ports.specs.Streams.{Takes};

use crate::source::Failed;

/// Where bytes go to.
pub trait Sink {
    /// The bytes taken so far, where the sink tells them.
    ghost held: { Self → Option (List ℕ) };

    /// How many calls have failed. The count never falls, and stays at 2^64 - 1 once it is there.
    ghost faults: { Self → ℕ };

    /// Takes the first bytes of `buf`, and answers how many, at least 1. `Failed` comes only where the count of faults rose
    /// in this call, and then nothing was taken.
    fn write(&mut self, buf: &[u8]) -> Result<usize, Failed>
        requires { 0 < length buf.now }

        ensures some { IfOk result (λ n. 0 < n) }
        ensures bound { IfOk result (λ n. n ≤ length buf.now) }
        ensures bytes { IfOk result (λ n. Takes (held self.old) (held self.new) (take n buf.now)) }
        ensures stays { OnErr result (held self.new ≡ held self.old) }

        ensures cause { HasCause (faults self.old) (faults self.new) result }
        ensures counted { faults self.new < 2 ^ 64 };
}
