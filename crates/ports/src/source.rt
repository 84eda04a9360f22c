ghost use Rattle.std.specs.Prelude.{◌≡◌, ℕ, ◌^◌, ◌<◌, ◌≤◌, List, Option, length, take, IfOk, OnErr};
ghost use Rattle.std.specs.Io.KnownBytes.{IsAtEnd};
ghost use Rattle.ports.specs.Causes.{HasCause};
ghost use Rattle.ports.specs.Streams.{Gives};

/// A call on a source or a sink failed. The object counts how often that happened.
#[derive(Clone, Copy, Debug, PartialEq, Eq, Hash)]
pub struct Failed;

/// Where bytes come from.
pub trait Source {
    /// The bytes still to come, where the source tells them.
    ghost left: { Self → Option (List ℕ) };

    /// How many calls have failed. The count never falls, and stays at 2^64 - 1 once it is there.
    ghost faults: { Self → ℕ };

    /// Puts the next bytes into `buf`, from its first place on, and answers how many: 0 only at the end. `Failed` comes
    /// only where the count of faults rose in this call, and then nothing was taken.
    fn read(&mut self, buf: &mut [u8]) -> Result<usize, Failed>
        requires { 0 < length buf.old }

        ensures bound { IfOk result (λ n. n ≤ length buf.new) }
        ensures bytes { IfOk result (λ n. Gives (left self.old) (left self.new) (take n buf.new)) }
        ensures end { IfOk result (λ n. n ≡ 0 → IsAtEnd (left self.old)) }
        ensures stays { OnErr result (left self.new ≡ left self.old) }

        ensures cause { HasCause (faults self.old) (faults self.new) result }
        ensures counted { faults self.new < 2 ^ 64 };
}
