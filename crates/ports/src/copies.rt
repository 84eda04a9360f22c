ghost use Rattle.std.specs.Prelude.{◌≡◌, ◌+◌, ◌-◌, ◌≤◌, ◌++◌, length, take, drop, min, vec_len, vec_capacity};

/// Copies what stands in `from` behind its first `at` bytes to the front of `to`, as much as fits, and answers how many
/// bytes that is.
pub fn copy_behind(from: &[u8], at: usize, to: &mut [u8]) -> usize
    requires { at ≤ length from.now }
    ensures count { result ≡ min (length to.new) (length (drop at from.now)) }
    ensures within { at + result ≤ length from.now }
    ensures copied { drop at from.now ≡ take result to.new ++ drop (at + result) from.now }
{
    let count = to.len().min(from.len() - at);
    to[..count].copy_from_slice(&from[at..at + count]);
    count
}

/// Appends the first `count` bytes of `from` to a vector that has room for them.
pub fn append_front(to: &mut Vec<u8>, from: &[u8], count: usize)
    requires within { count ≤ length from.now }
    requires room { vec_len to.old + count ≤ vec_capacity to.old }
    ensures appended { to.new.items ≡ to.old.items ++ take count from.now }
    ensures len { vec_len to.new ≡ vec_len to.old + count }
    ensures capacity { vec_capacity to.old ≤ vec_capacity to.new }
{
    to.extend_from_slice(&from[..count]).unwrap();
}

/// Writes `from` over the places of `to` that begin at `at`.
pub fn overwrite(to: &mut [u8], at: usize, from: &[u8])
    requires { at + length from.now ≤ length to.old }
    ensures { take (at + length from.now) to.new ≡ take at to.old ++ from.now }
{
    to[at..at + from.len()].copy_from_slice(from);
}
