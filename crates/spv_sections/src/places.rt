ghost use Rattle.std.specs.Prelude.{◌≡◌};
ghost use Rattle.spv_sections.specs.Places.{lesser, told};

/// The lesser of two places, where both are there.
pub fn lesser(first: Option<u64>, second: Option<u64>) -> Option<u64>
    ensures { result ≡ lesser first second }
{
    match (first, second) {
        (Some(first), Some(second)) => Some(first.min(second)),
        (Some(first), None) => Some(first),
        (None, second) => second,
    }
}

/// The least place so far, where a rule is broken at this one too or not.
pub fn told(least: Option<u64>, broken: bool, place: u64) -> Option<u64>
    ensures { result ≡ told least broken place }
{
    if broken {
        lesser(least, Some(place))
    } else {
        least
    }
}
