ghost use Rattle.std.specs.Prelude.{◌≡◌};
ghost use Rattle.rule_order.specs.Breaks.{is_before, earlier, break_of, first_of};

/// A rule, and the first place where it is broken, if there is one.
#[derive(Clone, Copy, Debug, PartialEq, Eq)]
pub struct FirstPlace {
    pub rule: u16,
    pub place: Option<u64>,
}

/// A rule that is broken at a place.
#[derive(Clone, Copy, Debug, PartialEq, Eq)]
pub struct Break {
    pub rule: u16,
    pub place: u64,
}

/// The break that is told, where these rules have been looked at: the one at the least place, and of those there the one with the least
/// number. `None` where no rule is broken.
pub fn first_break(rules: &[FirstPlace]) -> Option<Break>
    ensures { result ≡ first_of rules.now }
{
    match rules {
        [] => None,
        [rule, rest @ ..] => earlier(rule.first(), first_break(rest)),
    }
}

impl FirstPlace {
    /// The rule at its first place.
    fn first(&self) -> Option<Break>
        ensures { result ≡ break_of self.now }
    {
        match self.place {
            Some(place) => Some(Break {
                rule: self.rule,
                place,
            }),
            None => None,
        }
    }
}

/// The one of two breaks that is told, where both are there.
fn earlier(first: Option<Break>, second: Option<Break>) -> Option<Break>
    ensures { result ≡ earlier first second }
{
    match (first, second) {
        (Some(first), Some(second)) => {
            if is_before(second, first) {
                Some(second)
            } else {
                Some(first)
            }
        }
        (None, second) => second,
        (first, None) => first,
    }
}

/// Whether a break is told rather than another one.
fn is_before(first: Break, second: Break) -> bool
    ensures { result ≡ is_before first second }
{
    first.place < second.place || (first.place == second.place && first.rule < second.rule)
}
