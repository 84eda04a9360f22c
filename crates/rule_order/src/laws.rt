//! What holds of all rules and places: the contracts of these functions, which do nothing.

ghost use Rattle.rule_order.specs.Laws.{FirstBreakIsFirst, LeastIsLeast};

/// A break is told exactly where a rule is broken, and no other one comes before it.
pub fn first_break_is_first()
    ensures { FirstBreakIsFirst }
{}

/// The least place is one of the places, and no greater than any.
pub fn least_is_least()
    ensures { LeastIsLeast }
{}
