ghost use Rattle.std.specs.Prelude.{◌≡◌};
ghost use Rattle.kern_events.specs.Words.{class_word, op_word, volatile_word};

use kern_lanes::RmwOp;
use kern_types::Class;

/// The word for an address space.
pub(crate) fn class_word(class: Class) -> &'static str
    ensures { result.now ≡ class_word class }
{
    match class {
        Class::Private => "private",
        Class::Global => "global",
        Class::Constant => "constant",
        Class::Local => "local",
        Class::Generic => "generic",
        Class::Input => "input",
    }
}

/// The word for an atomic operation.
pub(crate) fn op_word(op: RmwOp) -> &'static str
    ensures { result.now ≡ op_word op }
{
    match op {
        RmwOp::Xchg => "xchg",
        RmwOp::Add => "add",
        RmwOp::Sub => "sub",
        RmwOp::And => "and",
        RmwOp::Or => "or",
        RmwOp::Xor => "xor",
        RmwOp::Max => "max",
        RmwOp::Min => "min",
        RmwOp::UMax => "umax",
        RmwOp::UMin => "umin",
    }
}

/// What stands behind the alignment of a load or a store.
pub(crate) fn volatile_word(volatile: bool) -> &'static str
    ensures { result.now ≡ volatile_word volatile }
{
    if volatile { " volatile" } else { "" }
}
