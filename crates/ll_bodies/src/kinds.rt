ghost use Rattle.std.specs.Prelude.{◌≡◌};
ghost use Rattle.ll_parser.specs.GrammarFunctions.{has_value, is_terminator, is_void_base};

use ll_tree::{LlType, Op, TypeBase};

/// Whether an instruction ends its block (LLVM 14, Terminator Instructions).
pub fn is_terminator(op: &Op) -> bool
    ensures { result ≡ is_terminator op.now }
{
    matches!(
        op,
        Op::ReturnVoid
            | Op::Return { .. }
            | Op::Jump { .. }
            | Op::Branch { .. }
            | Op::Switch { .. }
            | Op::Unreachable
    )
}

/// Whether an instruction has a value: each has one but for terminators, stores, fences and calls whose type is `void`.
pub fn has_value(op: &Op) -> bool
    ensures { result ≡ has_value op.now }
{
    match op {
        Op::Store { .. } | Op::AtomicStore { .. } | Op::Fence { .. } => false,
        Op::Call { ty, .. } => !is_void(ty),
        other => !is_terminator(other),
    }
}

/// Whether a type is `void`.
fn is_void(ty: &LlType) -> bool
    ensures { result ≡ is_void_base ty.now.base ty.now.pointers }
{
    matches!(ty.base, TypeBase::Void) && ty.pointers.is_empty()
}
