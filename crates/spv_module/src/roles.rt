ghost use Rattle.std.specs.Prelude.{◌≡◌};
ghost use Rattle.spv_module.specs.Roles.{has_result, has_result_type, results_stand, types_stand, roles_of};

use spv_layout::{Opcode, OperandKind, form_of};

/// What the ids of an instruction's operands name, but for the result and its type.
#[derive(Clone, Copy, Debug, PartialEq, Eq)]
pub enum IdRoles {
    /// What the instruction takes.
    Values,
    /// The function that is called, and then its arguments.
    Call,
    /// Pairs of a value and the predecessor block for which it is taken.
    Choices,
    /// So many values, and then the labels of the blocks that may be next.
    Targets(usize),
    /// Labels of blocks to which the instruction itself doesn't lead.
    Labels,
}

/// What the ids of the instruction with this opcode name (SPIR-V 1.2, 3.32.9 "Function Instructions" and 3.32.17 "Control-Flow
/// Instructions").
pub fn roles_of(op: u16) -> IdRoles
    ensures { result ≡ roles_of op }
{
    if op == Opcode::FunctionCall.number() {
        IdRoles::Call
    } else if op == Opcode::Phi.number() {
        IdRoles::Choices
    } else if op == Opcode::LoopMerge.number() || op == Opcode::SelectionMerge.number() {
        IdRoles::Labels
    } else if op == Opcode::Branch.number() {
        IdRoles::Targets(0)
    } else if op == Opcode::BranchConditional.number() || op == Opcode::Switch.number() {
        IdRoles::Targets(1)
    } else {
        IdRoles::Values
    }
}

/// Whether the form of this opcode has a result.
pub fn has_result(op: u16) -> bool
    ensures { result ≡ has_result op }
{
    match form_of(op) {
        Some(form) => results_stand(form.operands),
        None => false,
    }
}

fn results_stand(kinds: &[OperandKind]) -> bool
    ensures { result ≡ results_stand kinds.now }
{
    matches!(
        kinds,
        [OperandKind::R, ..] | [OperandKind::T, OperandKind::R, ..]
    )
}

/// Whether the form of this opcode has the type of a result.
pub fn has_result_type(op: u16) -> bool
    ensures { result ≡ has_result_type op }
{
    match form_of(op) {
        Some(form) => types_stand(form.operands),
        None => false,
    }
}

fn types_stand(kinds: &[OperandKind]) -> bool
    ensures { result ≡ types_stand kinds.now }
{
    matches!(kinds, [OperandKind::T, ..])
}
