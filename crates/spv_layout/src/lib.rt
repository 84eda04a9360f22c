//! The forms of SPIR-V's instructions and its enumerants: which operands each instruction has, and which values and mask bits are
//! known (SPIR-V 1.2, 3 "Binary Form"), cut down to integer kernels.
#![tactic(auto)]

mod enumerants;
mod forms;
mod laws;
mod opcode;
mod operands;

pub use enumerants::{Enumerant, known};
pub use forms::{Form, form_of, name_of};
pub use laws::{
    bits_are_single, extra_operands_are_plain, found_by_name, found_by_number, numbers_rise,
    one_bit_has_extra_operands, runs_stand_last, values_rise,
};
pub use opcode::{OPCODES, Opcode};
pub use operands::{EnumKind, ExtraOperand, OperandKind};
