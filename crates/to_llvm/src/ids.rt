ghost use Rattle.std.specs.Prelude.{◌≡◌};
ghost use Rattle.to_llvm.specs.Guesses.{known_ids, name_of, value_type_of};

use crate::operands::{first_operands, operand};
use kernel_tree::ValueType;
use ll_tree::Name;
use spv_codec::RawInst;
use spv_layout::Opcode;

/// The ids from which the names and the types of a kernel are told.
#[derive(Clone, Copy)]
pub(crate) struct KnownIds {
    /// The id of the function, from which those of names count on.
    pub function: u32,
    /// The id of the type of pointers, or 0.
    pub pointer: u32,
}

impl KnownIds {
    /// The ids that instructions give: that of the first function, and that of the first type of pointers.
    pub fn of(insts: &[RawInst]) -> KnownIds
        ensures { result ≡ known_ids insts.now }
    {
        KnownIds {
            function: operand(first_operands(insts, Opcode::Function), 1),
            pointer: operand(first_operands(insts, Opcode::TypePointer), 0),
        }
    }

    /// The name that has this id.
    pub fn name(self, id: u32) -> Name
        ensures { result ≡ name_of self id }
    {
        Name {
            number: id.saturating_sub(self.function),
            byte: 0,
        }
    }

    /// The type of values that has this id.
    pub fn value_type(self, id: u32) -> ValueType
        ensures { result ≡ value_type_of self id }
    {
        if id == self.pointer {
            ValueType::Pointer
        } else {
            ValueType::Int
        }
    }
}
