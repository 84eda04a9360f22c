ghost use Rattle.std.specs.Prelude.{◌≡◌, option_map};
ghost use Rattle.kernel_tree.specs.Modules.{result_name};

use crate::kernel::{KernelInst, ValueType};
use ll_tree::Name;

/// A name that a kernel defines, and the type of the value that has it, which a block lacks.
#[derive(Clone, Copy, Debug, PartialEq, Eq)]
pub struct Definition {
    pub name: Name,
    pub value_type: Option<ValueType>,
}

/// A name that an instruction uses, and the type that its value is to have.
#[derive(Clone, Copy, Debug, PartialEq, Eq)]
pub struct Use {
    pub name: Name,
    pub value_type: ValueType,
}

impl KernelInst {
    /// The name of the instruction's value. None exactly where it has none.
    pub fn result(&self) -> Option<Name>
        ensures { result ≡ result_name self.now }
    {
        match *self {
            KernelInst::Add { sum, .. } => Some(sum),
            KernelInst::Load { loaded, .. } => Some(loaded),
            KernelInst::Store { .. } => None,
        }
    }
}
