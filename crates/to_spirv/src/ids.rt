ghost use Rattle.std.specs.Prelude.{◌≡◌, ◌+◌, ◌<◌, ◌^◌};
ghost use Rattle.to_spirv.specs.ClosedTypes.{ids_by};
ghost use Rattle.to_spirv.specs.Partner.{id_of, value_type_id};

use crate::types::TypesNeeded;
use kernel_tree::ValueType;
use ll_tree::Name;

/// The ids of a module's types, and that of its function, from which those of names count on. A type that the module lacks has the id
/// behind that of the last one.
#[derive(Clone, Copy)]
pub(crate) struct Ids {
    pub void: u32,
    pub int: u32,
    pub pointer: u32,
    pub function_type: u32,
    pub function: u32,
}

impl Ids {
    /// The ids of a module with these types.
    pub fn of(needed: TypesNeeded) -> Ids
        ensures { result ≡ ids_by needed }
    {
        let [int, pointer, function_type, function] = match needed {
            TypesNeeded::Neither => [3, 3, 2, 3],
            TypesNeeded::ResultInt => [3, 4, 2, 4],
            TypesNeeded::ParamInt => [2, 4, 3, 4],
            TypesNeeded::ParamPointer => [2, 3, 4, 5],
        };
        Ids {
            void: 1,
            int,
            pointer,
            function_type,
            function,
        }
    }

    /// The id of a parameter, of the block or of the value of an instruction.
    pub fn named(self, name: Name) -> u32
        requires { id_of self name < 2 ^ 32 }
        ensures { result ≡ id_of self name }
    {
        self.function + name.number
    }

    /// The id of the type of a value.
    pub fn value_type(self, value_type: ValueType) -> u32
        ensures { result ≡ value_type_id self value_type }
    {
        match value_type {
            ValueType::Int => self.int,
            ValueType::Pointer => self.pointer,
        }
    }
}
