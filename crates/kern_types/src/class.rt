ghost use Rattle.std.specs.Prelude.{◌≡◌};
ghost use Rattle.kern_types.specs.Pointers.{pointer_bytes};

/// The address space of a pointer (OpenCL SPIR-V Environment, 2.9; SPIR-V 1.2, 3.7).
#[derive(Clone, Copy, Debug, PartialEq, Eq, Hash)]
pub enum Class {
    /// Space 0, storage class Function.
    Private,
    /// Space 1, storage class CrossWorkgroup.
    Global,
    /// Space 2, storage class UniformConstant.
    Constant,
    /// Space 3, storage class Workgroup.
    Local,
    /// Space 4, storage class Generic.
    Generic,
    /// The storage class Input, that of built-in variables alone.
    Input,
}

/// How wide the pointers of a module are.
#[derive(Clone, Copy, Debug, PartialEq, Eq, Hash)]
pub enum PointerWidth {
    P32,
    P64,
}

impl PointerWidth {
    /// The size and the alignment of a pointer, in bytes.
    pub fn bytes(self) -> u64
        ensures { result ≡ pointer_bytes self }
    {
        match self {
            PointerWidth::P32 => 4,
            PointerWidth::P64 => 8,
        }
    }
}
