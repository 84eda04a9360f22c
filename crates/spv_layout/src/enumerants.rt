ghost use Rattle.std.specs.Prelude.{◌≡◌, ◌==◌, ◌&&◌, map, find, fold, bit_or};
ghost use Rattle.std.specs.Option.{option_map, option_copied};
ghost use Rattle.spv_layout.specs.Enumerants.{enumerant_row, enumerants_of, enumerant_at, is_mask_kind, bits_of, is_known, stands_in, has_elements, extra_operands_of};

use crate::operands::ExtraOperand::*;
use crate::operands::{EnumKind, ExtraOperand};

/// A value of an enumeration, or a bit of a mask (SPIR-V 1.2, 3.3 to 3.31).
#[derive(Clone, Copy, Debug)]
pub struct Enumerant {
    /// The value, or the mask with this bit alone.
    pub value: u32,
    /// The name of the standard.
    pub name: &'static str,
    /// What follows the enumerant. Behind a mask stand the operands of its lowest bit first.
    pub extra: &'static [ExtraOperand],
}

/// Whether a word is a value of the enumeration that is known here, or, of a mask, has no bit that isn't.
pub fn known(kind: EnumKind, value: u32) -> bool
    ensures { result ≡ is_known kind value }
{
    if kind.is_mask() {
        value | kind.bits() == kind.bits()
    } else {
        kind.enumerant(value).is_some()
    }
}

impl EnumKind {
    /// Whether operands of this kind are masks, whose bits each stand for themselves.
    pub fn is_mask(self) -> bool
        ensures { result ≡ is_mask_kind self }
    {
        matches!(
            self,
            EnumKind::Access
                | EnumKind::FunctionControl
                | EnumKind::SelectionControl
                | EnumKind::LoopControl
        )
    }

    /// The enumerant of a value, or of a bit alone: `None` exactly where it isn't known here.
    pub fn enumerant(self, value: u32) -> Option<&'static Enumerant>
        ensures { option_map (λ enumerant. enumerant_row enumerant.now) result ≡ enumerant_at self value }
    {
        with_value(self.enumerants(), value)
    }

    /// What follows a word of this kind, a value or a mask. One bit of a mask at most is followed by anything.
    pub fn extra_operands(self, word: u32) -> &'static [ExtraOperand]
        ensures { result.now ≡ extra_operands_of self word }
    {
        match with_extra(self.enumerants(), self.is_mask(), word) {
            Some(enumerant) => enumerant.extra,
            None => &[],
        }
    }

    /// The mask of all bits that are known here.
    fn bits(self) -> u32
        ensures { result ≡ bits_of self }
    {
        bits_in(self.enumerants())
    }

    /// The values, or the bits, by rising value.
    pub fn enumerants(self) -> &'static [Enumerant]
        ensures { map enumerant_row result.now ≡ enumerants_of self }
    {
        match self {
            EnumKind::Capability => &[
                Enumerant {
                    value: 4,
                    name: "Addresses",
                    extra: &[],
                },
                Enumerant {
                    value: 5,
                    name: "Linkage",
                    extra: &[],
                },
                Enumerant {
                    value: 6,
                    name: "Kernel",
                    extra: &[],
                },
                Enumerant {
                    value: 7,
                    name: "Vector16",
                    extra: &[],
                },
                Enumerant {
                    value: 11,
                    name: "Int64",
                    extra: &[],
                },
                Enumerant {
                    value: 12,
                    name: "Int64Atomics",
                    extra: &[],
                },
                Enumerant {
                    value: 22,
                    name: "Int16",
                    extra: &[],
                },
                Enumerant {
                    value: 38,
                    name: "GenericPointer",
                    extra: &[],
                },
                Enumerant {
                    value: 39,
                    name: "Int8",
                    extra: &[],
                },
            ],
            EnumKind::Addressing => &[
                Enumerant {
                    value: 1,
                    name: "Physical32",
                    extra: &[],
                },
                Enumerant {
                    value: 2,
                    name: "Physical64",
                    extra: &[],
                },
            ],
            EnumKind::Memory => &[Enumerant {
                value: 2,
                name: "OpenCL",
                extra: &[],
            }],
            EnumKind::Model => &[Enumerant {
                value: 6,
                name: "Kernel",
                extra: &[],
            }],
            EnumKind::Language => &[
                Enumerant {
                    value: 0,
                    name: "Unknown",
                    extra: &[],
                },
                Enumerant {
                    value: 3,
                    name: "OpenCL_C",
                    extra: &[],
                },
                Enumerant {
                    value: 4,
                    name: "OpenCL_CPP",
                    extra: &[],
                },
            ],
            EnumKind::Mode => &[
                Enumerant {
                    value: 17,
                    name: "LocalSize",
                    extra: &[W, W, W],
                },
                Enumerant {
                    value: 18,
                    name: "LocalSizeHint",
                    extra: &[W, W, W],
                },
                Enumerant {
                    value: 30,
                    name: "VecTypeHint",
                    extra: &[W],
                },
                Enumerant {
                    value: 31,
                    name: "ContractionOff",
                    extra: &[],
                },
            ],
            EnumKind::Class => &[
                Enumerant {
                    value: 0,
                    name: "UniformConstant",
                    extra: &[],
                },
                Enumerant {
                    value: 1,
                    name: "Input",
                    extra: &[],
                },
                Enumerant {
                    value: 4,
                    name: "Workgroup",
                    extra: &[],
                },
                Enumerant {
                    value: 5,
                    name: "CrossWorkgroup",
                    extra: &[],
                },
                Enumerant {
                    value: 7,
                    name: "Function",
                    extra: &[],
                },
                Enumerant {
                    value: 8,
                    name: "Generic",
                    extra: &[],
                },
            ],
            EnumKind::Decoration => &[
                Enumerant {
                    value: 10,
                    name: "CPacked",
                    extra: &[],
                },
                Enumerant {
                    value: 11,
                    name: "BuiltIn",
                    extra: &[E(EnumKind::BuiltIn)],
                },
                Enumerant {
                    value: 19,
                    name: "Restrict",
                    extra: &[],
                },
                Enumerant {
                    value: 20,
                    name: "Aliased",
                    extra: &[],
                },
                Enumerant {
                    value: 21,
                    name: "Volatile",
                    extra: &[],
                },
                Enumerant {
                    value: 22,
                    name: "Constant",
                    extra: &[],
                },
                Enumerant {
                    value: 23,
                    name: "Coherent",
                    extra: &[],
                },
                Enumerant {
                    value: 38,
                    name: "FuncParamAttr",
                    extra: &[E(EnumKind::FuncParamAttr)],
                },
                Enumerant {
                    value: 41,
                    name: "LinkageAttributes",
                    extra: &[S, E(EnumKind::Linkage)],
                },
                Enumerant {
                    value: 44,
                    name: "Alignment",
                    extra: &[W],
                },
            ],
            EnumKind::FuncParamAttr => &[
                Enumerant {
                    value: 0,
                    name: "Zext",
                    extra: &[],
                },
                Enumerant {
                    value: 1,
                    name: "Sext",
                    extra: &[],
                },
                Enumerant {
                    value: 2,
                    name: "ByVal",
                    extra: &[],
                },
                Enumerant {
                    value: 3,
                    name: "Sret",
                    extra: &[],
                },
                Enumerant {
                    value: 4,
                    name: "NoAlias",
                    extra: &[],
                },
                Enumerant {
                    value: 5,
                    name: "NoCapture",
                    extra: &[],
                },
                Enumerant {
                    value: 6,
                    name: "NoWrite",
                    extra: &[],
                },
                Enumerant {
                    value: 7,
                    name: "NoReadWrite",
                    extra: &[],
                },
            ],
            EnumKind::Linkage => &[
                Enumerant {
                    value: 0,
                    name: "Export",
                    extra: &[],
                },
                Enumerant {
                    value: 1,
                    name: "Import",
                    extra: &[],
                },
            ],
            EnumKind::BuiltIn => &[
                Enumerant {
                    value: 24,
                    name: "NumWorkgroups",
                    extra: &[],
                },
                Enumerant {
                    value: 25,
                    name: "WorkgroupSize",
                    extra: &[],
                },
                Enumerant {
                    value: 26,
                    name: "WorkgroupId",
                    extra: &[],
                },
                Enumerant {
                    value: 27,
                    name: "LocalInvocationId",
                    extra: &[],
                },
                Enumerant {
                    value: 28,
                    name: "GlobalInvocationId",
                    extra: &[],
                },
                Enumerant {
                    value: 29,
                    name: "LocalInvocationIndex",
                    extra: &[],
                },
                Enumerant {
                    value: 30,
                    name: "WorkDim",
                    extra: &[],
                },
                Enumerant {
                    value: 31,
                    name: "GlobalSize",
                    extra: &[],
                },
                Enumerant {
                    value: 32,
                    name: "EnqueuedWorkgroupSize",
                    extra: &[],
                },
                Enumerant {
                    value: 33,
                    name: "GlobalOffset",
                    extra: &[],
                },
                Enumerant {
                    value: 34,
                    name: "GlobalLinearId",
                    extra: &[],
                },
            ],
            EnumKind::Access => &[
                Enumerant {
                    value: 1,
                    name: "Volatile",
                    extra: &[],
                },
                Enumerant {
                    value: 2,
                    name: "Aligned",
                    extra: &[W],
                },
                Enumerant {
                    value: 4,
                    name: "Nontemporal",
                    extra: &[],
                },
            ],
            EnumKind::FunctionControl => &[
                Enumerant {
                    value: 1,
                    name: "Inline",
                    extra: &[],
                },
                Enumerant {
                    value: 2,
                    name: "DontInline",
                    extra: &[],
                },
                Enumerant {
                    value: 4,
                    name: "Pure",
                    extra: &[],
                },
                Enumerant {
                    value: 8,
                    name: "Const",
                    extra: &[],
                },
            ],
            EnumKind::SelectionControl => &[
                Enumerant {
                    value: 1,
                    name: "Flatten",
                    extra: &[],
                },
                Enumerant {
                    value: 2,
                    name: "DontFlatten",
                    extra: &[],
                },
            ],
            EnumKind::LoopControl => &[
                Enumerant {
                    value: 1,
                    name: "Unroll",
                    extra: &[],
                },
                Enumerant {
                    value: 2,
                    name: "DontUnroll",
                    extra: &[],
                },
                Enumerant {
                    value: 4,
                    name: "DependencyInfinite",
                    extra: &[],
                },
                Enumerant {
                    value: 8,
                    name: "DependencyLength",
                    extra: &[W],
                },
            ],
        }
    }
}

/// The first of these with this value.
fn with_value(enumerants: &[Enumerant], value: u32) -> Option<&Enumerant>
    ensures { option_copied result ≡ find (λ enumerant. enumerant.value == value) enumerants.now }
{
    enumerants.iter().find(|enumerant| enumerant.value == value)
}

/// The first of these that is in a word and is followed by anything.
fn with_extra(enumerants: &[Enumerant], is_mask: bool, word: u32) -> Option<&Enumerant>
    ensures { option_copied result
        ≡ find (λ enumerant. stands_in is_mask word enumerant.value && has_elements enumerant.extra.now) enumerants.now }
{
    enumerants.iter().find(|enumerant| {
        is_in(is_mask, word, enumerant.value) && !enumerant.extra.is_empty()
    })
}

/// Whether a word is a value, or has a bit.
fn is_in(is_mask: bool, word: u32, value: u32) -> bool
    ensures { result ≡ stands_in is_mask word value }
{
    if is_mask {
        word & value != 0
    } else {
        word == value
    }
}

/// The mask of all bits of these.
fn bits_in(enumerants: &[Enumerant]) -> u32
    ensures { result ≡ fold (λ bits enumerant. bit_or bits enumerant.value) 0 enumerants.now }
{
    let mut bits = 0;
    for enumerant in enumerants {
        bits |= enumerant.value;
    }
    bits
}
