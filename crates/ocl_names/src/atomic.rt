ghost use Rattle.std.specs.Prelude.{◌≡◌, ◌↔◌};
ghost use Rattle.ocl_names.specs.declared.atomic.AtomicCall.{AtomicCall};
ghost use Rattle.ocl_names.specs.Atomics.{function_front, letters_of, op_of, pointer_text, pointer_space, function_at, pointer_at, sign_of, atomic_of, IsAtomicName};

use kern_lanes::RmwOp;

/// What an atomic function of OpenCL C does to the number that its pointer points to.
#[derive(Clone, Copy, Debug, PartialEq, Eq, Hash)]
pub enum AtomicOp {
    /// An operation with the one value that the function takes.
    Rmw(RmwOp),
    /// Adds 1; the function takes no value.
    Inc,
    /// Subtracts 1; the function takes no value.
    Dec,
    /// A compare and exchange; the function takes the comparator, then the value.
    Cas,
}

/// An atomic function of OpenCL C at its argument types.
#[derive(Clone, Copy, Debug, PartialEq, Eq, Hash)]
pub struct AtomicCall {
    pub op: AtomicOp,
    /// The address space of the pointer: 1 for global, 3 for local.
    pub space: u32,
    /// Whether the numbers are of type `int`, and else of type `uint`.
    pub signed: bool,
}

/// The atomic functions (OpenCL C 1.2, 6.12.11).
#[derive(Clone, Copy, Debug, PartialEq, Eq, Hash)]
enum AtomicFunction {
    Add,
    Sub,
    Xchg,
    Inc,
    Dec,
    Cmpxchg,
    Min,
    Max,
    And,
    Or,
    Xor,
}

static FUNCTIONS: [AtomicFunction; 11] = [
    AtomicFunction::Add,
    AtomicFunction::Sub,
    AtomicFunction::Xchg,
    AtomicFunction::Inc,
    AtomicFunction::Dec,
    AtomicFunction::Cmpxchg,
    AtomicFunction::Min,
    AtomicFunction::Max,
    AtomicFunction::And,
    AtomicFunction::Or,
    AtomicFunction::Xor,
];

impl AtomicFunction {
    /// The mangled name up to the parameters.
    fn front(self) -> &'static str
        ensures { result.now ≡ function_front self }
    {
        match self {
            AtomicFunction::Add => "_Z10atomic_add",
            AtomicFunction::Sub => "_Z10atomic_sub",
            AtomicFunction::Xchg => "_Z11atomic_xchg",
            AtomicFunction::Inc => "_Z10atomic_inc",
            AtomicFunction::Dec => "_Z10atomic_dec",
            AtomicFunction::Cmpxchg => "_Z14atomic_cmpxchg",
            AtomicFunction::Min => "_Z10atomic_min",
            AtomicFunction::Max => "_Z10atomic_max",
            AtomicFunction::And => "_Z10atomic_and",
            AtomicFunction::Or => "_Z9atomic_or",
            AtomicFunction::Xor => "_Z10atomic_xor",
        }
    }

    /// The letters of the types that stand behind the pointer's spelling: one for what it points to, and one
    /// for each value.
    fn letters(self, signed: bool) -> &'static str
        ensures { result.now ≡ letters_of self signed }
    {
        match (self, signed) {
            (AtomicFunction::Inc | AtomicFunction::Dec, true) => "i",
            (AtomicFunction::Inc | AtomicFunction::Dec, false) => "j",
            (AtomicFunction::Cmpxchg, true) => "iii",
            (AtomicFunction::Cmpxchg, false) => "jjj",
            (_, true) => "ii",
            (_, false) => "jj",
        }
    }

    /// What the function does to numbers of type `int`, where `signed`, or `uint`.
    fn op(self, signed: bool) -> AtomicOp
        ensures { result ≡ op_of self signed }
    {
        match self {
            AtomicFunction::Add => AtomicOp::Rmw(RmwOp::Add),
            AtomicFunction::Sub => AtomicOp::Rmw(RmwOp::Sub),
            AtomicFunction::Xchg => AtomicOp::Rmw(RmwOp::Xchg),
            AtomicFunction::Inc => AtomicOp::Inc,
            AtomicFunction::Dec => AtomicOp::Dec,
            AtomicFunction::Cmpxchg => AtomicOp::Cas,
            AtomicFunction::Min if signed => AtomicOp::Rmw(RmwOp::Min),
            AtomicFunction::Min => AtomicOp::Rmw(RmwOp::UMin),
            AtomicFunction::Max if signed => AtomicOp::Rmw(RmwOp::Max),
            AtomicFunction::Max => AtomicOp::Rmw(RmwOp::UMax),
            AtomicFunction::And => AtomicOp::Rmw(RmwOp::And),
            AtomicFunction::Or => AtomicOp::Rmw(RmwOp::Or),
            AtomicFunction::Xor => AtomicOp::Rmw(RmwOp::Xor),
        }
    }
}

/// The spellings of a pointer to volatile numbers: some compilers write the space's qualifier before `V`, some
/// behind it.
#[derive(Clone, Copy, Debug, PartialEq, Eq, Hash)]
enum PointerSpelling {
    GlobalVolatile,
    VolatileGlobal,
    LocalVolatile,
    VolatileLocal,
}

static POINTERS: [PointerSpelling; 4] = [
    PointerSpelling::GlobalVolatile,
    PointerSpelling::VolatileGlobal,
    PointerSpelling::LocalVolatile,
    PointerSpelling::VolatileLocal,
];

impl PointerSpelling {
    fn text(self) -> &'static str
        ensures { result.now ≡ pointer_text self }
    {
        match self {
            PointerSpelling::GlobalVolatile => "PU3AS1V",
            PointerSpelling::VolatileGlobal => "PVU3AS1",
            PointerSpelling::LocalVolatile => "PU3AS3V",
            PointerSpelling::VolatileLocal => "PVU3AS3",
        }
    }

    /// The address space of the pointer.
    fn space(self) -> u32
        ensures { result ≡ pointer_space self }
    {
        match self {
            PointerSpelling::GlobalVolatile | PointerSpelling::VolatileGlobal => 1,
            PointerSpelling::LocalVolatile | PointerSpelling::VolatileLocal => 3,
        }
    }
}

/// The atomic function of this mangled name (OpenCL C 1.2, 6.12.11): `_Z`, the length of the function's name,
/// the name, the pointer's spelling, and a letter for what it points to and for each value, which is `i` for
/// all or `j` for all. None where the text is no such name.
pub fn atomic_name(text: &str) -> Option<AtomicCall>
    ensures exact { (call : AtomicCall) → (result ≡ Some call) ↔ IsAtomicName text.now call }
    ensures value { result ≡ atomic_of text.now }
{
    call_of(text.as_bytes())
}

/// The call whose mangled name the text is.
#[tactic(auto, unfolding(crate::specs::Atomics::atomic_of))]
fn call_of(text: &[u8]) -> Option<AtomicCall>
    ensures { result ≡ atomic_of text.now }
{
    let function = function_of(text)?;
    let (_, parameters) = text.split_at(function.front().len());
    let pointer = pointer_of(parameters)?;
    let (_, letters) = parameters.split_at(pointer.text().len());
    let signed = sign(function, letters)?;
    Some(AtomicCall {
        op: function.op(signed),
        space: pointer.space(),
        signed,
    })
}

/// The function with whose mangled name the text begins.
fn function_of(text: &[u8]) -> Option<AtomicFunction>
    ensures { result ≡ function_at text.now }
{
    FUNCTIONS
        .iter()
        .copied()
        .find(|function| text.starts_with(function.front().as_bytes()))
}

/// The pointer's spelling with which the text begins.
fn pointer_of(text: &[u8]) -> Option<PointerSpelling>
    ensures { result ≡ pointer_at text.now }
{
    POINTERS
        .iter()
        .copied()
        .find(|pointer| text.starts_with(pointer.text().as_bytes()))
}

/// Whether the letters are those of `int`, or else those of `uint`.
fn sign(function: AtomicFunction, letters: &[u8]) -> Option<bool>
    ensures { result ≡ sign_of function letters.now }
{
    if letters == function.letters(true).as_bytes() {
        Some(true)
    } else if letters == function.letters(false).as_bytes() {
        Some(false)
    } else {
        None
    }
}
