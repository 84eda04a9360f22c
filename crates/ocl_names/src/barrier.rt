ghost use Rattle.std.specs.Prelude.{◌≡◌};
ghost use Rattle.ocl_names.specs.Barriers.{function_text, call_of, barrier_of};

use crate::ordering::Ordering;

/// What a barrier or a fence takes, and a fence's order.
#[derive(Clone, Copy, Debug, PartialEq, Eq, Hash)]
pub enum BarrierCall {
    /// A barrier of fence flags alone.
    Flags,
    /// A barrier of fence flags and a memory scope.
    FlagsScope,
    /// A barrier of three numbers: execution scope, memory scope, memory semantics.
    Words,
    /// A fence of fence flags.
    Fence(Ordering),
}

/// The barriers and fences of OpenCL C, and the function that stands for OpControlBarrier.
#[derive(Clone, Copy, Debug, PartialEq, Eq, Hash)]
enum BarrierFunction {
    Barrier,
    WorkGroupBarrier,
    WorkGroupBarrierInScope,
    ControlBarrier,
    MemFence,
    ReadMemFence,
    WriteMemFence,
}

static FUNCTIONS: [BarrierFunction; 7] = [
    BarrierFunction::Barrier,
    BarrierFunction::WorkGroupBarrier,
    BarrierFunction::WorkGroupBarrierInScope,
    BarrierFunction::ControlBarrier,
    BarrierFunction::MemFence,
    BarrierFunction::ReadMemFence,
    BarrierFunction::WriteMemFence,
];

impl BarrierFunction {
    /// The whole mangled name.
    fn mangled(self) -> &'static str
        ensures { result.now ≡ function_text self }
    {
        match self {
            BarrierFunction::Barrier => "_Z7barrierj",
            BarrierFunction::WorkGroupBarrier => "_Z18work_group_barrierj",
            BarrierFunction::WorkGroupBarrierInScope => "_Z18work_group_barrierj12memory_scope",
            BarrierFunction::ControlBarrier => "_Z22__spirv_ControlBarrierjjj",
            BarrierFunction::MemFence => "_Z9mem_fencej",
            BarrierFunction::ReadMemFence => "_Z14read_mem_fencej",
            BarrierFunction::WriteMemFence => "_Z15write_mem_fencej",
        }
    }

    fn call(self) -> BarrierCall
        ensures { result ≡ call_of self }
    {
        match self {
            BarrierFunction::Barrier => BarrierCall::Flags,
            BarrierFunction::WorkGroupBarrier => BarrierCall::Flags,
            BarrierFunction::WorkGroupBarrierInScope => BarrierCall::FlagsScope,
            BarrierFunction::ControlBarrier => BarrierCall::Words,
            BarrierFunction::MemFence => BarrierCall::Fence(Ordering::AcquireRelease),
            BarrierFunction::ReadMemFence => BarrierCall::Fence(Ordering::Acquire),
            BarrierFunction::WriteMemFence => BarrierCall::Fence(Ordering::Release),
        }
    }
}

/// The barrier or fence of this mangled name (OpenCL C 1.2, 6.12.8 and 6.12.9; OpenCL C 2.0, 6.13.8; SPIR-V
/// 1.2, 3.32.20); None where the text is no such name.
#[tactic(auto, unfolding(crate::specs::Barriers::barrier_of))]
pub fn barrier_name(text: &str) -> Option<BarrierCall>
    ensures { result ≡ barrier_of text.now }
{
    FUNCTIONS
        .iter()
        .find(|function| function.mangled() == text)
        .map(|function| function.call())
}
