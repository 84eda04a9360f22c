ghost use Rattle.std.specs.Prelude.{◌≡◌, ◌≤◌, IfSome};
ghost use Rattle.std.specs.Option.{option_map};
ghost use Rattle.ocl_names.specs.WorkItems.{builtin_number, function_text, builtin_read_by, builtin_of, builtin_text};

/// A variable that a work-item function reads (SPIR-V 1.2, 3.21).
#[derive(Clone, Copy, Debug, PartialEq, Eq, Hash)]
enum BuiltIn {
    NumWorkgroups,
    WorkgroupSize,
    WorkgroupId,
    LocalInvocationId,
    GlobalInvocationId,
    LocalInvocationIndex,
    WorkDim,
    GlobalSize,
    EnqueuedWorkgroupSize,
    GlobalOffset,
    GlobalLinearId,
}

static BUILT_INS: [BuiltIn; 11] = [
    BuiltIn::NumWorkgroups,
    BuiltIn::WorkgroupSize,
    BuiltIn::WorkgroupId,
    BuiltIn::LocalInvocationId,
    BuiltIn::GlobalInvocationId,
    BuiltIn::LocalInvocationIndex,
    BuiltIn::WorkDim,
    BuiltIn::GlobalSize,
    BuiltIn::EnqueuedWorkgroupSize,
    BuiltIn::GlobalOffset,
    BuiltIn::GlobalLinearId,
];

impl BuiltIn {
    fn number(self) -> u32
        ensures { result ≡ builtin_number self }
    {
        match self {
            BuiltIn::NumWorkgroups => 24,
            BuiltIn::WorkgroupSize => 25,
            BuiltIn::WorkgroupId => 26,
            BuiltIn::LocalInvocationId => 27,
            BuiltIn::GlobalInvocationId => 28,
            BuiltIn::LocalInvocationIndex => 29,
            BuiltIn::WorkDim => 30,
            BuiltIn::GlobalSize => 31,
            BuiltIn::EnqueuedWorkgroupSize => 32,
            BuiltIn::GlobalOffset => 33,
            BuiltIn::GlobalLinearId => 34,
        }
    }

    /// The mangled name of the function of OpenCL C that reads the variable.
    fn function(self) -> &'static str
        ensures { result.now ≡ function_text self }
    {
        match self {
            BuiltIn::NumWorkgroups => "_Z14get_num_groupsj",
            BuiltIn::WorkgroupSize => "_Z14get_local_sizej",
            BuiltIn::WorkgroupId => "_Z12get_group_idj",
            BuiltIn::LocalInvocationId => "_Z12get_local_idj",
            BuiltIn::GlobalInvocationId => "_Z13get_global_idj",
            BuiltIn::LocalInvocationIndex => "_Z19get_local_linear_idv",
            BuiltIn::WorkDim => "_Z12get_work_dimv",
            BuiltIn::GlobalSize => "_Z15get_global_sizej",
            BuiltIn::EnqueuedWorkgroupSize => "_Z23get_enqueued_local_sizej",
            BuiltIn::GlobalOffset => "_Z17get_global_offsetj",
            BuiltIn::GlobalLinearId => "_Z20get_global_linear_idv",
        }
    }

    /// The variable that the function of this mangled name reads.
    fn read_by(function: &str) -> Option<BuiltIn>
        ensures { result ≡ builtin_read_by function.now }
    {
        BUILT_INS
            .iter()
            .copied()
            .find(|built_in| built_in.function() == function)
    }
}

/// The number of the built-in variable (SPIR-V 1.2, 3.21) that the work-item function of this mangled name
/// reads (OpenCL C 1.2, 6.12.1; 2.0, 6.13.1); None where the text is no such name.
#[tactic(auto, unfolding(crate::specs::WorkItems::builtin_of))]
pub fn work_item_name(text: &str) -> Option<u32>
    ensures value { result ≡ builtin_of text.now }
    ensures range { IfSome result (λ number. (24 ≤ number) × (number ≤ 34)) }
{
    BuiltIn::read_by(text).map(|built_in| built_in.number())
}

/// The mangled name of the work-item function that reads the built-in variable of this number; None where
/// no function does.
#[tactic(auto, unfolding(crate::specs::WorkItems::builtin_text))]
pub fn name_of(builtin: u32) -> Option<&'static str>
    ensures { option_map (λ name. name.now) result ≡ builtin_text builtin }
{
    BUILT_INS
        .iter()
        .find(|built_in| built_in.number() == builtin)
        .map(|built_in| built_in.function())
}
