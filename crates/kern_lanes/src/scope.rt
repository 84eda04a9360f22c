ghost use Rattle.std.specs.Prelude.{◌≡◌};
ghost use Rattle.kern_lanes.specs.Scopes.{scope_number};

/// Which other work-items an atomic, a fence or a barrier concerns (SPIR-V 1.2, 3.27).
#[derive(Clone, Copy, Debug, PartialEq, Eq, Hash)]
pub enum Scope {
    CrossDevice,
    Device,
    Workgroup,
    Subgroup,
    Invocation,
}

impl Scope {
    /// The number that SPIR-V gives to the scope, from 0 to 4.
    pub fn number(self) -> u32
        ensures { result ≡ scope_number self }
    {
        match self {
            Scope::CrossDevice => 0,
            Scope::Device => 1,
            Scope::Workgroup => 2,
            Scope::Subgroup => 3,
            Scope::Invocation => 4,
        }
    }
}
