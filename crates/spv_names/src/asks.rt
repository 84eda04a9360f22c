ghost use Rattle.std.specs.Prelude.{◌≡◌};
ghost use Rattle.spv_names.specs.RoleRules.{role_at, role_of, asks_at, asks_of, ask_at, is_asked};

use spv_codec::RawInst;
use spv_layout::Opcode;
use spv_module::has_result_type;

/// What an id stands for.
#[derive(Clone, Copy, Debug, PartialEq, Eq)]
pub enum Role {
    TypeRole,
    Constant,
    Variable,
    Function,
    Label,
    /// The text of an OpString.
    Text,
    Import,
    Group,
    /// A parameter, or the result of an instruction of a function.
    Value,
}

/// What a form asks of an id.
#[derive(Clone, Copy, Debug, PartialEq, Eq)]
pub enum Ask {
    TypeRole,
    Constant,
    /// A constant, a variable, a parameter, or the result of an instruction of a function.
    Value,
    /// A variable outside functions.
    ModuleVariable,
    Function,
    /// A function that an OpEntryPoint names.
    EntryPoint,
    Label,
    Text,
    Import,
    Group,
    Any,
}

/// What a form asks of the ids that it uses, in order.
#[derive(Clone, Copy, Debug, PartialEq, Eq)]
pub enum Asks {
    /// The same of each.
    Each(Ask),
    /// One of the first, another of all others.
    Then(Ask, Ask),
    /// One of the first, one of the second, another of all others.
    Both(Ask, Ask, Ask),
    /// A type, and then a value and a label in turn.
    Choices,
}

/// The role of what an instruction defines.
#[tactic(auto, unfolding(crate::specs::RoleRules::role_of))]
pub fn role_of(inst: &RawInst) -> Role
    ensures { result ≡ role_of inst.now }
{
    role_at(Opcode::from_number(inst.op))
}

fn role_at(opcode: Option<Opcode>) -> Role
    ensures { result ≡ role_at opcode }
{
    match opcode {
        Some(
            Opcode::TypeVoid
            | Opcode::TypeBool
            | Opcode::TypeInt
            | Opcode::TypeVector
            | Opcode::TypeArray
            | Opcode::TypeStruct
            | Opcode::TypePointer
            | Opcode::TypeFunction,
        ) => Role::TypeRole,
        Some(
            Opcode::ConstantTrue
            | Opcode::ConstantFalse
            | Opcode::Constant
            | Opcode::ConstantComposite
            | Opcode::ConstantNull,
        ) => Role::Constant,
        Some(Opcode::Variable) => Role::Variable,
        Some(Opcode::Function) => Role::Function,
        Some(Opcode::Label) => Role::Label,
        Some(Opcode::String) => Role::Text,
        Some(Opcode::ExtInstImport) => Role::Import,
        Some(Opcode::DecorationGroup) => Role::Group,
        _ => Role::Value,
    }
}

/// What the form of an instruction asks of the ids that it uses (SPIR-V 1.2, 3.32).
#[tactic(auto, unfolding(crate::specs::RoleRules::asks_of))]
pub fn asks_of(inst: &RawInst) -> Asks
    ensures { result ≡ asks_of inst.now }
{
    asks_at(has_result_type(inst.op), Opcode::from_number(inst.op))
}

/// The same, where the form begins with the type of a result or not.
fn asks_at(typed: bool, opcode: Option<Opcode>) -> Asks
    ensures { result ≡ asks_at typed opcode }
{
    match opcode {
        Some(
            Opcode::TypeVector
            | Opcode::TypeStruct
            | Opcode::TypePointer
            | Opcode::TypeFunction
            | Opcode::Function,
        ) => Asks::Each(Ask::TypeRole),
        Some(Opcode::TypeArray | Opcode::ConstantComposite) => {
            Asks::Then(Ask::TypeRole, Ask::Constant)
        }
        Some(Opcode::EntryPoint) => Asks::Then(Ask::Function, Ask::ModuleVariable),
        Some(Opcode::ExecutionMode) => Asks::Each(Ask::EntryPoint),
        Some(Opcode::Source) => Asks::Each(Ask::Text),
        Some(Opcode::ExtInst) => Asks::Both(Ask::TypeRole, Ask::Import, Ask::Value),
        Some(Opcode::FunctionCall) => Asks::Both(Ask::TypeRole, Ask::Function, Ask::Value),
        Some(Opcode::GroupDecorate) => Asks::Then(Ask::Group, Ask::Any),
        Some(Opcode::Decorate | Opcode::MemberDecorate) => Asks::Each(Ask::Any),
        Some(Opcode::Branch) => Asks::Each(Ask::Label),
        Some(Opcode::BranchConditional | Opcode::Switch) => Asks::Then(Ask::Value, Ask::Label),
        Some(Opcode::Phi) => Asks::Choices,
        _ if typed => Asks::Then(Ask::TypeRole, Ask::Value),
        _ => Asks::Each(Ask::Value),
    }
}

impl Asks {
    /// What is asked of the id at an index.
    pub fn at(self, index: usize) -> Ask
        ensures { result ≡ ask_at self index }
    {
        match self {
            Asks::Each(each) => each,
            Asks::Then(first, others) => if index == 0 { first } else { others },
            Asks::Both(first, second, others) => match index {
                0 => first,
                1 => second,
                _ => others,
            },
            Asks::Choices => choice_at(index),
        }
    }
}

/// What an OpPhi asks: its type, and then a value and a label in turn.
fn choice_at(index: usize) -> Ask
    ensures { result ≡ ask_at Asks.Choices index }
{
    if index == 0 {
        Ask::TypeRole
    } else if index % 2 == 1 {
        Ask::Value
    } else {
        Ask::Label
    }
}

/// Whether a role is one that is asked, of an entry point's function or not, and of something outside functions or not.
pub fn is_asked(entry: bool, outside: bool, ask: Ask, role: Role) -> bool
    ensures { result ≡ is_asked entry outside ask role }
{
    match (ask, role) {
        (Ask::Any, _)
        | (Ask::TypeRole, Role::TypeRole)
        | (Ask::Constant, Role::Constant)
        | (Ask::Value, Role::Constant | Role::Variable | Role::Value)
        | (Ask::Function, Role::Function)
        | (Ask::Label, Role::Label)
        | (Ask::Text, Role::Text)
        | (Ask::Import, Role::Import)
        | (Ask::Group, Role::Group) => true,
        (Ask::ModuleVariable, Role::Variable) => outside,
        (Ask::EntryPoint, Role::Function) => entry,
        _ => false,
    }
}
