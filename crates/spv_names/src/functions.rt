ghost use Rattle.std.specs.Prelude.{◌≡◌, ◌≤◌, drop, length};
ghost use Rattle.rule_order.specs.Breaks.{least};
ghost use Rattle.spv_names.specs.Functions.{may_stand, part_at, part_of, function_section, position_behind, is_outside_functions, function_places};

use spv_codec::RawInst;
use spv_layout::Opcode;
use spv_sections::{Section, Standing, begins_functions, standing_of, told};

/// What an instruction is in a function (SPIR-V 1.2, 2.4).
#[derive(Clone, Copy, Debug, PartialEq, Eq)]
pub enum Part {
    Start,
    Parameter,
    Label,
    /// What stands inside a block.
    Inner,
    Terminator,
    End,
    /// What may stand anywhere.
    Floating,
    /// What belongs to an earlier section.
    Stray,
}

/// Where one stands in a list of functions.
#[derive(Clone, Copy, Debug, PartialEq, Eq)]
pub enum Position {
    Outside,
    /// Behind an OpFunction and some parameters.
    Heading,
    Block,
    /// Behind a terminator.
    BetweenBlocks,
}

/// The first place at which the function section is no list of functions, each with its parameters, one block or more, each of which
/// begins with a label and ends with one terminator, and its end (SPIR-V 1.2, 2.4): that of the first instruction that doesn't fit, or
/// the number of words, where the last function is unfinished.
pub fn function_fault(insts: &[RawInst], words: u64) -> Option<u64>
    ensures { result ≡ least (function_places insts.now words) }
{
    let mut position = Position::Outside;
    for inst in function_section(insts) {
        match position_behind(position, part_of(inst)) {
            Some(next) => position = next,
            None => return Some(inst.place),
        }
    }
    told(None, !is_outside_functions(position), words)
}

/// The instructions from the first one on that belongs to the functions.
pub fn function_section(insts: &[RawInst]) -> &[RawInst]
    ensures { result.now ≡ function_section insts.now }
{
    for (index, inst) in insts.iter().enumerate() {
        if begins_functions(inst) {
            return from_index(insts, index);
        }
    }
    &[]
}

/// The instructions from an index on.
fn from_index(insts: &[RawInst], index: usize) -> &[RawInst]
    requires { index ≤ length insts.now }
    ensures { result.now ≡ drop index insts.now }
{
    &insts[index..]
}

/// What an instruction is in a function.
#[tactic(auto, unfolding(crate::specs::Functions::part_of))]
pub fn part_of(inst: &RawInst) -> Part
    ensures { result ≡ part_of inst.now }
{
    part_at(may_stand(standing_of(inst)), Opcode::from_number(inst.op))
}

/// Whether an instruction of this standing may stand inside a block.
fn may_stand(standing: Standing) -> bool
    ensures { result ≡ may_stand standing }
{
    matches!(
        standing,
        Standing::In(Section::Functions) | Standing::LastTwo
    )
}

/// What an instruction is in a function, where it may stand inside a block or not.
fn part_at(inner: bool, opcode: Option<Opcode>) -> Part
    ensures { result ≡ part_at inner opcode }
{
    match opcode {
        Some(Opcode::Nop | Opcode::Line | Opcode::NoLine) => Part::Floating,
        Some(Opcode::Function) => Part::Start,
        Some(Opcode::FunctionParameter) => Part::Parameter,
        Some(Opcode::FunctionEnd) => Part::End,
        Some(Opcode::Label) => Part::Label,
        Some(
            Opcode::Branch
            | Opcode::BranchConditional
            | Opcode::Switch
            | Opcode::Return
            | Opcode::ReturnValue
            | Opcode::Unreachable,
        ) => Part::Terminator,
        _ if inner => Part::Inner,
        _ => Part::Stray,
    }
}

/// Where one stands behind a part: `None` where the part doesn't fit.
fn position_behind(position: Position, part: Part) -> Option<Position>
    ensures { result ≡ position_behind position part }
{
    match (position, part) {
        (position, Part::Floating) => Some(position),
        (Position::Outside, Part::Start) => Some(Position::Heading),
        (Position::Heading, Part::Parameter) => Some(Position::Heading),
        (Position::Heading | Position::BetweenBlocks, Part::Label) => Some(Position::Block),
        (Position::Block, Part::Inner) => Some(Position::Block),
        (Position::Block, Part::Terminator) => Some(Position::BetweenBlocks),
        (Position::BetweenBlocks, Part::End) => Some(Position::Outside),
        _ => None,
    }
}

fn is_outside_functions(position: Position) -> bool
    ensures { result ≡ is_outside_functions position }
{
    matches!(position, Position::Outside)
}
