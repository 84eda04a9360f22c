ghost use Rattle.std.specs.Prelude.{◌≡◌, ◌++◌, not};
ghost use Rattle.std.specs.List.{list_any};
ghost use Rattle.rule_order.specs.Breaks.{least};
ghost use Rattle.spv_sections.specs.Places.{places_where, place_if};
ghost use Rattle.spv_sections.specs.SectionOrder.{section_places, is_misplaced, gives_again, is_model, rank_in, is_behind, risen};

use crate::places::{lesser, told};
use crate::standing::{Section, Standing, begins_functions, standing_of};
use spv_codec::RawInst;
use spv_layout::Opcode;

/// The least place at which the order of the sections is broken (SPIR-V 1.2, 2.4), in a module of so many words: that of an instruction
/// that stands behind one of a later section, or of a memory model behind another one. Where there is no memory model, the number of
/// words is such a place too.
pub fn section_fault(insts: &[RawInst], words: u64) -> Option<u64>
    ensures { result ≡ least (section_places insts.now words) }
{
    lesser(first_misplaced(insts), model_fault(insts, words))
}

/// The least place of an instruction that stands behind one of a later section.
fn first_misplaced(insts: &[RawInst]) -> Option<u64>
    ensures { result ≡ least (places_where is_misplaced insts.now) }
{
    let mut least = None;
    let mut begun = false;
    let mut highest = 0;
    for inst in insts {
        let rank = rank_in(begun, standing_of(inst));
        least = told(least, is_behind(rank, highest), inst.place);
        highest = risen(highest, rank);
        begun |= begins_functions(inst);
    }
    least
}

/// The rank of the section that an instruction belongs to, if it belongs to one, where the function section has begun or not.
pub fn rank_in(begun: bool, standing: Standing) -> Option<u8>
    ensures { result ≡ rank_in begun standing }
{
    match standing {
        Standing::Anywhere => None,
        Standing::LastTwo if begun => Some(Section::Functions.rank()),
        Standing::LastTwo => Some(Section::Declarations.rank()),
        Standing::In(section) => Some(section.rank()),
    }
}

/// Whether a later section has been reached.
fn is_behind(rank: Option<u8>, highest: u8) -> bool
    ensures { result ≡ is_behind highest rank }
{
    match rank {
        Some(rank) => rank < highest,
        None => false,
    }
}

/// The highest rank so far.
fn risen(highest: u8, rank: Option<u8>) -> u8
    ensures { result ≡ risen highest rank }
{
    match rank {
        Some(rank) => highest.max(rank),
        None => highest,
    }
}

/// The least place of a memory model behind another one, or the number of words where there is none.
fn model_fault(insts: &[RawInst], words: u64) -> Option<u64>
    ensures { result ≡ least (places_where gives_again insts.now ++ place_if (not (list_any is_model insts.now)) words) }
{
    let mut least = None;
    let mut given = false;
    for inst in insts {
        let is_model = inst.op == Opcode::MemoryModel.number();
        least = told(least, given & is_model, inst.place);
        given |= is_model;
    }
    told(least, !given, words)
}
