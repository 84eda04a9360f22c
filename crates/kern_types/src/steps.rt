ghost use Rattle.std.specs.Prelude.{◌≡◌, ◌^◌, ◌*ℤ◌, ◌≤◌, ◌<◌, ◌+◌, pos, All, IsSome, length, option_map};
ghost use Rattle.kern_lanes.specs.declared.width.Width.TheVariants.{W64};
ghost use Rattle.kern_lanes.specs.Widths.{lane};
ghost use Rattle.kern_types.specs.Layouts.{layouts_in};
ghost use Rattle.kern_types.specs.Kept.{IsKeptEntry, capped_size};
ghost use Rattle.kern_types.specs.Tables.{Names, size_at};
ghost use Rattle.kern_types.specs.Steps.{step_at, element_at, answered};
ghost use Rattle.kern_types.specs.Kept.{start_of, kept_member};

use crate::layout::{Entry, as_placed, capped_size, end_behind, layout_in};
use crate::table::TypeTable;
use crate::ty::{Ty, TyId};

/// An index times a size in bytes, modulo 2^64.
pub(crate) fn element_offset(index: i64, size: u64) -> u64
    ensures { result ≡ lane W64 (index *ℤ pos size) }
{
    (i128::from(index) * i128::from(size)).rem_euclid(1 << 64) as u64
}

/// Where a member starts, kept as a size is. None where some member before it, or the member
/// itself, has no layout.
pub(crate) fn member_start(
    entries: &[Entry],
    members: &[TyId],
    packed: bool,
    index: usize,
) -> Option<u64>
    requires entries { All IsKeptEntry entries.now }
    requires index { index < length members.now }
    requires sized { IsSome (start_of entries.now packed 0 index members.now) }
    ensures { result ≡ start_of entries.now packed 0 index members.now }
{
    let mut end = 0u64;
    for id in &members[..index] {
        end = end_behind(end, as_placed(packed, layout_in(entries, *id)?));
    }
    let member = as_placed(packed, layout_in(entries, members[index])?);
    Some(capped_size(end.next_multiple_of(member.align)))
}

/// An element, by what the entries keep.
fn element(entries: &[Entry], part: TyId, index: i64) -> Option<(u64, TyId)>
    requires { All IsKeptEntry entries.now }
    ensures { result ≡ answered (element_at entries.now part index) }
{
    let layout = layout_in(entries, part)?;
    Some((element_offset(index, layout.size), part))
}

/// A member, by what the entries keep.
fn member(entries: &[Entry], members: &[TyId], packed: bool, index: i64) -> Option<(u64, TyId)>
    requires entries { All IsKeptEntry entries.now }
    requires sized { IsSome (layouts_in entries.now members.now) }
    ensures { result ≡ kept_member entries.now members.now packed index }
{
    let place = usize::try_from(index).ok()?;
    let id = *members.get(place)?;
    let start = member_start(entries, members, packed, place)?;
    Some((start, id))
}

/// The offset of a part of a type, in bytes and modulo 2^64, and the type of the part: an element of
/// an array or a vector (also one outside of it), or a member of a struct. None exactly where the type
/// is none of these, or a struct that has no such member.
pub fn step(table: &TypeTable, ty: TyId, index: i64) -> Option<(u64, TyId)>
    requires id { Names table.now ty }
    requires sized { IsSome (size_at table.now ty) }
    ensures { result ≡ step_at table.now ty index }
{
    let entries = table.entries();
    match table.get(ty) {
        Ty::Vector { of, .. } | Ty::Array { of, .. } => element(entries, *of, index),
        Ty::Struct { members, packed } => member(entries, members.as_slice(), *packed, index),
        Ty::Void | Ty::Bool | Ty::Int(_) | Ty::Pointer { .. } | Ty::Function { .. } | Ty::Other =>
            None,
    }
}
