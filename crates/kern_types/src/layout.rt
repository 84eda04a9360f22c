ghost use Rattle.std.specs.Prelude.{◌≡◌, ◌==◌, if◌then◌else◌, Some, None, ◌^◌, ◌<◌, ◌≤◌, ◌+◌, IfSome, All, option_map};
ghost use Rattle.std.specs.Int.{next_multiple_of};
ghost use Rattle.kern_types.specs.Layouts.{natural, int_bytes, element_bytes, lane_room, repeated, unaligned, layout_in, type_in, as_placed, struct_of, layouts_in, vector_of, struct_in, layout_of};
ghost use Rattle.kern_types.specs.Kept.{capped, capped_size, IsKept, IsKeptEntry};

use crate::class::PointerWidth;
use crate::ty::{Ty, TyId};
use kern_lanes::Width;

/// The greatest size that a type may have, in bytes.
pub(crate) const LARGEST_SIZE: u64 = 1 << 40;

/// A size and an alignment, in bytes. A size above the greatest one is kept as one byte more than it.
#[derive(Clone, Copy, Debug)]
pub struct Layout {
    pub size: u64,
    pub align: u64,
}

/// A type with its layout, if it has one.
#[derive(Debug, Drop)]
pub struct Entry {
    pub ty: Ty,
    pub layout: Option<Layout>,
}

/// The layout of a type whose parts stand in these entries.
#[tactic(auto, unfolding(crate::specs::Layouts::layout_of))]
pub(crate) fn layout_of(pointer: PointerWidth, entries: &[Entry], ty: &Ty) -> Option<Layout>
    requires { All IsKeptEntry entries.now }
    ensures exact { result ≡ option_map capped (layout_of pointer entries.now ty.now) }
    ensures kept { IfSome result IsKept }
{
    match ty {
        Ty::Void | Ty::Bool | Ty::Function { .. } | Ty::Other => None,
        Ty::Int(width) => Some(natural(int_bytes(*width)?)),
        Ty::Vector { of, lanes } => vector_layout(entries, *of, *lanes),
        Ty::Array { of, count } => array_layout(layout_in(entries, *of)?, *count),
        Ty::Struct { members, packed } => struct_layout(entries, members.as_slice(), *packed),
        Ty::Pointer { to, .. } => {
            layout_in(entries, *to)?;
            Some(natural(pointer.bytes()))
        }
    }
}

/// The layout that a type of the table has.
pub(crate) fn layout_in(entries: &[Entry], id: TyId) -> Option<Layout>
    requires { All IsKeptEntry entries.now }
    ensures value { result ≡ layout_in entries.now id }
    ensures kept { IfSome result IsKept }
{
    entries.get(id.0 as usize)?.layout
}

/// What a size is kept as.
pub(crate) fn capped_size(size: u64) -> u64
    ensures { result ≡ capped_size size }
{
    size.min(LARGEST_SIZE + 1)
}

/// Where a member ends that begins at this place or behind it.
pub(crate) fn end_behind(end: u64, member: Layout) -> u64
    requires end { end ≤ 2 ^ 40 + 1 }
    requires member { IsKept member }
    ensures { result ≡ capped_size (next_multiple_of end member.align + member.size) }
{
    capped_size(end.next_multiple_of(member.align) + member.size)
}

/// A member as a struct places it: a packed one leaves no gaps.
pub(crate) fn as_placed(packed: bool, member: Layout) -> Layout
    requires { IsKept member }
    ensures placed { result ≡ (if packed then unaligned member else member) }
    ensures kept { IsKept result }
{
    Layout {
        size: member.size,
        align: if packed { 1 } else { member.align },
    }
}

fn natural(bytes: u64) -> Layout
    requires some { 0 < bytes }
    requires bounded { bytes ≤ 128 }
    ensures value { result ≡ capped (natural bytes) }
    ensures kept { IsKept result }
{
    Layout {
        size: bytes,
        align: bytes,
    }
}

fn int_bytes(width: Width) -> Option<u64>
    ensures value { result ≡ int_bytes width }
    ensures bounded { IfSome result (λ bytes. (0 < bytes) × (bytes ≤ 8)) }
{
    match width {
        Width::W1 => None,
        Width::W8 => Some(1),
        Width::W16 => Some(2),
        Width::W32 => Some(4),
        Width::W64 => Some(8),
    }
}

fn element_bytes(ty: &Ty) -> Option<u64>
    ensures value { result ≡ element_bytes ty.now }
    ensures bounded { IfSome result (λ bytes. (0 < bytes) × (bytes ≤ 8)) }
{
    match ty {
        Ty::Int(width) => int_bytes(*width),
        _ => None,
    }
}

fn lane_room(lanes: u32) -> Option<u64>
    ensures value { result ≡ lane_room lanes }
    ensures bounded { IfSome result (λ room. (0 < room) × (room ≤ 16)) }
{
    match lanes {
        2 => Some(2),
        3 | 4 => Some(4),
        8 => Some(8),
        16 => Some(16),
        _ => None,
    }
}

fn vector_layout(entries: &[Entry], part: TyId, lanes: u32) -> Option<Layout>
    ensures exact { result ≡ option_map capped (vector_of entries.now part lanes) }
    ensures kept { IfSome result IsKept }
{
    let bytes = element_bytes(&entries.get(part.0 as usize)?.ty)?;
    Some(natural(lane_room(lanes)? * bytes))
}

fn array_layout(part: Layout, count: u64) -> Option<Layout>
    requires { IsKept part }
    ensures exact { result ≡ (if count == 0 then None else Some (capped (repeated count part))) }
    ensures kept { IfSome result IsKept }
{
    if count == 0 {
        return None;
    }
    Some(Layout {
        size: capped_size(part.size.saturating_mul(count)),
        align: part.align,
    })
}

fn struct_layout(entries: &[Entry], members: &[TyId], packed: bool) -> Option<Layout>
    requires { All IsKeptEntry entries.now }
    ensures exact { result ≡ option_map capped (struct_in entries.now members.now packed) }
    ensures kept { IfSome result IsKept }
{
    let mut end = 0u64;
    let mut align = 1u64;
    for id in members {
        let member = as_placed(packed, layout_in(entries, *id)?);
        end = end_behind(end, member);
        align = align.max(member.align);
    }
    Some(Layout {
        size: capped_size(end.next_multiple_of(align)),
        align,
    })
}
