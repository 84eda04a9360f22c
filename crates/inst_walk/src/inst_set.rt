ghost use Rattle.std.specs.Prelude.{◌≡◌, ℕ, ◌<◌, Bool, true, Some, length, slice_get, All, List};
ghost use Rattle.inst_walk.specs.Outline.{Outline, is_phi, values_of, parents_of, names_of, outline_renamed};
ghost use Rattle.inst_walk.specs.Renaming.{renamed_name};

use crate::renaming::Renaming;
use std::hash::Hash;

/// An instruction of an instruction set, as far as the walks over function bodies look at it.
pub trait InstSet: Drop {
    /// What names blocks, values and functions. Equal names are one.
    type Name: Copy + Ord + Hash;

    /// The names that the instruction holds, each in its role.
    ghost outline: { Self → Outline Self.Name };

    /// The instruction with each name replaced.
    ghost renamed: { (Self.Name → Self.Name) → Self → Self };

    /// The name that the instruction gives its value.
    fn result(&self) -> Option<Self::Name>
        ensures { result ≡ (outline self.now).defines };

    /// How many named values the instruction takes.
    fn uses_len(&self) -> usize
        ensures { result ≡ length (values_of (outline self.now).uses) };

    /// The named value at place `i`.
    fn use_at(&self, i: usize) -> Self::Name
        requires { i < length (values_of (outline self.now).uses) }
        ensures { slice_get (values_of (outline self.now).uses) i ≡ Some result };

    /// The predecessor block for which a phi takes the named value at place `i`: `None` exactly for an
    /// instruction that isn't a phi.
    fn parent_at(&self, i: usize) -> Option<Self::Name>
        requires { i < length (values_of (outline self.now).uses) }
        ensures { result ≡ slice_get (parents_of (outline self.now).uses) i };

    /// Whether the instruction is a phi.
    fn is_phi(&self) -> bool
        ensures { result ≡ is_phi (outline self.now).uses };

    /// The function that the instruction calls.
    fn callee(&self) -> Option<Self::Name>
        ensures { result ≡ (outline self.now).calls };

    /// How many blocks the instruction may lead to.
    fn targets_len(&self) -> usize
        ensures { result ≡ length (outline self.now).leads_to };

    /// The block at place `i` of those that the instruction may lead to.
    fn target_at(&self, i: usize) -> Self::Name
        requires { i < length (outline self.now).leads_to }
        ensures { slice_get (outline self.now).leads_to i ≡ Some result };

    /// Replaces each name by the one that the map gives it. A name that the map lacks stays.
    fn rename(&mut self, map: &Renaming<Self::Name>)
        ensures { self.new ≡ renamed (renamed_name Self.Name.eq map.now) self.old };

    /// Equal names are one.
    ghost same_name: { (a b : Self.Name) → Self.Name.eq a b ≡ true → a ≡ b };

    /// Each role of a renamed instruction has the renamed names.
    ghost renamed_outline: { (f : Self.Name → Self.Name) (inst : Self) → outline (renamed f inst) ≡ outline_renamed f (outline inst) };

    /// Renaming twice is renaming once by both.
    ghost renamed_twice: { (f g : Self.Name → Self.Name) (inst : Self) → renamed g (renamed f inst) ≡ renamed (λ name. g (f name)) inst };

    /// Only what becomes of the instruction's own names matters.
    ghost renamed_alike: { (f g : Self.Name → Self.Name) (inst : Self) → All (λ name. f name ≡ g name) (names_of (outline inst)) → renamed f inst ≡ renamed g inst };

    /// Renaming each name to itself changes nothing.
    ghost renamed_same: { (inst : Self) → renamed (λ name. name) inst ≡ inst };
}
