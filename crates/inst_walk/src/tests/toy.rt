ghost use Rattle.std.specs.Prelude.{◌≡◌, nat_eq};
ghost use Rattle.inst_walk.specs.Renaming.{renamed_name};

use crate::inst_set::InstSet;
use crate::renaming::Renaming;

/// An instruction of the tests' own set. Its names are numbers.
#[derive(Clone, Copy)]
pub enum Toy {
    /// A value made of two.
    Add(u32, u32, u32),
    /// A value chosen by the predecessor: each value beside its block.
    Phi(u32, u32, u32, u32, u32),
    Call(u32),
    Jump(u32),
    /// A condition and two targets.
    Fork(u32, u32, u32),
    /// A selector, the default target and three more.
    Switch(u32, u32, u32, u32, u32),
    Return,
}

impl InstSet for Toy {
    ghost use Rattle.std.specs.Prelude.{ℕ, List, [], ◌∷◌, Option, None, Some, refl};
    ghost use Rattle.std.proofs.Common.{◌≡◌, eqb-true, lit<};
    ghost use Rattle.inst_walk.specs.Outline.{Outline, Uses, Plain, Phi as Choice};
    ghost use Rattle.inst_walk.specs.declared.tests.toy.Toy.{Toy};
    ghost use Rattle.inst_walk.specs.declared.tests.toy.Toy.TheVariants.{Add, Phi, Call, Jump, Fork, Switch, Return};

    type Name = u32;

    ghost outline = { elim [
      | Add to a b ↦ record { defines = Some to; uses = Plain (a ∷ b ∷ []); calls = None; leads_to = []; others = [] }
      | Phi to a from_a b from_b ↦ record { defines = Some to; uses = Choice ((a, from_a) ∷ (b, from_b) ∷ []); calls = None; leads_to = []; others = [] }
      | Call function ↦ record { defines = None; uses = Plain []; calls = Some function; leads_to = []; others = [] }
      | Jump target ↦ record { defines = None; uses = Plain []; calls = None; leads_to = target ∷ []; others = [] }
      | Fork on left right ↦ record { defines = None; uses = Plain (on ∷ []); calls = None; leads_to = left ∷ right ∷ []; others = [] }
      | Switch on a b c d ↦ record { defines = None; uses = Plain (on ∷ []); calls = None; leads_to = a ∷ b ∷ c ∷ d ∷ []; others = [] }
      | Return ↦ record { defines = None; uses = Plain []; calls = None; leads_to = []; others = [] }
    ] };

    ghost renamed = { λ f. elim [
      | Add to a b ↦ Add (f to) (f a) (f b)
      | Phi to a from_a b from_b ↦ Phi (f to) (f a) (f from_a) (f b) (f from_b)
      | Call function ↦ Call (f function)
      | Jump target ↦ Jump (f target)
      | Fork on left right ↦ Fork (f on) (f left) (f right)
      | Switch on a b c d ↦ Switch (f on) (f a) (f b) (f c) (f d)
      | Return ↦ Return
    ] };

    ghost same_name = { eqb-true };

    ghost renamed_outline = { λ f. elim [ Add to a b ↦ refl | Phi to a from_a b from_b ↦ refl | Call function ↦ refl | Jump target ↦ refl | Fork on left right ↦ refl | Switch on a b c d ↦ refl | Return ↦ refl ] };

    ghost renamed_twice = { λ f g. elim [ Add to a b ↦ refl | Phi to a from_a b from_b ↦ refl | Call function ↦ refl | Jump target ↦ refl | Fork on left right ↦ refl | Switch on a b c d ↦ refl | Return ↦ refl ] };

    ghost renamed_alike = { λ f g. elim [
      | Add to a b ↦ λ h. let e0 : f to ≡ g to = h 0 to (lit< tt) in let e1 : f a ≡ g a = h 1 a (lit< tt) in let e2 : f b ≡ g b = h 2 b (lit< tt) in Prim.cc
      | Phi to a from_a b from_b ↦ λ h. let e0 : f to ≡ g to = h 0 to (lit< tt) in let e1 : f a ≡ g a = h 1 a (lit< tt) in let e2 : f b ≡ g b = h 2 b (lit< tt) in let e3 : f from_a ≡ g from_a = h 3 from_a (lit< tt) in let e4 : f from_b ≡ g from_b = h 4 from_b (lit< tt) in Prim.cc
      | Call function ↦ λ h. let e0 : f function ≡ g function = h 0 function (lit< tt) in Prim.cc
      | Jump target ↦ λ h. let e0 : f target ≡ g target = h 0 target (lit< tt) in Prim.cc
      | Fork on left right ↦ λ h. let e0 : f on ≡ g on = h 0 on (lit< tt) in let e1 : f left ≡ g left = h 1 left (lit< tt) in let e2 : f right ≡ g right = h 2 right (lit< tt) in Prim.cc
      | Switch on a b c d ↦ λ h. let e0 : f on ≡ g on = h 0 on (lit< tt) in let e1 : f a ≡ g a = h 1 a (lit< tt) in let e2 : f b ≡ g b = h 2 b (lit< tt) in let e3 : f c ≡ g c = h 3 c (lit< tt) in let e4 : f d ≡ g d = h 4 d (lit< tt) in Prim.cc
      | Return ↦ λ h. refl
    ] };

    ghost renamed_same = { elim [ Add to a b ↦ refl | Phi to a from_a b from_b ↦ refl | Call function ↦ refl | Jump target ↦ refl | Fork on left right ↦ refl | Switch on a b c d ↦ refl | Return ↦ refl ] };

    fn result(&self) -> Option<u32> {
        match self {
            Toy::Add(to, ..) | Toy::Phi(to, ..) => Some(*to),
            _ => None,
        }
    }

    fn uses_len(&self) -> usize {
        match self {
            Toy::Add(..) | Toy::Phi(..) => 2,
            Toy::Fork(..) | Toy::Switch(..) => 1,
            _ => 0,
        }
    }

    fn use_at(&self, i: usize) -> u32 {
        match self {
            Toy::Add(_, a, b) | Toy::Phi(_, a, _, b, _) => { if i == 0 { *a } else { *b } }
            Toy::Fork(on, ..) | Toy::Switch(on, ..) => *on,
            _ => 0,
        }
    }

    fn parent_at(&self, i: usize) -> Option<u32> {
        match self {
            Toy::Phi(_, _, from_a, _, from_b) => Some(if i == 0 { *from_a } else { *from_b }),
            _ => None,
        }
    }

    fn is_phi(&self) -> bool {
        matches!(self, Toy::Phi(..))
    }

    fn callee(&self) -> Option<u32> {
        match self {
            Toy::Call(function) => Some(*function),
            _ => None,
        }
    }

    fn targets_len(&self) -> usize {
        match self {
            Toy::Jump(_) => 1,
            Toy::Fork(..) => 2,
            Toy::Switch(..) => 4,
            _ => 0,
        }
    }

    fn target_at(&self, i: usize) -> u32 {
        match self {
            Toy::Jump(target) => *target,
            Toy::Fork(_, left, right) => { if i == 0 { *left } else { *right } }
            Toy::Switch(_, a, b, c, d) => match i {
                0 => *a,
                1 => *b,
                2 => *c,
                _ => *d,
            },
            _ => 0,
        }
    }

    fn rename(&mut self, map: &Renaming<u32>) {
        match self {
            Toy::Add(to, a, b) => rename_three(to, a, b, map),
            Toy::Phi(to, a, from_a, b, from_b) => {
                rename_three(to, a, b, map);
                *from_a = map.renamed(*from_a);
                *from_b = map.renamed(*from_b);
            }
            Toy::Call(function) => *function = map.renamed(*function),
            Toy::Jump(target) => *target = map.renamed(*target),
            Toy::Fork(on, left, right) => rename_three(on, left, right, map),
            Toy::Switch(on, a, b, c, d) => {
                rename_three(on, a, b, map);
                *c = map.renamed(*c);
                *d = map.renamed(*d);
            }
            Toy::Return => {}
        }
    }
}

fn rename_three(a: &mut u32, b: &mut u32, c: &mut u32, map: &Renaming<u32>)
    ensures first { a.new ≡ renamed_name nat_eq map.now a.old }
    ensures second { b.new ≡ renamed_name nat_eq map.now b.old }
    ensures third { c.new ≡ renamed_name nat_eq map.now c.old }
{
    *a = map.renamed(*a);
    *b = map.renamed(*b);
    *c = map.renamed(*c);
}
