//! Laws of the definitions, each the contract of a function without a body: a body whose names are replaced
//! is walked as it was. A caller that needs one calls it.

ghost use Rattle.std.specs.Prelude.{◌≡◌, ℕ, List, ◌++◌, map, flat_map, All};
ghost use Rattle.inst_walk.specs.Body.{BodyOutline, body_outline, body_renamed, body_names, block_preorder};
ghost use Rattle.inst_walk.specs.Calls.{callees_of, first_cycle_call};
ghost use Rattle.inst_walk.specs.Places.{place_of};
ghost use Rattle.inst_walk.specs.RenamedBody.{body_outline_renamed, IsInjectiveOn, label_names, value_names, body_without_others};
ghost use Rattle.inst_walk.specs.Uses.{first_use_break};
ghost use Rattle.inst_walk.specs.declared.body.Body.{Body};

use crate::inst_set::InstSet;

/// Renaming a body twice is renaming it once by both.
pub fn body_renamed_twice<I: InstSet>()
    ensures { (f g : I.Name → I.Name) (body : Body I I.Name) →
        body_renamed I.renamed g (body_renamed I.renamed f body)
        ≡ body_renamed I.renamed (λ name. g (f name)) body }
{}

/// Only what becomes of the body's own names matters.
pub fn body_renamed_alike<I: InstSet>()
    ensures { (f g : I.Name → I.Name) (body : Body I I.Name) →
        All (λ name. f name ≡ g name) (body_names (body_outline I.outline body)) →
        body_renamed I.renamed f body ≡ body_renamed I.renamed g body }
{}

/// A renaming that keeps each of the body's names changes nothing.
pub fn body_renamed_same<I: InstSet>()
    ensures { (f : I.Name → I.Name) (body : Body I I.Name) →
        All (λ name. f name ≡ name) (body_names (body_outline I.outline body)) →
        body_renamed I.renamed f body ≡ body }
{}

/// What the walks see of a renamed body are the renamed names.
pub fn outline_of_renamed<I: InstSet>()
    ensures { (f : I.Name → I.Name) (body : Body I I.Name) →
        body_outline I.outline (body_renamed I.renamed f body)
        ≡ body_outline_renamed f (body_outline I.outline body) }
{}

/// The names of a renamed body are the renamed names, in their order.
pub fn names_of_renamed<I: InstSet, J: InstSet>()
    ensures { (f : I.Name → J.Name) (body : BodyOutline I.Name) →
        body_names (body_outline_renamed f body) ≡ map f (body_names body) }
{}

/// The order of the blocks is that of the renamed body, where no two names of blocks become one. The new
/// names may be those of another instruction set.
pub fn order_of_renamed<I: InstSet, J: InstSet>()
    ensures { (f : I.Name → J.Name) (body : BodyOutline I.Name) →
        IsInjectiveOn f (label_names body) →
        block_preorder J.Name.eq (body_outline_renamed f body) ≡ block_preorder I.Name.eq body }
{}

/// The first use that nothing above defines stands where it does in the renamed body, where no two names of
/// blocks and no two names of values become one. The order of the blocks may be any.
pub fn first_use_of_renamed<I: InstSet, J: InstSet>()
    ensures { (f : I.Name → J.Name) (body : BodyOutline I.Name) (order : List ℕ) →
        IsInjectiveOn f (label_names body) →
        IsInjectiveOn f (value_names body) →
        first_use_break J.Name.eq (body_outline_renamed f body) order ≡ first_use_break I.Name.eq body order }
{}

/// The first call on a cycle stands where it does in the renamed bodies, where no two names of functions
/// become one. Each body may have a renaming of its own, as long as all rename functions alike.
pub fn first_call_of_renamed<I: InstSet, J: InstSet>()
    ensures { (f : BodyOutline I.Name → I.Name → J.Name) (g : I.Name → J.Name)
        (names : List I.Name) (bodies : List (BodyOutline I.Name)) →
        IsInjectiveOn g (names ++ flat_map callees_of bodies) →
        All (λ body. All (λ callee. f body callee ≡ g callee) (callees_of body)) bodies →
        first_cycle_call J.Name.eq (map g names) (map (λ body. body_outline_renamed (f body) body) bodies)
        ≡ first_cycle_call I.Name.eq names bodies }
{}

/// No walk looks at the names that an instruction holds in no role.
pub fn walks_without_others<I: InstSet>()
    ensures order { (body : BodyOutline I.Name) →
        block_preorder I.Name.eq (body_without_others body) ≡ block_preorder I.Name.eq body }
    ensures uses { (body : BodyOutline I.Name) (order : List ℕ) →
        first_use_break I.Name.eq (body_without_others body) order ≡ first_use_break I.Name.eq body order }
    ensures calls { (names : List I.Name) (bodies : List (BodyOutline I.Name)) →
        first_cycle_call I.Name.eq names (map body_without_others bodies)
        ≡ first_cycle_call I.Name.eq names bodies }
{}

/// A body that `renumber` gives is walked as the one that it was given, where no two of its names became one.
pub fn walks_of_renumbered<I: InstSet>()
    ensures order { (f : I.Name → I.Name) (body : Body I I.Name) →
        IsInjectiveOn f (body_names (body_outline I.outline body)) →
        block_preorder I.Name.eq (body_outline I.outline (body_renamed I.renamed f body))
        ≡ block_preorder I.Name.eq (body_outline I.outline body) }
    ensures uses { (f : I.Name → I.Name) (body : Body I I.Name) (order : List ℕ) →
        IsInjectiveOn f (body_names (body_outline I.outline body)) →
        first_use_break I.Name.eq (body_outline I.outline (body_renamed I.renamed f body)) order
        ≡ first_use_break I.Name.eq (body_outline I.outline body) order }
{}

/// `call_cycle` finds the same in renumbered bodies, where no two names of functions became one. Each body
/// may have a renaming of its own, as long as all rename functions alike.
pub fn call_cycle_of_renumbered<I: InstSet>()
    ensures { (f : Body I I.Name → I.Name → I.Name) (g : I.Name → I.Name)
        (names : List I.Name) (bodies : List (Body I I.Name)) →
        IsInjectiveOn g (names ++ flat_map (λ body. callees_of (body_outline I.outline body)) bodies) →
        All (λ body. All (λ callee. f body callee ≡ g callee) (callees_of (body_outline I.outline body))) bodies →
        first_cycle_call I.Name.eq (map g names)
        (map (body_outline I.outline) (map (λ body. body_renamed I.renamed (f body) body) bodies))
        ≡ first_cycle_call I.Name.eq names (map (body_outline I.outline) bodies) }
{}

/// Names that stand in a list have different places in it, so numbering them by their places is injective.
pub fn places_are_apart<I: InstSet>()
    ensures { (names : List I.Name) → IsInjectiveOn (place_of I.Name.eq names) names }
{}
