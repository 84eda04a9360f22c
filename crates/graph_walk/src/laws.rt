//! Laws of the definitions, each the contract of a function without a body.

ghost use Rattle.std.specs.Prelude.{◌≡◌, ℕ, ◌<◌, List, length, false};
ghost use Rattle.graph_walk.specs.Levels.{Rises, level_of};
ghost use Rattle.graph_walk.specs.Preorder.{preorder, preorder_step, reaches, IsGraph};

/// The preorder from a node is the node and then what its targets add, with no word on depth.
pub fn preorder_by_targets()
    ensures { (rows : List (List ℕ)) (node : ℕ) (seen : List ℕ) → IsGraph rows → node < length rows → preorder rows node seen ≡ preorder_step rows node seen }
{}

/// What an edge to a higher level leads to doesn't lead back.
pub fn higher_is_not_reached()
    ensures { (rows : List (List ℕ)) (levels : List ℕ) (start node : ℕ) → Rises rows levels → level_of levels node < level_of levels start → reaches rows start node ≡ false }
{}
