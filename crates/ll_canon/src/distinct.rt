ghost use Rattle.std.specs.Prelude.{◌≡◌, map};
ghost use Rattle.kernel_tree.specs.Covered.{all_first};
ghost use Rattle.kernel_tree.specs.Numbered.{number_defined};

use inst_walk::Places;
use kernel_tree::Definition;

/// Whether each definition is the first one of its name.
pub fn are_distinct(places: &Places<u32>, defined: &[Definition]) -> bool
    ensures { result ≡ all_first places.now 0 (map number_defined defined.now) }
{
    for (at, definition) in defined.iter().enumerate() {
        if places.place(definition.name.number) != Some(at) {
            return false;
        }
    }
    true
}
