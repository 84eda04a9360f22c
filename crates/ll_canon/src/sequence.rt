ghost use Rattle.std.specs.Prelude.{◌≡◌, map, slice_get};
ghost use Rattle.kernel_tree.specs.Covered.{in_sequence, number_of_entry};
ghost use Rattle.kernel_tree.specs.Numbered.{number_defined};

use kernel_tree::Definition;
use ll_tree::{NameText, Spelling};

/// Whether the names that are numbers count up from 0.
pub fn is_in_sequence(names: &[NameText], defined: &[Definition]) -> bool
    ensures { result ≡ in_sequence names.now 0 (map number_defined defined.now) }
{
    let mut next = 0u64;
    for definition in defined {
        if let Some(number) = number_named(names, definition.name.number) {
            if u64::from(number) != next {
                return false;
            }
            next += 1;
        }
    }
    true
}

/// The number that a name is spelled as. None exactly where it is no number.
fn number_named(names: &[NameText], name: u32) -> Option<u32>
    ensures { result ≡ number_of_entry (slice_get names.now name) }
{
    match names.get(name as usize) {
        Some(entry) => match entry.spelling {
            Spelling::Number(number) => Some(number),
            Spelling::Text(_) => None,
        },
        None => None,
    }
}
