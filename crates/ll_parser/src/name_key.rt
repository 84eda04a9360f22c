ghost use Rattle.std.specs.Prelude.{◌≡◌, nat_eq, fold};
ghost use Rattle.std.specs.Cmp.Lexicographic.{pointwise};
ghost use Rattle.std.specs.Cmp.Rules.{comparing};
ghost use Rattle.std.specs.Ordering.{on};
ghost use Rattle.std.proofs.Common.{rules};
ghost use Rattle.ll_parser.specs.NameCodes.{kind_code, spelling_code, name_code, name_hashed, spelling_hashed, same_names_hash_alike};

use ll_tree::{NameKind, NameText, Spelling};
use std::hash::{Hash, Hasher};
use std::marker::Model;

/// A name as a key of a table. Contracts see the name.
#[derive(Drop)]
pub struct NameKey {
    name: NameText,
}

impl Model for NameKey {
    ghost use Rattle.ll_tree.specs.declared.name.NameText.{NameText};
    ghost use Rattle.ll_tree.specs.contracts.name.NameText as plain;

    ghost Value = { NameText };

    ghost coded = { plain.the_row.coded };

    ghost view = { λ key. key.name };
}

impl NameKey {
    pub fn new(name: NameText) -> NameKey
        ensures { result ≡ name }
    {
        NameKey { name }
    }

    pub fn name(&self) -> &NameText
        ensures { result.now ≡ self.now }
    {
        &self.name
    }

    pub fn into_name(self) -> NameText
        ensures { result ≡ self }
    {
        let NameKey { name } = self;
        name
    }
}

impl PartialEq for NameKey {
    ghost eq = { on name_code (pointwise nat_eq) };

    ghost laws = { Prim.search (comparing, rules) };

    fn eq(&self, other: &NameKey) -> bool {
        kind_code(self.name.kind) == kind_code(other.name.kind)
            && is_same_spelling(&self.name.spelling, &other.name.spelling)
    }
}

impl Eq for NameKey {
    ghost laws = { Prim.search (comparing, rules) };
}

impl Hash for NameKey {
    ghost hash_input = { name_hashed };

    ghost respects_eq = { same_names_hash_alike };

    fn hash<H: Hasher>(&self, state: &mut H) {
        state.write_u8(kind_code(self.name.kind));
        hash_spelling(&self.name.spelling, state);
    }
}

/// A number for each kind of name.
fn kind_code(kind: NameKind) -> u8
    ensures { result ≡ kind_code kind }
{
    match kind {
        NameKind::Local => 0,
        NameKind::Global => 1,
        NameKind::Struct => 2,
    }
}

/// Whether two spellings are one.
fn is_same_spelling(a: &Spelling, b: &Spelling) -> bool
    ensures { result ≡ pointwise nat_eq (spelling_code a.now) (spelling_code b.now) }
{
    match (a, b) {
        (Spelling::Number(first), Spelling::Number(second)) => first == second,
        (Spelling::Text(first), Spelling::Text(second)) => first.as_slice() == second.as_slice(),
        _ => false,
    }
}

/// Hashes a number as it is, and a text with its length.
fn hash_spelling<H: Hasher>(spelling: &Spelling, state: &mut H)
    ensures { state.new ≡ fold H.write state.old (spelling_hashed spelling.now) }
{
    match spelling {
        Spelling::Number(number) => state.write_u32(*number),
        Spelling::Text(bytes) => bytes.as_slice().hash(state),
    }
}
