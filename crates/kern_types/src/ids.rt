ghost use Rattle.std.specs.Prelude.{◌≡◌};

use crate::ty::TyId;
use std::marker::Model;

/// A list of types, as the members of a struct or the parameters of a function.
#[derive(Debug, Drop)]
pub struct Ids {
    items: Vec<TyId>,
}

impl Model for Ids {
    ghost use Rattle.std.specs.Prelude.{List};
    ghost use Rattle.kern_types.specs.declared.ty.TyId.{TyId};

    ghost Value = { List TyId };

    ghost view = { λ ids. ids.items.items };
}

impl Ids {
    /// The list that a vector holds.
    pub fn from_vec(items: Vec<TyId>) -> Ids
        ensures { result ≡ items.items }
    {
        Ids { items }
    }

    /// The vector that holds the list.
    pub fn into_vec(self) -> Vec<TyId>
        ensures { result.items ≡ self }
    {
        self.items
    }

    /// The list as a slice.
    pub fn as_slice(&self) -> &[TyId]
        ensures { result.now ≡ self.now }
    {
        self.items.as_slice()
    }
}
