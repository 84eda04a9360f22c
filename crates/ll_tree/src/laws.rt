ghost use Rattle.ll_tree.specs.Laws.{ExampleLosesItsPlaces};
ghost use Rattle.ll_tree.specs.Spellings.{SpellingsAreToldApart};

/// The erasing of places, run on a module that has a place in each list.
pub fn example_loses_its_places()
    ensures { ExampleLosesItsPlaces }
{}

/// Names that are spelled differently stay apart when a module is compared by its spellings.
pub fn spellings_are_told_apart()
    ensures { SpellingsAreToldApart }
{}
