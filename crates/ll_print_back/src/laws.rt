ghost use Rattle.ll_print_back.specs.Laws.{PrintedModulesAreRead, PrintedModulesAreThemselves, TextsHaveOneModule};

/// What the module of a text is written as is a text of the same module, places aside.
pub fn printed_modules_are_read()
    ensures { PrintedModulesAreRead }
{}

/// A text is that of one module, but for the numbers that its table gives to names.
pub fn texts_have_one_module()
    ensures { TextsHaveOneModule }
{}

/// What is read from what the module of a text is written as is that module, but for places and the numbers of names.
pub fn printed_modules_are_themselves()
    ensures { PrintedModulesAreThemselves }
{}
