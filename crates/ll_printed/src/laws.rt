ghost use Rattle.ll_printed.specs.Laws.{WrittenModulesAreRead, WrittenModulesHaveTokens, WrittenOperationsAreRead};

/// What an instruction is written as is read as that instruction, places aside, where some tokens are.
pub fn written_operations_are_read()
    ensures { WrittenOperationsAreRead }
{}

/// What a module is written as is read as that module, places aside, where some tokens are.
pub fn written_modules_are_read()
    ensures { WrittenModulesAreRead }
{}

/// The text that such a module is written as has the tokens that are meant.
pub fn written_modules_have_tokens()
    ensures { WrittenModulesHaveTokens }
{}
