ghost use Rattle.ll_print_depth.specs.Laws.{WrittenModulesNestNoDeeper};

/// Where no bracket of a text is nested too deep, none of what its module is written as is.
pub fn written_modules_nest_no_deeper()
    ensures { WrittenModulesNestNoDeeper }
{}
