//! What holds of all texts: the contracts of these functions, which do nothing.

ghost use Rattle.std.specs.Prelude.{◌≡◌, List, ℕ, None};
ghost use Rattle.ports.specs.declared.faults.LlFault.{LlFault};
ghost use Rattle.rule_order.specs.Breaks.{RulePlaces, first_refusal};
ghost use Rattle.ll_tree.specs.declared.module.LlModule.{LlModule};
ghost use Rattle.ll_texts.specs.TextFaults.{IsModuleInput, IsTextFault};
ghost use Rattle.ll_texts.specs.TextRules.{HasTextRules, IsModuleText};

/// The text of a module breaks none of the rules.
pub fn texts_of_modules_break_no_rule()
    ensures { (text : List ℕ) (m : LlModule) (rules : List RulePlaces) → IsModuleText text m → HasTextRules text rules → first_refusal rules ≡ None }
{}

/// Nothing is told of an input that is the text of a module.
pub fn modules_have_no_fault()
    ensures { (input : List ℕ) (fault : LlFault) → IsModuleInput input → IsTextFault input fault → ⊥ }
{}
