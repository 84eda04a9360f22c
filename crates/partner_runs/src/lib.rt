//! Runs of the modules that a translation writes.
#![tactic(auto)]

ghost use Rattle.partner_runs.specs.Laws.{PartnerRunsAreSame, RewrittenRunsAreSame, TranslatedRunsAreSame};

/// The partner of a kernel under other names shows what the kernel's module of text shows.
pub fn partner_runs_are_same()
    ensures { PartnerRunsAreSame }
{}

/// The binary that a kernel of the covered subset is translated to shows what the kernel's text shows.
pub fn translated_runs_are_same()
    ensures { TranslatedRunsAreSame }
{}

/// The binary that one with the instructions of a kernel of the covered subset is rewritten to shows what that one shows.
pub fn rewritten_runs_are_same()
    ensures { RewrittenRunsAreSame }
{}
