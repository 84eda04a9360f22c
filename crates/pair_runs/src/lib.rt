//! Runs of every module that makes a pair with a kernel's module of text.
#![tactic(auto)]

ghost use Rattle.pair_runs.specs.Laws.{PairedRunsAreSame};

/// A module of a binary that makes a pair with a kernel's module of text shows what this shows.
pub fn paired_runs_are_same()
    ensures { PairedRunsAreSame }
{}
