//! Runs of deterministic machines: when two of them show the same events and outcomes, and that machines whose steps correspond do.
#![tactic(auto)]

ghost use Rattle.kern_runs.specs.Laws.{AlikeIsSymmetric, CorrespondenceIsAlike, CorrespondencesJoin};

/// Two runs that are alike are so in either order.
pub fn alike_is_symmetric()
    ensures { AlikeIsSymmetric }
{}

/// Where each step of one machine is a list of steps of another with the same events, empty or not but never for a jump, what either
/// shows after k steps the other shows after (k + 1) * (size + 1) at most, by their sizes together.
pub fn correspondence_is_alike()
    ensures { CorrespondenceIsAlike }
{}

/// Where the steps of a second machine are lists of a third one's, so are those of the first.
pub fn correspondences_join()
    ensures { CorrespondencesJoin }
{}
