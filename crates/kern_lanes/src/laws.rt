ghost use Rattle.std.specs.Prelude.{ℕ};
ghost use Rattle.kern_lanes.specs.declared.width.Width.{Width};
ghost use Rattle.kern_lanes.specs.declared.binary.BinOp.{BinOp};
ghost use Rattle.kern_lanes.specs.Widths.{IsLane};
ghost use Rattle.kern_lanes.specs.Laws.{TrapsExactly, GivesLanes, JoinUndoesSplit, SplitUndoesJoin};

/// Each trap of an operation comes exactly where its cause stands.
pub fn traps_come_exactly()
    ensures { (op : BinOp) (w : Width) (a b : ℕ) → IsLane w a → IsLane w b → TrapsExactly op w a b }
{}

/// Joining the parts of a lane gives the lane back.
pub fn join_undoes_split()
    ensures { JoinUndoesSplit }
{}

/// Splitting the lane that parts make gives the parts back.
pub fn split_undoes_join()
    ensures { SplitUndoesJoin }
{}

/// What an operation gives is a lane of its width.
pub fn results_are_lanes()
    ensures { GivesLanes }
{}
