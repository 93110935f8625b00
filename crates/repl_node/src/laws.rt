//! What slots hold back, in every state that calls of a node leave.
ghost use Rattle.std.specs.Prelude.{◌≡◌, ℕ, Result};
ghost use Rattle.repl_lsn.specs.History.{Path};
ghost use Rattle.repl_wal.specs.Following.{FollowLeaves};
ghost use Rattle.repl_wal.specs.Promoting.{PromoteLeaves};
ghost use Rattle.repl_wal.specs.State.{IsLog};
ghost use Rattle.repl_wal.specs.Steps.{Old};
ghost use Rattle.repl_wal.specs.Writing.{DemoteLeaves, FlushLeaves};
ghost use Rattle.repl_wal.specs.declared.fault.NodeFault.{NodeFault};
ghost use Rattle.repl_node.specs.Keeping.{AreAbove, AreListed, IsKept, IsTrimmedNode, KeptIn, TrimLeavesNode};
ghost use Rattle.repl_node.specs.State.{LeftOf, NodeState, saved_node};
ghost use Rattle.repl_node.specs.Steps.{SaveLeaves};

/// A trim keeps the log for every slot that is saved, at each of its moments and after it, where no such slot was dropped since
/// the last save.
pub fn trim_keeps()
    ensures moments { (n : NodeState) (keep : ℕ) → IsLog n.log → IsKept n → AreListed n → KeptIn n.log.size (TrimLeavesNode n keep) }
    ensures past { (n m : NodeState) (keep : ℕ) (result : Result ℕ NodeFault) → IsLog n.log → IsKept n → AreListed n → IsTrimmedNode n keep result m → IsKept m }
{}

/// Saving the slots keeps the log for every one, where no restart position that is saved lies below the floor.
pub fn save_keeps()
    ensures moments { (n : NodeState) → IsLog n.log → IsKept n → AreAbove n → KeptIn n.log.size (SaveLeaves n) }
    ensures past { (n : NodeState) → IsLog n.log → AreAbove n → IsKept (saved_node n) }
{}

/// So does every other call: it moves no floor, and saves no slot.
pub fn others_keep()
    ensures old { (n : NodeState) → IsKept n → KeptIn n.log.size (LeftOf n (Old n.log)) }
    ensures flush { (n : NodeState) → IsKept n → KeptIn n.log.size (LeftOf n (FlushLeaves n.log)) }
    ensures demote { (n : NodeState) → IsKept n → KeptIn n.log.size (LeftOf n (DemoteLeaves n.log)) }
    ensures promote { (n : NodeState) (at_least : ℕ) → IsKept n → KeptIn n.log.size (LeftOf n (PromoteLeaves n.log at_least)) }
    ensures follow { (n : NodeState) (child : Path) → IsKept n → KeptIn n.log.size (LeftOf n (FollowLeaves n.log child)) }
{}
