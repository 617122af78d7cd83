//! What is so of every log.

ghost use Rattle.class_table.specs.Below.{List};
ghost use Rattle.class_table.specs.ClassLog.Change.{Change};
ghost use Rattle.class_table.specs.ClassLog.Following.{BeginsWith, Keeps, CanFollow};
ghost use Rattle.class_table.specs.ClassLog.Refused.{AreMade};
ghost use Rattle.class_table.specs.ClassLog.Shown.{first_classes};

/// Where each change of a log was made in its turn, a replica whose changes the log begins with can follow it. And a log
/// begins with what it was, where each change stands in its place still.
pub fn a_log_can_be_followed()
    ensures follows { (done log : List Change) → BeginsWith done log → AreMade first_classes log → CanFollow done log }
    ensures begins { (old new : List Change) → Keeps old new → BeginsWith old new }
{}
