//! What holds of what stands for instructions.

ghost use Rattle.dj_member_ways.specs.Holding.{MemberWaysHold};

/// What stands for the instructions of a method does what they do, where no cause speaks against one of them.
pub fn member_ways_hold()
    ensures hold { MemberWaysHold }
{}
