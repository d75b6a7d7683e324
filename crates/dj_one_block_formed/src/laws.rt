//! What holds of the tree of a method's one block.

ghost use Rattle.dj_one_block_formed.specs.Heading.{TestedMayEnter};
ghost use Rattle.dj_one_block_formed.specs.Entering.{VariablesMayEnter};
ghost use Rattle.dj_one_block_formed.specs.Ready.{LoneTreesAreReady};

/// The tree of the one block of a method against which no cause speaks may be declared as the method's body, where
/// its variables may stand at the body's head.
pub fn lone_trees_are_ready()
    ensures heading { TestedMayEnter }
    ensures enter { VariablesMayEnter }
    ensures ready { LoneTreesAreReady }
{}
